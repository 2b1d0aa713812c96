//! The words of suites that were worked out by hand, and the products of steps that are refused.
ghost use Rattle.std.specs.Prelude.{◌≡◌, ◌≤◌, [], ◌∷◌, IfOk};
ghost use Rattle.fsm_core.specs.Answers.{AllReached, IsReduced};
ghost use Rattle.word_pool.specs.Words.{AreIds};

use super::*;

/// A reduced machine, a bound, and the tests.
#[derive(Drop)]
struct Case {
    about: &'static str,
    letters: usize,
    rows: &'static [Row],
    bound: usize,
    tests: &'static [Word],
}

const CASES: [Case; 6] = [
    Case {
        about: "one state",
        letters: 1,
        rows: &ONE,
        bound: 1,
        tests: &[&[0]],
    },
    Case {
        about: "a speed alarm",
        letters: 3,
        rows: &ALARM,
        bound: 2,
        tests: &[&[0, 1], &[1, 1], &[2, 0, 1], &[2, 1, 1], &[2, 2, 1]],
    },
    Case {
        about: "a speed alarm with one more state",
        letters: 3,
        rows: &ALARM,
        bound: 3,
        tests: &[
            &[0, 0, 1],
            &[0, 1, 1],
            &[0, 2, 1],
            &[1, 0, 1],
            &[1, 1, 1],
            &[1, 2, 1],
            &[2, 0, 0, 1],
            &[2, 0, 1, 1],
            &[2, 0, 2, 1],
            &[2, 1, 0, 1],
            &[2, 1, 1, 1],
            &[2, 1, 2, 1],
            &[2, 2, 0, 1],
            &[2, 2, 1, 1],
            &[2, 2, 2, 1],
        ],
    },
    Case {
        about: "a speed alarm from 6 on",
        letters: 2,
        rows: &ALARM_FROM_6,
        bound: 2,
        tests: &[&[0, 0], &[1, 0, 0], &[1, 1, 0]],
    },
    Case {
        about: "a speed monitor",
        letters: 5,
        rows: &MONITOR,
        bound: 3,
        tests: &[
            &[0, 2],
            &[1, 2],
            &[2, 2],
            &[3, 0, 2],
            &[3, 1, 2],
            &[3, 2, 2],
            &[3, 3, 2],
            &[3, 4, 2],
            &[4, 0, 2],
            &[4, 1, 2],
            &[4, 2, 2],
            &[4, 3, 2],
            &[4, 4, 2],
        ],
    },
    Case {
        about: "shallow history",
        letters: 3,
        rows: &HISTORY,
        bound: 4,
        tests: &[
            &[0, 0],
            &[0, 1],
            &[1, 0, 0],
            &[1, 0, 1],
            &[1, 1, 0],
            &[1, 1, 1],
            &[1, 2, 0, 0],
            &[1, 2, 0, 1],
            &[1, 2, 1, 0],
            &[1, 2, 1, 1],
            &[1, 2, 2, 0],
            &[1, 2, 2, 1],
            &[2, 0, 0],
            &[2, 0, 1],
            &[2, 1, 0],
            &[2, 1, 1],
            &[2, 2, 0],
            &[2, 2, 1],
        ],
    },
];

/// Builds the words of a suite in a pool that has the empty word alone.
fn built(
    alloc: Global,
    fsm: &Fsm,
    bound: usize,
    pool: &mut Pool,
) -> Result<Result<Letters, BuildError>, AllocError>
    requires reached { AllReached fsm.now }
    requires reduced { IsReduced fsm.now }
    requires bound { bound ≤ 1024 }
    requires empty { pool.old.words ≡ [] ∷ [] }
    ensures ids { IfOk result (λ r. IfOk r (λ l. AreIds pool.new.words l.tests.items)) }
{
    let _states = fsm.states();
    let words = cover(alloc, fsm, pool)?;
    let marks = charset(alloc, fsm, &words, pool)?;
    Ok(build(alloc, fsm, words, marks, bound, pool))
}

/// The tests of a suite.
fn tests_of(
    rt: &impl Abort,
    alloc: Global,
    letters: usize,
    rows: &[Row],
    bound: usize,
) -> Result<Result<Vec<Vec<u16>>, BuildError>, AllocError> {
    let fsm = machine(rt, alloc, letters, rows)?;
    let least = reduced(rt, alloc, &fsm)?;
    let mut pool = Pool::new(alloc)?;
    assert!(rt; bound <= 1024);
    match built(alloc, &least, bound, &mut pool)? {
        Ok(words) => {
            assert_eq!(rt; words.bound, bound);
            Ok(Ok(lists_at(alloc, &pool, words.tests.as_slice())?))
        }
        Err(error) => Ok(Err(error)),
    }
}

#[test]
fn tests_by_hand(rt: HostRuntime) -> Result<(), Fail> {
    for case in CASES {
        let found = tests_of(&rt, rt.alloc(), case.letters, case.rows, case.bound)?;
        let tests = found?;
        check_words(&rt, case.about, tests.as_slice(), case.tests);
    }
    Ok(())
}

#[test]
fn one_state_and_the_greatest_bound(rt: HostRuntime) -> Result<(), Fail> {
    let found = tests_of(&rt, rt.alloc(), 1, &ONE, 1024)?;
    let tests = found?;
    assert_eq!(rt; tests.len(), 1);
    assert_eq!(rt; tests[0].len(), 1024);
    for letter in tests[0].iter() {
        assert_eq!(rt; *letter, 0);
    }
    Ok(())
}

#[test]
fn suites_that_are_refused(rt: HostRuntime) -> Result<(), Fail> {
    let cases = [
        (3, ALARM.as_slice(), 1, BuildError::BoundBelow { n: 2 }),
        (3, &ALARM, 0, BuildError::BoundBelow { n: 2 }),
        (3, &ALARM, 13, BuildError::TooManySteps),
        (5, &MONITOR, 2, BuildError::BoundBelow { n: 3 }),
    ];
    for (letters, rows, bound, want) in cases {
        match tests_of(&rt, rt.alloc(), letters, rows, bound)? {
            Ok(_) => assert!(rt; false, "{bound}"),
            Err(error) => assert_eq!(rt; error, want),
        }
    }
    Ok(())
}

#[test]
fn products_of_steps(rt: HostRuntime) {
    let cases = [
        (2, 3, 2, Ok(32)),
        (2, 3, 12, Ok(7_440_160)),
        (2, 3, 13, Err(BuildError::TooManySteps)),
        (2, 3, 1, Err(BuildError::BoundBelow { n: 2 })),
        (39, 77, 39, Ok(9_016_488)),
        (1, 1, 1024, Ok(1_050_625)),
        // The two sides of 20,000,000.
        (1, 2_581, 2, Ok(19_992_429)),
        (1, 2_582, 2, Err(BuildError::TooManySteps)),
        (1024, 4_096, 1023, Err(BuildError::BoundBelow { n: 1024 })),
        (1024, 4_096, 1024, Err(BuildError::TooManySteps)),
    ];
    for (states, letters, bound, want) in cases {
        assert!(rt;
            0 < states && states <= 1024 && 0 < letters && letters <= 4096 && bound <= 1024
        );
        assert_eq!(rt;
            steps_of(states, letters, bound),
            want,
            "{states} {letters} {bound}"
        );
    }
}
