//! Suites as values, whose words and replies were worked out from the charts and the definition of the W-method.
ghost use Rattle.std.specs.Prelude.{◌<◌, ◌≤◌, length};
ghost use Rattle.suite_model.specs.Scratch.{IsMadeFor};

use super::{ALARM, ALARM_FROM_6, HISTORY, MONITOR, ONE, RING_OF_4, classes_of, plan_of};
use chart_meaning::configurations_go_on;
use guard_atoms::members_act_alike;
use std::alloc::{AllocError, Global};
use std::process::Abort;
use std::test::Fail;
use suite_making::{MakeError, make_suite};
use suite_model::{Scratch, Suite};

/// The letters of a word, which count from 0.
type Word = &'static [u16];

/// The letters of a test, and the reply to each.
type Test = (Word, &'static [&'static [i64]]);

/// A chart, a bound and the suite.
#[derive(Drop)]
struct Case {
    about: &'static str,
    chart: &'static str,
    bound: usize,
    states: usize,
    classes: &'static [&'static [i64]],
    cover: &'static [Word],
    marks: &'static [Word],
    tests: &'static [Test],
}

const CASES: [Case; 7] = [
    Case {
        about: "a speed alarm",
        chart: ALARM,
        bound: 2,
        states: 2,
        classes: &[&[0], &[6], &[8]],
        cover: &[&[], &[2]],
        marks: &[&[1]],
        tests: &[
            (&[0, 1], &[&[0], &[0]]),
            (&[1, 1], &[&[0], &[0]]),
            (&[2, 0, 1], &[&[1], &[0], &[0]]),
            (&[2, 1, 1], &[&[1], &[1], &[1]]),
            (&[2, 2, 1], &[&[1], &[1], &[1]]),
        ],
    },
    Case {
        about: "a speed alarm with one more state",
        chart: ALARM,
        bound: 3,
        states: 2,
        classes: &[&[0], &[6], &[8]],
        cover: &[&[], &[2]],
        marks: &[&[1]],
        tests: &[
            (&[0, 0, 1], &[&[0], &[0], &[0]]),
            (&[0, 1, 1], &[&[0], &[0], &[0]]),
            (&[0, 2, 1], &[&[0], &[1], &[1]]),
            (&[1, 0, 1], &[&[0], &[0], &[0]]),
            (&[1, 1, 1], &[&[0], &[0], &[0]]),
            (&[1, 2, 1], &[&[0], &[1], &[1]]),
            (&[2, 0, 0, 1], &[&[1], &[0], &[0], &[0]]),
            (&[2, 0, 1, 1], &[&[1], &[0], &[0], &[0]]),
            (&[2, 0, 2, 1], &[&[1], &[0], &[1], &[1]]),
            (&[2, 1, 0, 1], &[&[1], &[1], &[0], &[0]]),
            (&[2, 1, 1, 1], &[&[1], &[1], &[1], &[1]]),
            (&[2, 1, 2, 1], &[&[1], &[1], &[1], &[1]]),
            (&[2, 2, 0, 1], &[&[1], &[1], &[0], &[0]]),
            (&[2, 2, 1, 1], &[&[1], &[1], &[1], &[1]]),
            (&[2, 2, 2, 1], &[&[1], &[1], &[1], &[1]]),
        ],
    },
    Case {
        about: "a speed alarm from 6 on",
        chart: ALARM_FROM_6,
        bound: 2,
        states: 2,
        classes: &[&[6], &[8]],
        cover: &[&[], &[1]],
        marks: &[&[0]],
        tests: &[
            (&[0, 0], &[&[0], &[0]]),
            (&[1, 0, 0], &[&[1], &[1], &[1]]),
            (&[1, 1, 0], &[&[1], &[1], &[1]]),
        ],
    },
    Case {
        about: "one state",
        chart: ONE,
        bound: 1,
        states: 1,
        classes: &[&[-2]],
        cover: &[&[]],
        marks: &[&[]],
        tests: &[(&[0], &[&[5]])],
    },
    Case {
        about: "a speed monitor",
        chart: MONITOR,
        bound: 3,
        states: 3,
        classes: &[&[0, 0], &[1, 1], &[1, 0], &[51, 0], &[101, 0]],
        cover: &[&[], &[3], &[4]],
        marks: &[&[2]],
        tests: &[
            (&[0, 2], &[&[0, 0], &[0, 0]]),
            (&[1, 2], &[&[0, 0], &[0, 0]]),
            (&[2, 2], &[&[0, 0], &[0, 0]]),
            (&[3, 0, 2], &[&[1, 0], &[0, 0], &[0, 0]]),
            (&[3, 1, 2], &[&[1, 0], &[0, 0], &[0, 0]]),
            (&[3, 2, 2], &[&[1, 0], &[1, 0], &[1, 0]]),
            (&[3, 3, 2], &[&[1, 0], &[1, 0], &[1, 0]]),
            (&[3, 4, 2], &[&[1, 0], &[1, 1], &[1, 1]]),
            (&[4, 0, 2], &[&[1, 1], &[0, 0], &[0, 0]]),
            (&[4, 1, 2], &[&[1, 1], &[1, 1], &[1, 1]]),
            (&[4, 2, 2], &[&[1, 1], &[1, 1], &[1, 1]]),
            (&[4, 3, 2], &[&[1, 1], &[1, 1], &[1, 1]]),
            (&[4, 4, 2], &[&[1, 1], &[1, 1], &[1, 1]]),
        ],
    },
    Case {
        about: "shallow history",
        chart: HISTORY,
        bound: 4,
        states: 4,
        classes: &[&[0], &[1], &[2]],
        cover: &[&[], &[1], &[2], &[1, 2]],
        marks: &[&[0], &[1]],
        tests: &[
            (&[0, 0], &[&[1], &[1]]),
            (&[0, 1], &[&[1], &[2]]),
            (&[1, 0, 0], &[&[2], &[2], &[2]]),
            (&[1, 0, 1], &[&[2], &[2], &[2]]),
            (&[1, 1, 0], &[&[2], &[2], &[2]]),
            (&[1, 1, 1], &[&[2], &[2], &[2]]),
            (&[1, 2, 0, 0], &[&[2], &[9], &[9], &[9]]),
            (&[1, 2, 0, 1], &[&[2], &[9], &[9], &[2]]),
            (&[1, 2, 1, 0], &[&[2], &[9], &[2], &[2]]),
            (&[1, 2, 1, 1], &[&[2], &[9], &[2], &[2]]),
            (&[1, 2, 2, 0], &[&[2], &[9], &[1], &[1]]),
            (&[1, 2, 2, 1], &[&[2], &[9], &[1], &[2]]),
            (&[2, 0, 0], &[&[9], &[9], &[9]]),
            (&[2, 0, 1], &[&[9], &[9], &[1]]),
            (&[2, 1, 0], &[&[9], &[1], &[1]]),
            (&[2, 1, 1], &[&[9], &[1], &[2]]),
            (&[2, 2, 0], &[&[9], &[1], &[1]]),
            (&[2, 2, 1], &[&[9], &[1], &[2]]),
        ],
    },
    Case {
        about: "as many configurations as are allowed",
        chart: RING_OF_4,
        bound: 1,
        states: 1,
        classes: &[&[0], &[1]],
        cover: &[&[]],
        marks: &[&[]],
        tests: &[(&[0], &[&[0]]), (&[1], &[&[0]])],
    },
];

/// The suite of a chart without cuts, or why there is none.
pub fn suite_of(
    rt: &impl Abort,
    alloc: Global,
    chart: &str,
    bound: usize,
) -> Result<Result<Suite, MakeError>, AllocError>
    requires { bound ≤ 1024 }
{
    let plan = plan_of(rt, alloc, chart)?;
    let partition = classes_of(rt, alloc, plan.chart())?;
    configurations_go_on();
    members_act_alike();
    Ok(make_suite(alloc, &plan, &partition, bound))
}

/// The suite of a chart without cuts.
pub fn made(rt: &impl Abort, alloc: Global, chart: &str, bound: usize) -> Result<Suite, AllocError>
    requires { bound ≤ 1024 }
{
    match suite_of(rt, alloc, chart, bound)? {
        Ok(suite) => Ok(suite),
        Err(error) => panic!(rt; "{error:?}"),
    }
}

/// Whether the scratch has these letters, of which so many were put into it.
fn has_letters(scratch: &Scratch, count: usize, want: &[u16]) -> bool
    requires { count ≤ length scratch.now.letters }
{
    if count != want.len() {
        return false;
    }
    for (place, letter) in want.iter().enumerate() {
        if scratch.letter(place) != *letter {
            return false;
        }
    }
    true
}

fn has_cover(suite: &Suite, scratch: &mut Scratch, want: &[Word]) -> bool
    requires { IsMadeFor suite.now scratch.old }
    ensures { IsMadeFor suite.now scratch.new }
{
    if suite.covers() != want.len() {
        return false;
    }
    for (index, word) in want.iter().enumerate() {
        let count = suite.cover_letters(index, scratch);
        if !has_letters(scratch, count, *word) {
            return false;
        }
    }
    true
}

fn has_marks(suite: &Suite, scratch: &mut Scratch, want: &[Word]) -> bool
    requires { IsMadeFor suite.now scratch.old }
    ensures { IsMadeFor suite.now scratch.new }
{
    if suite.marks() != want.len() {
        return false;
    }
    for (index, word) in want.iter().enumerate() {
        let count = suite.mark_letters(index, scratch);
        if !has_letters(scratch, count, *word) {
            return false;
        }
    }
    true
}

/// Whether a test has these letters and replies.
pub fn has_test(
    suite: &Suite,
    test: usize,
    scratch: &mut Scratch,
    letters: &[u16],
    replies: &[&[i64]],
) -> bool
    requires test { test < length suite.now.tests }
    requires made { IsMadeFor suite.now scratch.old }
    ensures { IsMadeFor suite.now scratch.new }
{
    let count = suite.test_letters(test, scratch);
    if !has_letters(scratch, count, letters) || count != replies.len() {
        return false;
    }
    for step in 0..count {
        if suite.expected(test, step).as_slice() != replies[step] {
            return false;
        }
    }
    true
}

fn has_tests(suite: &Suite, scratch: &mut Scratch, want: &[Test]) -> bool
    requires { IsMadeFor suite.now scratch.old }
{
    if suite.tests() != want.len() {
        return false;
    }
    for (test, expected) in want.iter().enumerate() {
        if !has_test(suite, test, scratch, expected.0, expected.1) {
            return false;
        }
    }
    true
}

fn has_classes(suite: &Suite, want: &[&[i64]]) -> bool {
    let classes = suite.classes();
    if classes.len() != want.len() {
        return false;
    }
    for (class, witness) in classes.iter().zip(want) {
        if class.as_slice() != *witness {
            return false;
        }
    }
    true
}

/// Compares all parts of a suite.
fn check(rt: &impl Abort, alloc: Global, case: &Case, suite: &Suite) -> Result<(), AllocError> {
    let mut scratch = Scratch::for_suite(alloc, suite)?;
    assert!(rt;
        suite.bound() == case.bound && suite.states() == case.states,
        "{}",
        case.about
    );
    assert!(rt; has_classes(suite, case.classes), "{}", case.about);
    assert!(rt;
        has_cover(suite, &mut scratch, case.cover),
        "{}",
        case.about
    );
    assert!(rt;
        has_marks(suite, &mut scratch, case.marks),
        "{}",
        case.about
    );
    assert!(rt;
        has_tests(suite, &mut scratch, case.tests),
        "{}",
        case.about
    );
    Ok(())
}

#[test]
fn suites_of_charts(rt: HostRuntime) -> Result<(), Fail> {
    for case in &CASES {
        assert!(rt; case.bound <= 1024);
        let suite = made(&rt, rt.alloc(), case.chart, case.bound)?;
        check(&rt, rt.alloc(), case, &suite)?;
    }
    Ok(())
}
