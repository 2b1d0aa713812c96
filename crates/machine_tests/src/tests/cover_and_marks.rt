//! Covers and marks that were worked out by hand.
use super::*;

/// A reduced machine, its cover and its marks.
#[derive(Drop)]
struct Case {
    about: &'static str,
    letters: usize,
    rows: &'static [Row],
    cover: &'static [Word],
    marks: &'static [Word],
}

const CASES: [Case; 10] = [
    Case {
        about: "one state",
        letters: 1,
        rows: &ONE,
        cover: &[&[]],
        marks: &[&[]],
    },
    Case {
        about: "a speed alarm",
        letters: 3,
        rows: &ALARM,
        cover: &[&[], &[2]],
        marks: &[&[1]],
    },
    Case {
        about: "a speed alarm from 6 on",
        letters: 2,
        rows: &ALARM_FROM_6,
        cover: &[&[], &[1]],
        marks: &[&[0]],
    },
    Case {
        about: "a speed monitor",
        letters: 5,
        rows: &MONITOR,
        cover: &[&[], &[3], &[4]],
        marks: &[&[2]],
    },
    Case {
        about: "shallow history",
        letters: 3,
        rows: &HISTORY,
        cover: &[&[], &[1], &[2], &[1, 2]],
        marks: &[&[0], &[1]],
    },
    Case {
        about: "the last pair needs a longer word",
        letters: 2,
        rows: &[(1, 0), (2, 0), (1, 1), (0, 0), (1, 1), (2, 0)],
        cover: &[&[], &[0], &[1]],
        marks: &[&[0], &[1, 0]],
    },
    Case {
        about: "the first pair needs a longer word",
        letters: 2,
        rows: &[
            (1, 0),
            (3, 0),
            (2, 0),
            (0, 0),
            (2, 1),
            (0, 0),
            (1, 0),
            (0, 1),
        ],
        cover: &[&[], &[0], &[1], &[0, 0]],
        marks: &[&[0, 0], &[1]],
    },
    Case {
        about: "the first pair is not the one with the shortest word",
        letters: 1,
        rows: &[(1, 0), (2, 0), (0, 1)],
        cover: &[&[], &[0], &[0, 0]],
        marks: &[&[0, 0]],
    },
    Case {
        about: "the states stand in another order than that of the search",
        letters: 2,
        rows: &[(0, 0), (2, 0), (1, 2), (1, 2), (1, 1), (2, 1)],
        cover: &[&[], &[1], &[1, 0]],
        marks: &[&[0]],
    },
    Case {
        about: "a state is first reached by the greater letter",
        letters: 2,
        rows: &[(1, 0), (1, 0), (1, 0), (2, 0), (2, 1), (0, 0)],
        cover: &[&[], &[0], &[0, 1]],
        marks: &[&[1, 0], &[0]],
    },
];

#[test]
fn covers_and_marks(rt: HostRuntime) -> Result<(), Fail> {
    let alloc = rt.alloc();
    for case in CASES {
        let fsm = machine(&rt, alloc, case.letters, case.rows)?;
        let least = reduced(&rt, alloc, &fsm)?;
        assert_eq!(rt; least.states(), fsm.states(), "{}", case.about);
        let found = words_of(alloc, &least)?;
        check_words(&rt, case.about, found.cover.as_slice(), case.cover);
        check_words(&rt, case.about, found.marks.as_slice(), case.marks);
    }
    Ok(())
}

#[test]
fn a_ring_that_differs_late(rt: HostRuntime) -> Result<(), Fail> {
    let alloc = rt.alloc();
    let mut rows = Vec::new(alloc);
    for state in 1..40 {
        rows.push((state, 0))?;
    }
    rows.push((0, 1))?;
    let fsm = machine(&rt, alloc, 1, rows.as_slice())?;
    let ring = reduced(&rt, alloc, &fsm)?;
    let found = words_of(alloc, &ring)?;
    assert_eq!(rt; found.cover.len(), 40);
    for (place, word) in found.cover.iter().enumerate() {
        assert_eq!(rt; word.len(), place);
    }
    assert_eq!(rt; found.marks.len(), 1);
    assert_eq!(rt; found.marks[0].len(), 39);
    Ok(())
}
