//! Replays of suites that are read.
use super::runs::{CHART_7, TABLE, WIDE_TABLE};
use super::*;

/// The lines of the chart's suite before its tests, and its tests.
const FRONT: &str =
    "suite 1\ninput v 0 10\noutput alarm\nbound 2\nstates 2\nclass 0\nclass 6\nclass 8\ncover\ncover 3\nmark 2\n";

/// The chart's suite for two states.
pub(crate) const SUITE: &str =
    "suite 1\ninput v 0 10\noutput alarm\nbound 2\nstates 2\nclass 0\nclass 6\nclass 8\ncover\ncover 3\nmark 2\ntest 1 2\n0 / 0\n6 / 0\ntest 2 2\n6 / 0\n6 / 0\ntest 3 1 2\n8 / 1\n0 / 0\n6 / 0\ntest 3 2 2\n8 / 1\n6 / 1\n6 / 1\ntest 3 3 2\n8 / 1\n8 / 1\n6 / 1\nend 5\n";

/// Without its last line.
const ENDLESS: &str =
    "suite 1\ninput v 0 10\noutput alarm\nbound 2\nstates 2\nclass 0\nclass 6\nclass 8\ncover\ncover 3\nmark 2\ntest 1 2\n0 / 0\n6 / 0\ntest 2 2\n6 / 0\n6 / 0\ntest 3 1 2\n8 / 1\n0 / 0\n6 / 0\ntest 3 2 2\n8 / 1\n6 / 1\n6 / 1\ntest 3 3 2\n8 / 1\n8 / 1\n6 / 1\n";

/// With another reply in its line 23.
const CONFLICTING: &str =
    "suite 1\ninput v 0 10\noutput alarm\nbound 2\nstates 2\nclass 0\nclass 6\nclass 8\ncover\ncover 3\nmark 2\ntest 1 2\n0 / 0\n6 / 0\ntest 2 2\n6 / 0\n6 / 0\ntest 3 1 2\n8 / 1\n0 / 0\n6 / 0\ntest 3 2 2\n8 / 0\n6 / 1\n6 / 1\ntest 3 3 2\n8 / 1\n8 / 1\n6 / 1\nend 5\n";

/// The tests in another order, and one of them twice.
const TWICE: &str =
    "suite 1\ninput v 0 10\noutput alarm\nbound 2\nstates 2\nclass 0\nclass 6\nclass 8\ncover\ncover 3\nmark 2\ntest 3 2 2\n8 / 1\n6 / 1\n6 / 1\ntest 1 2\n0 / 0\n6 / 0\ntest 3 2 2\n8 / 1\n6 / 1\n6 / 1\nend 3\n";

/// One test, which tells the table from the chart at its third step.
const LONGER: &str =
    "suite 1\ninput v 0 10\noutput alarm\nbound 3\nstates 2\nclass 0\nclass 6\nclass 8\ncover\ncover 3\nmark 2\ntest 1\n0 / 0\ntest 3 3 3 2\n8 / 1\n8 / 1\n8 / 1\n6 / 1\nend 2\n";

/// Texts by their names.
const SUITES: [(&str, &str); 17] = [
    ("S", SUITE),
    ("-", SUITE),
    ("endless", ENDLESS),
    ("conflict", CONFLICTING),
    ("twice", TWICE),
    ("longer", LONGER),
    ("front", FRONT),
    ("spaced", "suite  1\n"),
    ("zero", "suite 01\n"),
    ("wide", "suite 1\ninput v 0 1000001\n"),
    ("box", "suite 1\ninput v 5 4\n"),
    ("broken", "suite 1\ninput v 0 10"),
    ("A", CHART),
    ("A7", CHART_7),
    ("T9", TABLE),
    ("T", WIDE_TABLE),
    (
        "V",
        "chart 1\ninput v 0 10\noutput alarm 0\nstate S start\non S when v >=\n",
    ),
];

#[test]
fn replays(rt: HostRuntime) -> Result<(), Fail> {
    let rows = [
        pass("replay S A7"),
        pass("replay S A"),
        pass("replay S T9"),
        pass("replay - A"),
        pass("replay twice A7"),
        pass("replay longer A"),
        fail(
            "replay longer T9",
            "fail test 2 step 3\nin 8\nin 8\nin 8\nexpected 1\ngot 0\n",
        ),
    ];
    check_rows(&rt, rt.alloc(), &SUITES, &rows)?;
    Ok(())
}

#[test]
fn causes_of_a_replay_in_their_order(rt: HostRuntime) -> Result<(), Fail> {
    let rows = [
        refused("replay S", 2, "classtest: no such command\n"),
        refused("replay - -", 2, "classtest: no such command\n"),
        refused("replay none V", 5, "classtest: none: read fault\n"),
        refused("replay endless V", 3, "classtest: endless:30: end\n"),
        refused("replay conflict V", 3, "classtest: conflict:23: conflict\n"),
        refused("replay front V", 3, "classtest: front:12: end\n"),
        refused("replay spaced V", 3, "classtest: spaced:1: form\n"),
        refused("replay zero V", 3, "classtest: zero:1: form\n"),
        refused("replay A V", 3, "classtest: A:1: form\n"),
        refused("replay wide V", 4, "classtest: wide:2: limit literal\n"),
        refused("replay box V", 3, "classtest: box:2: fact\n"),
        refused("replay broken V", 3, "classtest: broken:2: end\n"),
        refused("replay S none", 5, "classtest: none: read fault\n"),
        refused("replay S V", 3, "classtest: V:5: form\n"),
        refused("replay S T", 3, "classtest: T: unfit input 1\n"),
    ];
    check_rows(&rt, rt.alloc(), &SUITES, &rows)?;
    Ok(())
}

#[test]
fn failing_calls_of_a_replay(rt: HostRuntime) -> Result<(), Fail> {
    // Which call of the shelf and which put of `out` fails, what is put, and what is said.
    let calls = [
        (1u64, 1u64, "", "classtest: longer: read fault\n"),
        (2, 1, "", "classtest: longer: read fault\n"),
        (4, 1, "", "classtest: T9: read fault\n"),
        (5, 1, "", "classtest: T9: read fault\n"),
        (0, 1, "", "classtest: write fault\n"),
        (0, 2, "fail test 2 step 3\n", "classtest: write fault\n"),
    ];
    for (shelf, number, out, err) in calls {
        assert!(rt; shelf < 10 && number < 10);
        let world = World {
            chunk: 4_096,
            shelf,
            out: number,
            err: 0,
        };
        let status = 5;
        let expected = Expected { status, out, err };
        check(
            &rt,
            rt.alloc(),
            "replay longer T9",
            &SUITES,
            world,
            expected,
        )?;
    }
    Ok(())
}
