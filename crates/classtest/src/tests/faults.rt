//! Each call of the shelf and of the sinks fails in its turn, for every command that reads texts.
ghost use Rattle.std.specs.Prelude.{◌<◌};

use super::replays::SUITE;
use super::runs::{CHART_7, TABLE};
use super::*;

/// Texts by their names.
const HELD: [(&str, &str); 7] = [
    ("A", CHART),
    ("W", "3\n8\n6\n5\n"),
    ("C", "cuts 1\ncut v >= 7\n"),
    ("A7", CHART_7),
    ("T9", TABLE),
    ("S", SUITE),
    ("X", "chart 1\ninput v 5 4\n"),
];

/// A call of the program, the texts that it reads, in their turn, and its status.
#[derive(Clone, Copy)]
struct Call {
    line: &'static str,
    names: &'static str,
    status: u8,
}

/// Calls that read one text after another, for every command.
const CALLS: [Call; 9] = [
    Call {
        line: "play A W",
        names: "A W",
        status: 0,
    },
    Call {
        line: "classes A C",
        names: "A C",
        status: 0,
    },
    Call {
        line: "classes A none",
        names: "A",
        status: 0,
    },
    Call {
        line: "suite A 2 C",
        names: "A C",
        status: 0,
    },
    Call {
        line: "run A 2 C A7",
        names: "A C A7",
        status: 1,
    },
    Call {
        line: "run A 2 none T9",
        names: "A T9",
        status: 0,
    },
    Call {
        line: "json A 2 C A7",
        names: "A C A7",
        status: 1,
    },
    Call {
        line: "replay S A",
        names: "S A",
        status: 0,
    },
    Call {
        line: "replay S T9",
        names: "S T9",
        status: 0,
    },
];

/// What a call does where its shelf fails at this call: whether it ends as where none fails. Otherwise the text that is told
/// stands at this place of the names or at the next, whose place is given.
fn with_failing_shelf(
    rt: &impl Abort,
    alloc: Global,
    call: Call,
    world: World,
    place: usize,
) -> Result<Option<usize>, AllocError> {
    let got = called(alloc, call.line, &HELD, world)?;
    if got.status == call.status {
        return Ok(None);
    }
    assert_eq!(rt; got.status, 5, "{}", call.line);
    assert!(rt; got.out.is_empty(), "{}", call.line);
    for (number, name) in call.names.split(' ').enumerate() {
        let said = format!(in alloc; "classtest: {name}: read fault\n")?;
        if got.err.as_slice() == said.as_bytes() {
            assert!(rt;
                place <= number && number <= place.saturating_add(1),
                "{}",
                call.line
            );
            return Ok(Some(number));
        }
    }
    assert!(rt; false, "{}: {}", call.line, got.status);
    Ok(None)
}

#[test]
fn calls_of_the_shelf_fail_in_their_turn(rt: HostRuntime) -> Result<(), Fail> {
    for call in CALLS {
        let mut place = 0;
        let mut failed = 0usize;
        for shelf in 1..40u64 {
            let world = World {
                chunk: 4_096,
                shelf,
                out: 0,
                err: 0,
            };
            match with_failing_shelf(&rt, rt.alloc(), call, world, place)? {
                Some(number) => place = number,
                None => break,
            }
            failed = failed.saturating_add(1);
        }
        // At the least a text is taken up and read to its end; the last text's calls fail too.
        let names = call.names.split(' ').count();
        assert!(rt;
            failed >= names.saturating_mul(2) && failed < 39,
            "{}: {failed}",
            call.line
        );
        assert_eq!(rt; place.saturating_add(1), names, "{}", call.line);
    }
    Ok(())
}

/// That two calls of the program ended alike.
fn check_alike(rt: &impl Abort, line: &str, one: &Outcome, other: &Outcome) {
    assert_eq!(rt; one.status, other.status, "{line}");
    assert_eq!(rt; one.out.as_slice(), other.out.as_slice(), "{line}");
    assert_eq!(rt; one.err.as_slice(), other.err.as_slice(), "{line}");
}

#[test]
fn short_pulls_and_puts_change_nothing(rt: HostRuntime) -> Result<(), Fail> {
    for call in CALLS {
        let line = call.line;
        let plain = called(rt.alloc(), line, &HELD, smooth(4_096))?;
        assert_eq!(rt; plain.status, call.status, "{line}");
        assert!(rt; !plain.out.is_empty() && plain.err.is_empty(), "{line}");
        let short = called(rt.alloc(), line, &HELD, smooth(1))?;
        check_alike(&rt, line, &plain, &short);
    }
    Ok(())
}

/// The call's k-th put of one byte fails, or the k-th byte of a longer text: status 5, and the bytes before it.
#[test]
fn puts_of_single_bytes_fail_in_their_turn(rt: HostRuntime) -> Result<(), Fail> {
    for call in CALLS {
        let plain = called(rt.alloc(), call.line, &HELD, smooth(4_096))?;
        for (before, _) in plain.out.as_slice().iter().enumerate().take(400) {
            let world = World {
                chunk: 1,
                shelf: 0,
                out: (before as u64).saturating_add(1).min(1_000),
                err: 0,
            };
            let got = called(rt.alloc(), call.line, &HELD, world)?;
            assert_eq!(rt; got.status, 5, "{}: {before}", call.line);
            assert!(rt; got.out.len() == before, "{}: {before}", call.line);
            assert!(rt;
                plain.out.as_slice().starts_with(got.out.as_slice()),
                "{}: {before}",
                call.line
            );
            assert_eq!(rt; got.err.as_slice(), b"classtest: write fault\n".as_slice());
        }
    }
    Ok(())
}

/// Two faults at once: the status is that of the first, and a line that cannot be put to `err` is not put.
#[test]
fn faults_of_two_kinds(rt: HostRuntime) -> Result<(), Fail> {
    for call in CALLS {
        for (shelf, out) in [(1u64, 0u64), (0, 1), (1, 1)] {
            assert!(rt; shelf < 10 && out < 10);
            let world = World {
                chunk: 4_096,
                shelf,
                out,
                err: 1,
            };
            let got = called(rt.alloc(), call.line, &HELD, world)?;
            assert_eq!(rt; got.status, 5, "{}", call.line);
            assert!(rt; got.out.is_empty() && got.err.is_empty(), "{}", call.line);
        }
    }
    // A refused text whose line cannot be put, and two refused texts.
    let world = World {
        chunk: 4_096,
        shelf: 0,
        out: 0,
        err: 1,
    };
    let (out, err) = ("", "");
    let expected = Expected {
        status: 3,
        out,
        err,
    };
    check(&rt, rt.alloc(), "play X W", &HELD, world, expected)?;
    check_no_output(
        &rt,
        rt.alloc(),
        "run X 2 B A7",
        &HELD,
        3,
        "classtest: X:2: range\n",
    )?;
    Ok(())
}

/// The line at which each proper prefix of a suite's text ends.
#[test]
fn truncated_suites(rt: HostRuntime) -> Result<(), Fail> {
    for (end, _) in SUITE.bytes().enumerate() {
        let front = SUITE.get(..end).unwrap_or("");
        let lines = front.bytes().filter(|byte| *byte == b'\n').count();
        let err = format!(in rt.alloc(); "classtest: S:{}: end\n", lines.saturating_add(1))?;
        let texts = [("S", front), ("A", CHART)];
        check_no_output(&rt, rt.alloc(), "replay S A", &texts, 3, err.as_str())?;
    }
    Ok(())
}
