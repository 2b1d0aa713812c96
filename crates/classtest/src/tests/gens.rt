//! Charts of numbers.
use super::*;

const SMALLEST: &str =
    "number 0\nclasses 3\nconfigurations 2\nstates 2\nbound 2\ntests 5\nsteps 13\npass\n";

/// The chart of 38 leaves a state earlier than that of 0.
const WIDER: &str =
    "number 38\nclasses 3\nconfigurations 2\nstates 2\nbound 2\ntests 5\nsteps 13\nfail test 4 step 2\nin 10\nin 8\nexpected 1\ngot 0\n";

/// The status is 0 whatever the verdict is.
const fn summed(line: &'static str, out: &'static str) -> Row {
    Row {
        line,
        status: 0,
        out,
        err: "",
    }
}

#[test]
fn summaries(rt: HostRuntime) -> Result<(), Fail> {
    let rows = [
        summed("gen 0", SMALLEST),
        summed("gen 0000000000", SMALLEST),
        summed(
            "gen 1",
            "number 1\nclasses 5\nconfigurations 3\nstates 3\nbound 3\ntests 26\nsteps 80\npass\n",
        ),
        summed(
            "gen 37",
            "number 37\nclasses 77\nconfigurations 39\nstates 39\nbound 39\ntests 5930\nsteps 124568\npass\n",
        ),
        summed("gen 38", WIDER),
        refused("gen", 2, "classtest: no such command\n"),
        refused("gen -", 2, "classtest: no such command\n"),
        refused("gen 4294967296", 2, "classtest: no such command\n"),
        refused("gen 0 0", 2, "classtest: no such command\n"),
    ];
    Ok(check_rows(&rt, rt.alloc(), &TEXTS, &rows)?)
}

/// No text is read, so no call of the shelf can fail; each put of a byte fails in its turn.
#[test]
fn failing_puts(rt: HostRuntime) -> Result<(), Fail> {
    let unread = World {
        chunk: 4_096,
        shelf: 1,
        out: 0,
        err: 0,
    };
    let plain = called(rt.alloc(), "gen 38", &TEXTS, unread)?;
    assert_eq!(rt; plain.status, 0);
    assert_eq!(rt; plain.out.as_slice(), WIDER.as_bytes());
    for (before, _) in plain.out.as_slice().iter().enumerate().take(400) {
        let world = World {
            chunk: 1,
            shelf: 0,
            out: (before as u64).saturating_add(1).min(1_000),
            err: 0,
        };
        let got = called(rt.alloc(), "gen 38", &TEXTS, world)?;
        assert_eq!(rt; got.status, 5, "{before}");
        assert!(rt; got.out.len() == before, "{before}");
        assert!(rt;
            plain.out.as_slice().starts_with(got.out.as_slice()),
            "{before}"
        );
        assert_eq!(rt; got.err.as_slice(), b"classtest: write fault\n".as_slice());
    }
    Ok(())
}
