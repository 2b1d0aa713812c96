//! Suites: what is printed, and what is refused.
use super::*;

/// The suite of the chart with two states, for the bound 2.
const SUITE: &str =
    "suite 1\ninput v 0 10\noutput alarm\nbound 2\nstates 2\nclass 0\nclass 6\nclass 8\ncover\ncover 3\nmark 2\ntest 1 2\n0 / 0\n6 / 0\ntest 2 2\n6 / 0\n6 / 0\ntest 3 1 2\n8 / 1\n0 / 0\n6 / 0\ntest 3 2 2\n8 / 1\n6 / 1\n6 / 1\ntest 3 3 2\n8 / 1\n8 / 1\n6 / 1\nend 5\n";

/// The suite of the chart whose input is assumed to be at least 6.
const SUITE_ASSUMING: &str =
    "suite 1\ninput v 0 10\noutput alarm\nbound 2\nstates 2\nclass 6\nclass 8\ncover\ncover 2\nmark 1\ntest 1 1\n6 / 0\n6 / 0\ntest 2 1 1\n8 / 1\n6 / 1\n6 / 1\ntest 2 2 1\n8 / 1\n8 / 1\n6 / 1\nend 3\n";

const ONE: &str = "chart 1\ninput v -2 3\noutput o 5\nstate S start\n";

/// More configurations than the limit: 5 states with 256 values each.
const RING: &str =
    "chart 1\ninput x 0 1\noutput o 0\nmemory n 0 255 0\nstate S0 start\nstate S1\nstate S2\nstate S3\nstate S4\non S0 when x = 1 go S1\non S0 do n = n + 1\non S1 when x = 1 go S2\non S1 do n = n + 1\non S2 when x = 1 go S3\non S2 do n = n + 1\non S3 when x = 1 go S4\non S3 do n = n + 1\non S4 when x = 1 go S0\non S4 do n = n + 1\n";

/// As many configurations as there may be, of one state up to replies.
const RING_OF_4: &str =
    "chart 1\ninput x 0 1\noutput o 0\nmemory n 0 255 0\nstate S0 start\nstate S1\nstate S2\nstate S3\non S0 when x = 1 go S1\non S0 do n = n + 1\non S1 when x = 1 go S2\non S1 do n = n + 1\non S2 when x = 1 go S3\non S2 do n = n + 1\non S3 when x = 1 go S0\non S3 do n = n + 1\n";

/// Charts and cuts by their names.
const CHARTS: [(&str, &str); 5] = [
    ("RING4", RING_OF_4),
    ("A", CHART),
    ("A2", CHART_ASSUMING),
    ("ONE", ONE),
    ("C", "cuts 1\ncut v >= 7\n"),
];

/// The words; the status; what is put to `out` and to `err`.
const ANSWERS: [(&str, u8, &str, &str); 10] = [
    (
        "suite RING4 1 none",
        0,
        "suite 1\ninput x 0 1\noutput o\nbound 1\nstates 1\nclass 0\nclass 1\ncover\nmark\ntest 1\n0 / 0\ntest 2\n1 / 0\nend 2\n",
        "",
    ),
    ("suite ONE 1025 none", 2, "", "classtest: no such command\n"),
    ("suite A 2 none", 0, SUITE, ""),
    ("suite A 0002 none", 0, SUITE, ""),
    ("suite A2 2 none", 0, SUITE_ASSUMING, ""),
    (
        "suite ONE 1 none",
        0,
        "suite 1\ninput v -2 3\noutput o\nbound 1\nstates 1\nclass -2\ncover\nmark\ntest 1\n-2 / 5\nend 1\n",
        "",
    ),
    ("suite A 1 none", 4, "", "classtest: bound 1 below 2\n"),
    ("suite A 01 C", 4, "", "classtest: bound 1 below 2\n"),
    ("suite A 13 none", 4, "", "classtest: limit steps\n"),
    ("suite A 1 B", 5, "", "classtest: B: read fault\n"),
];

#[test]
fn suites_and_refusals(rt: HostRuntime) -> Result<(), Fail> {
    for (line, status, out, err) in ANSWERS {
        let expected = Expected { status, out, err };
        check(&rt, rt.alloc(), line, &CHARTS, smooth(4_096), expected)?;
        check(&rt, rt.alloc(), line, &CHARTS, smooth(1), expected)?;
    }
    Ok(())
}

/// A suite by its words: lines that its text has, the last of them at its end.
const PARTS: [(&str, &[&str]); 3] = [
    (
        "suite A 3 none",
        &["\nmark 2\ntest 1 1 2\n", "\ntest 3 3 3 2\n", "\nend 15\n"],
    ),
    (
        "suite MON 3 none",
        &[
            "\nstates 3\n",
            "\ncover\ncover 4\ncover 5\nmark 3\ntest 1 3\n",
            "\ntest 5 5 3\n",
            "\nend 13\n",
        ],
    ),
    (
        "suite HIST 4 none",
        &[
            "\nstates 4\nclass 0\nclass 1\nclass 2\ncover\ncover 2\ncover 3\ncover 2 3\nmark 1\nmark 2\ntest 1 1\n",
            "\ntest 3 3 2\n",
            "\nend 18\n",
        ],
    ),
];

#[test]
fn the_greatest_bound(rt: HostRuntime) -> Result<(), Fail> {
    let got = called_with_room(rt.alloc(), "suite ONE 1024 none", &CHARTS, 65_536)?;
    assert_eq!(rt; got.status, 0);
    assert!(rt; got.out.as_slice().ends_with(b"\nend 1\n"));
    assert_eq!(rt; lines_with(got.out.as_slice(), b"test "), 1);
    assert_eq!(rt; lines_with(got.out.as_slice(), b"-2 / 5"), 1_024);
    Ok(())
}

#[test]
fn parts_of_suites(rt: HostRuntime) -> Result<(), Fail> {
    for (line, parts) in PARTS {
        let got = called(rt.alloc(), line, &TEXTS, smooth(4_096))?;
        assert_eq!(rt; got.status, 0, "{line}");
        let text = String::from_utf8_lossy(rt.alloc(), got.out.as_slice())?;
        for part in parts {
            assert!(rt; text.contains(*part), "{line}: {part}");
        }
    }
    Ok(())
}

#[test]
fn too_many_configurations(rt: HostRuntime) -> Result<(), Fail> {
    let texts = [("RING", RING)];
    let err = "classtest: limit configurations\n";
    for line in ["suite RING 1024 none", "suite RING 1 none"] {
        check_no_output(&rt, rt.alloc(), line, &texts, 4, err)?;
    }
    Ok(())
}

/// The first so many lines.
fn lines(alloc: Global, text: &str, count: usize) -> Result<String, AllocError> {
    let mut front = String::new(alloc);
    for line in text.split_inclusive('\n').take(count) {
        front.push_str(line)?;
    }
    Ok(front)
}

#[test]
fn failing_puts_of_a_suite(rt: HostRuntime) -> Result<(), Fail> {
    for number in 1..32u64 {
        let world = World {
            chunk: 4_096,
            shelf: 0,
            out: number,
            err: 0,
        };
        let front = lines(rt.alloc(), SUITE, number as usize - 1)?;
        let (status, err) = if number <= 30 {
            (5, "classtest: write fault\n")
        } else {
            (0, "")
        };
        let out = front.as_str();
        let expected = Expected { status, out, err };
        check(&rt, rt.alloc(), "suite A 2 none", &CHARTS, world, expected)?;
    }
    Ok(())
}

#[test]
fn failing_calls_of_a_suite(rt: HostRuntime) -> Result<(), Fail> {
    // The second call of the shelf reads the chart, and the fifth the cuts.
    for (number, err) in [
        (2u64, "classtest: A: read fault\n"),
        (5, "classtest: C: read fault\n"),
    ] {
        assert!(rt; number < 10);
        let world = World {
            chunk: 4_096,
            shelf: number,
            out: 0,
            err: 0,
        };
        let (status, out) = (5, "");
        let expected = Expected { status, out, err };
        check(&rt, rt.alloc(), "suite A 2 C", &CHARTS, world, expected)?;
    }
    Ok(())
}
