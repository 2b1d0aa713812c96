//! Classes: what is printed, and what is refused.
use super::*;

const ONE: &str = "chart 1\ninput v -2 3\noutput o 5\nstate S start\n";

const WIDE: &str =
    "chart 1\ninput v -1000000 1000000\noutput o 0\nstate S start\non S when v >= 1000000 do o = 1\n";

const SUMS: &str =
    "chart 1\ninput a -1000000 1000000\ninput b -1000000 1000000\ninput c -1000000 1000000\noutput o 0\nstate S start\non S when a + b - c >= 1 do o = 1\non S when a + b - c >= 0 do o = 2\n";

/// A large coefficient in an assumption.
const STEEP: &str = "chart 2\ninput v 0 10\nassume 1000000*v + v >= 1\noutput o 0\nstate S start\n";

/// Six inputs, and no guard.
const SIX: &str =
    "chart 1\ninput a 0 9\ninput b 0 9\ninput c 0 9\ninput d 0 9\ninput e 0 9\ninput f 0 9\noutput o 0\nstate S start\n";

/// Texts by their names, besides those of all tests.
const MORE: [(&str, &str); 10] = [
    ("A", CHART),
    ("A2", CHART_ASSUMING),
    ("ONE", ONE),
    ("WIDE", WIDE),
    ("SUMS", SUMS),
    ("STEEP", STEEP),
    ("C", "cuts 1\ncut v >= 7\n"),
    ("C11", "cuts 1\ncut v >= 11\ncut v >= 8\n"),
    ("Cw", "cuts 1\ncut w >= 7\n"),
    ("none", "cuts 1\ncut v >= 3\n"),
];

/// The words; the status; what is put to `out` and to `err`.
const ANSWERS: [(&str, u8, &str, &str); 12] = [
    (
        "classes A none",
        0,
        "atom 1 -8\natom 1 -6\nclass 00 0\nclass 01 6\nclass 11 8\n",
        "",
    ),
    (
        "classes A C",
        0,
        "atom 1 -8\natom 1 -6\natom 1 -7\nclass 000 0\nclass 010 6\nclass 011 7\nclass 111 8\n",
        "",
    ),
    (
        "classes A C11",
        0,
        "atom 1 -8\natom 1 -6\natom 1 -11\nclass 000 0\nclass 010 6\nclass 110 8\n",
        "",
    ),
    ("classes A ./none", 5, "", "classtest: ./none: read fault\n"),
    (
        "classes A2 none",
        0,
        "atom 1 -8\natom 1 -6\nclass 01 6\nclass 11 8\n",
        "",
    ),
    ("classes ONE none", 0, "class - -2\n", ""),
    (
        "classes WIDE none",
        0,
        "atom 1 -1000000\nclass 0 -1000000\nclass 1 1000000\n",
        "",
    ),
    (
        "classes SUMS none",
        0,
        "atom 1 1 -1 -1\natom 1 1 -1 0\nclass 00 -1000000 -1000000 -1000000\nclass 01 -1000000 0 -1000000\nclass 11 -1000000 1 -1000000\n",
        "",
    ),
    ("classes A Cw", 3, "", "classtest: Cw:2: unknown\n"),
    ("classes A A", 3, "", "classtest: A:1: version\n"),
    (
        "classes STEEP none",
        4,
        "",
        "classtest: limit coefficient\n",
    ),
    ("classes STEEP A", 3, "", "classtest: A:1: version\n"),
];

#[test]
fn classes_and_refusals(rt: HostRuntime) -> Result<(), Fail> {
    for (line, status, out, err) in ANSWERS {
        let expected = Expected { status, out, err };
        check(&rt, rt.alloc(), line, &MORE, smooth(4_096), expected)?;
    }
    Ok(())
}

/// The same over the texts of all tests.
const CHARTS: [(&str, u8, &str, &str); 7] = [
    (
        "classes PARITY none",
        0,
        "atom 1 -1 -1\nclass 0 0 0\nclass 1 1 0\n",
        "",
    ),
    (
        "classes MON none",
        0,
        "atom 1 -1 -101\natom 1 -1 -51\natom 1 -1 -1\natom 1 0 0\natom 1 0 -1\nclass 00010 0 0\nclass 00011 1 1\nclass 00111 1 0\nclass 01111 51 0\nclass 11111 101 0\n",
        "",
    ),
    ("classes cut none", 3, "", "classtest: cut:6: form\n"),
    ("classes V none", 4, "", "classtest: limit coefficient\n"),
    ("classes P2odd none", 3, "", "classtest: P2odd: no input\n"),
    ("classes P2 none", 3, "", "classtest: P2:4: range\n"),
    ("suite P2odd 1 none", 3, "", "classtest: P2odd: no input\n"),
];

#[test]
fn classes_of_charts(rt: HostRuntime) -> Result<(), Fail> {
    for (line, status, out, err) in CHARTS {
        let expected = Expected { status, out, err };
        check(&rt, rt.alloc(), line, &TEXTS, smooth(4_096), expected)?;
    }
    Ok(())
}

/// The cuts of an input of six at these numbers.
fn add_cuts(cuts: &mut String, input: &str, numbers: &[&str]) -> Result<(), AllocError> {
    for number in numbers {
        for piece in ["cut ", input, " >= ", number, "\n"] {
            cuts.push_str(piece)?;
        }
    }
    Ok(())
}

/// The same cuts of all six inputs.
fn cuts_of_six(alloc: Global, numbers: &[&str]) -> Result<String, AllocError> {
    let mut cuts = String::from_str(alloc, "cuts 1\n")?;
    for input in ["a", "b", "c", "d", "e", "f"] {
        add_cuts(&mut cuts, input, numbers)?;
    }
    Ok(cuts)
}

#[test]
fn too_many_classes(rt: HostRuntime) -> Result<(), Fail> {
    let many = cuts_of_six(rt.alloc(), &["2", "4", "6", "8"])?;
    let texts = [("W6", SIX), ("C6", many.as_str())];
    for line in ["classes W6 C6", "suite W6 2 C6", "suite W6 1 C6"] {
        let err = "classtest: limit classes\n";
        check_no_output(&rt, rt.alloc(), line, &texts, 4, err)?;
    }
    let mut more = cuts_of_six(rt.alloc(), &["2", "4", "6"])?;
    add_cuts(&mut more, "a", &["8"])?;
    let texts = [("W6", SIX), ("C6", more.as_str())];
    let err = "classtest: limit classes\n";
    check_no_output(&rt, rt.alloc(), "classes W6 C6", &texts, 4, err)?;
    Ok(())
}

#[test]
fn as_many_classes_as_there_may_be(rt: HostRuntime) -> Result<(), Fail> {
    let most = cuts_of_six(rt.alloc(), &["2", "4", "6"])?;
    let texts = [("W6", SIX), ("C6", most.as_str())];
    let got = called_with_room(rt.alloc(), "classes W6 C6", &texts, 1_048_576)?;
    assert_eq!(rt; got.status, 0);
    assert_eq!(rt; lines_with(got.out.as_slice(), b"atom "), 18);
    assert_eq!(rt; lines_with(got.out.as_slice(), b"class "), 4_096);
    Ok(())
}

/// So many cuts of one input, from 1 on.
fn cuts_of_one(alloc: Global, count: usize) -> Result<String, AllocError> {
    let mut cuts = String::from_str(alloc, "cuts 1\n")?;
    for number in 0..count {
        write!(cuts, "cut v >= {}\n", number.saturating_add(1))?;
    }
    Ok(cuts)
}

#[test]
fn atoms_at_their_limit(rt: HostRuntime) -> Result<(), Fail> {
    let chart = "chart 1\ninput v 0 200\noutput o 0\nstate S start\n";
    let steep = "chart 1\ninput v 0 200\noutput o 0\nstate S start\non S when 1000001*v >= 1\n";
    let full = cuts_of_one(rt.alloc(), 128)?;
    let texts = [("LINE", chart), ("N", full.as_str())];
    let got = called_with_room(rt.alloc(), "classes LINE N", &texts, 65_536)?;
    assert_eq!(rt; got.status, 0);
    assert_eq!(rt; lines_with(got.out.as_slice(), b"atom "), 128);
    assert_eq!(rt; lines_with(got.out.as_slice(), b"class "), 129);
    let more = cuts_of_one(rt.alloc(), 129)?;
    let texts = [("LINE", chart), ("N", more.as_str())];
    let err = "classtest: limit atoms\n";
    check_no_output(&rt, rt.alloc(), "classes LINE N", &texts, 4, err)?;
    // A large coefficient comes before too many atoms.
    let texts = [("LINE", steep), ("N", more.as_str())];
    let err = "classtest: LINE:5: limit literal\n";
    check_no_output(&rt, rt.alloc(), "classes LINE N", &texts, 4, err)?;
    Ok(())
}
