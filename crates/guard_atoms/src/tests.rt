//! Atoms of small charts, with lists that were worked out by hand from the inequalities of their guards.
mod charts;
mod largest;

use crate::tests::charts::{Test, chart, cuts};
use crate::{AtomError, assumed, atoms_of};
use lin_form::{Atom, Relation};
use std::alloc::{AllocError, Global};
use std::process::Abort;
use std::test::Fail;

/// The coefficients of v, w and x, and the constant.
type Expected = ([i64; 3], i64);

/// The tests of a chart's guards, its memory's range, cuts, and the atoms.
#[derive(Clone, Copy)]
struct Case {
    name: &'static str,
    range: (i64, i64),
    tests: &'static [Test],
    cuts: &'static [Test],
    atoms: &'static [Expected],
}

fn check_atoms(rt: &impl Abort, name: &str, atoms: &[Atom], want: &[Expected]) {
    assert_eq!(rt; atoms.len(), want.len(), "{name}");
    for (number, atom) in atoms.iter().enumerate() {
        let (coefficients, constant) = want[number];
        assert_eq!(rt;
            atom.coefficients.as_slice(),
            coefficients.as_slice(),
            "{name}"
        );
        assert_eq!(rt; atom.constant, constant, "{name}");
    }
}

fn check(rt: &impl Abort, alloc: Global, case: &Case) -> Result<(), AllocError> {
    let chart = chart(rt, alloc, case.range, None, case.tests)?;
    let cuts = cuts(rt, alloc, case.cuts)?;
    match atoms_of(alloc, &chart, &cuts) {
        Ok(atoms) => check_atoms(rt, case.name, atoms.as_slice(), case.atoms),
        Err(error) => panic!(rt; "{}: {error:?}", case.name),
    }
    Ok(())
}

/// Guards over v, w and x.
const ALARM: [Test; 2] = [
    (Relation::GreaterOrEqual, [1, 0, 0], 0, -8),
    (Relation::LessOrEqual, [1, 0, 0], 0, -5),
];

const MONITOR: [Test; 9] = [
    (Relation::Greater, [1, -1, 0], 0, -100),
    (Relation::Greater, [1, -1, 0], 0, -50),
    (Relation::Greater, [1, -1, 0], 0, 0),
    (Relation::Greater, [1, -1, 0], 0, -100),
    (Relation::Greater, [1, -1, 0], 0, -50),
    (Relation::LessOrEqual, [1, -1, 0], 0, 0),
    (Relation::Greater, [1, -1, 0], 0, -100),
    (Relation::LessOrEqual, [1, -1, 0], 0, 0),
    (Relation::Equal, [1, 0, 0], 0, 0),
];

const CASES: [Case; 9] = [
    Case {
        name: "no guard",
        range: (0, 0),
        tests: &[],
        cuts: &[],
        atoms: &[],
    },
    Case {
        name: "alarm",
        range: (0, 0),
        tests: &ALARM,
        cuts: &[],
        atoms: &[([1, 0, 0], -8), ([1, 0, 0], -6)],
    },
    Case {
        name: "alarm with a cut",
        range: (0, 0),
        tests: &ALARM,
        cuts: &[
            (Relation::GreaterOrEqual, [1, 0, 0], 0, -7),
            (Relation::Less, [1, 0, 0], 0, -8),
        ],
        atoms: &[([1, 0, 0], -8), ([1, 0, 0], -6), ([1, 0, 0], -7)],
    },
    Case {
        name: "monitor",
        range: (0, 0),
        tests: &MONITOR,
        cuts: &[],
        atoms: &[
            ([1, -1, 0], -101),
            ([1, -1, 0], -51),
            ([1, -1, 0], -1),
            ([1, 0, 0], 0),
            ([1, 0, 0], -1),
        ],
    },
    Case {
        name: "parity",
        range: (0, 0),
        tests: &[(Relation::Equal, [2, -2, 0], 0, -1)],
        cuts: &[],
        atoms: &[([1, -1, 0], -1)],
    },
    Case {
        name: "wide",
        range: (0, 0),
        tests: &[(Relation::GreaterOrEqual, [1, 0, 0], 0, -1_000_000)],
        cuts: &[],
        atoms: &[([1, 0, 0], -1_000_000)],
    },
    Case {
        name: "sums",
        range: (0, 0),
        tests: &[
            (Relation::GreaterOrEqual, [1, 1, -1], 0, -1),
            (Relation::GreaterOrEqual, [1, 1, -1], 0, 0),
        ],
        cuts: &[],
        atoms: &[([1, 1, -1], -1), ([1, 1, -1], 0)],
    },
    Case {
        name: "low values first",
        range: (-1, 2),
        tests: &[(Relation::GreaterOrEqual, [1, 0, 0], -3, 0)],
        cuts: &[],
        atoms: &[
            ([1, 0, 0], 3),
            ([1, 0, 0], 0),
            ([1, 0, 0], -3),
            ([1, 0, 0], -6),
        ],
    },
    Case {
        name: "no memory and no input",
        range: (-1, 2),
        tests: &[
            (Relation::GreaterOrEqual, [0, 2, 0], 0, 1),
            (Relation::GreaterOrEqual, [0, 0, 0], 1, -1),
            (Relation::NotEqual, [0, 2, 0], 1, 0),
        ],
        cuts: &[],
        atoms: &[([0, 1, 0], 0), ([0, 1, 0], -1), ([0, 1, 0], 1)],
    },
];

#[test]
fn atoms_of_small_charts(rt: HostRuntime) -> Result<(), Fail> {
    for case in CASES {
        check(&rt, rt.alloc(), &case)?;
    }
    Ok(())
}

/// The number of atoms, or the error.
fn count(
    rt: &impl Abort,
    alloc: Global,
    range: (i64, i64),
    tests: &[Test],
    cut_rows: &[Test],
) -> Result<Result<usize, AtomError>, AllocError> {
    let chart = chart(rt, alloc, range, None, tests)?;
    let cuts = cuts(rt, alloc, cut_rows)?;
    match atoms_of(alloc, &chart, &cuts) {
        Ok(atoms) => Ok(Ok(atoms.as_slice().len())),
        Err(error) => Ok(Err(error)),
    }
}

/// That twice v and each number below this one are together at most 0: the numbers 0, 1 and 2, 3 and 4, and so on have
/// one atom.
fn halves(alloc: Global, numbers: i64) -> Result<Vec<Test>, AllocError> {
    let mut tests = Vec::new(alloc);
    for number in 0..numbers {
        tests.push((Relation::LessOrEqual, [2, 0, 0], 0, number))?;
    }
    Ok(tests)
}

#[test]
fn limit_of_atoms(rt: HostRuntime) -> Result<(), Fail> {
    let alloc = rt.alloc();
    let most = count(&rt, alloc, (0, 0), halves(alloc, 255)?.as_slice(), &[])?;
    assert_eq!(&rt; most, Ok(128));
    let more = count(&rt, alloc, (0, 0), halves(alloc, 256)?.as_slice(), &[])?;
    assert_eq!(&rt; more, Err(AtomError::TooMany));
    let sum = [(Relation::GreaterOrEqual, [1, 0, 0], 1, 0)];
    assert_eq!(&rt; count(&rt, alloc, (0, 127), &sum, &[])?, Ok(128));
    assert_eq!(&rt;
        count(&rt, alloc, (0, 128), &sum, &[])?,
        Err(AtomError::TooMany)
    );
    Ok(())
}

#[test]
fn limit_of_coefficients(rt: HostRuntime) -> Result<(), Fail> {
    let alloc = rt.alloc();
    let double = [(Relation::GreaterOrEqual, [2_000_000, 0, 0], 0, -1)];
    assert_eq!(&rt;
        count(&rt, alloc, (0, 0), &double, &[])?,
        Err(AtomError::Coefficient)
    );
    let sum = [(Relation::GreaterOrEqual, [1, 0, 0], 1, 0)];
    let above = [(Relation::Less, [0, -1_000_001, 0], 0, 0)];
    assert_eq!(&rt;
        count(&rt, alloc, (0, 128), &sum, &above)?,
        Err(AtomError::Coefficient)
    );
    let largest = [(Relation::Less, [0, -1_000_000, 0], 0, 0)];
    assert_eq!(&rt; count(&rt, alloc, (0, 0), &sum, &largest)?, Ok(2));
    Ok(())
}

#[test]
fn assumptions(rt: HostRuntime) -> Result<(), Fail> {
    let alloc = rt.alloc();
    let chart = chart(&rt, alloc, (0, 0), Some(6), &ALARM)?;
    match assumed(alloc, &chart) {
        Ok(literals) => {
            assert_eq!(&rt; literals.len(), 1);
            let literal = &literals[0];
            assert!(&rt; literal.holds);
            assert_eq!(&rt; literal.atom.coefficients.as_slice(), [1, 0, 0].as_slice());
            assert_eq!(&rt; literal.atom.constant, -6);
        }
        Err(error) => panic!(&rt; "{error:?}"),
    }
    Ok(())
}
