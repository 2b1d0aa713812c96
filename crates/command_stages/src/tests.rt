//! The words of the lines on `err`.
use crate::stop::{kind_word, limit_word, quantity_word, suite_kind_word, suite_limit_word};
use crate::{Line, Quantity, Refusal, SignaturePlace, Stop};
use chart_syntax::{Kind, Which};
use suite_reading::{SuiteKind, SuiteWhich};

#[test]
fn words_of_kinds(rt: HostRuntime) {
    let kinds = [
        (Kind::Byte, "byte"),
        (Kind::Version, "version"),
        (Kind::NoSuchLine, "line"),
        (Kind::Misplaced, "order"),
        (Kind::Form, "form"),
        (Kind::Double, "double"),
        (Kind::Unknown, "unknown"),
        (Kind::Misuse, "misuse"),
        (Kind::Range, "range"),
        (Kind::Start, "start"),
        (Kind::Twice, "twice"),
        (Kind::OutOfBox, "box"),
        (Kind::Missing, "missing"),
    ];
    for (kind, word) in kinds {
        assert_eq!(rt; kind_word(kind), word.as_bytes());
    }
}

#[test]
fn words_of_limits(rt: HostRuntime) {
    let limits = [
        (Which::NameBytes, "name"),
        (Which::Literal, "literal"),
        (Which::Tokens, "tokens"),
        (Which::Nesting, "nesting"),
        (Which::Comparisons, "comparisons"),
        (Which::Inputs, "inputs"),
        (Which::Assumptions, "assumptions"),
        (Which::Outputs, "outputs"),
        (Which::Memories, "memories"),
        (Which::Product, "product"),
        (Which::Bound, "bound"),
        (Which::States, "states"),
        (Which::Depth, "depth"),
        (Which::Transitions, "transitions"),
        (Which::Rows, "rows"),
    ];
    for (which, word) in limits {
        assert_eq!(rt; limit_word(which), word.as_bytes());
    }
}

#[test]
fn words_of_quantities(rt: HostRuntime) {
    let quantities = [
        (Quantity::Coefficient, "coefficient"),
        (Quantity::Atoms, "atoms"),
        (Quantity::Classes, "classes"),
        (Quantity::Configurations, "configurations"),
        (Quantity::Steps, "steps"),
    ];
    for (quantity, word) in quantities {
        assert_eq!(rt; quantity_word(quantity), word.as_bytes());
    }
}

#[test]
fn words_of_suites(rt: HostRuntime) {
    let kinds = [
        (SuiteKind::Form, "form"),
        (SuiteKind::Fact, "fact"),
        (SuiteKind::Vector, "vector"),
        (SuiteKind::Conflict, "conflict"),
        (SuiteKind::Count, "count"),
        (SuiteKind::End, "end"),
    ];
    for (kind, word) in kinds {
        assert_eq!(rt; suite_kind_word(kind), word.as_bytes());
    }
    let limits = [
        (SuiteWhich::Literal, "literal"),
        (SuiteWhich::NameBytes, "name"),
        (SuiteWhich::Inputs, "inputs"),
        (SuiteWhich::Outputs, "outputs"),
        (SuiteWhich::Classes, "classes"),
    ];
    for (which, word) in limits {
        assert_eq!(rt; suite_limit_word(which), word.as_bytes());
    }
}

fn unfit(place: SignaturePlace) -> Refusal {
    Refusal::Unfit { name: 4, place }
}

#[test]
fn lines_of_refusals(rt: HostRuntime) {
    let name = 1;
    let line = 30;
    let kind = SuiteKind::End;
    let which = SuiteWhich::Classes;
    let refusals = [
        (Refusal::SuiteFault { name, line, kind }, ":30: end\n", 3),
        (
            Refusal::SuiteLimit { name, line, which },
            ":30: limit classes\n",
            4,
        ),
        (Refusal::NoInput { name: 1 }, ": no input\n", 3),
        (unfit(SignaturePlace::Inputs), ": unfit inputs\n", 3),
        (unfit(SignaturePlace::Input(2)), ": unfit input 2\n", 3),
        (unfit(SignaturePlace::Outputs), ": unfit outputs\n", 3),
        (unfit(SignaturePlace::Output(8)), ": unfit output 8\n", 3),
        (Refusal::Beyond(Quantity::Steps), "limit steps\n", 4),
        (
            Refusal::BoundBelow {
                bound: 1,
                states: 20,
            },
            "bound 1 below 20\n",
            4,
        ),
    ];
    let mut line = Line::new();
    for (refusal, said, status) in refusals {
        line.set_said(Stop::Refused(refusal));
        assert_eq!(rt; line.bytes(), said.as_bytes());
        assert_eq!(rt; refusal.status(), status);
    }
}
