ghost use Rattle.std.specs.Prelude.{◌≡◌};
ghost use Rattle.chart_syntax.specs.Checks.{refused_at};

use text_lines::LineError;
use thiserror::Error;

/// What is wrong with a line.
#[derive(Clone, Copy, PartialEq, Eq, Debug)]
pub enum Kind {
    /// A byte that is not allowed or begins no token.
    Byte,
    /// The first line is not the stated one.
    Version,
    /// The first word begins no line.
    NoSuchLine,
    /// The line stands after a line of a later group.
    Misplaced,
    /// The tokens do not match the line's form.
    Form,
    /// A new name that was declared before.
    Double,
    /// A name that was not declared.
    Unknown,
    /// A name of another use, or a state without children where one with children must stand.
    Misuse,
    /// A range without a number, a value outside its range, or an assumption that speaks of no input.
    Range,
    /// A second start.
    Start,
    /// A second line on the entry or exit of a state.
    Twice,
    /// A vector outside the box.
    OutOfBox,
    /// An input, output, state or start that must be there is not.
    Missing,
}

/// The limit that a line passes.
#[derive(Clone, Copy, PartialEq, Eq, Debug)]
pub enum Which {
    Literal,
    NameBytes,
    Tokens,
    Nesting,
    Comparisons,
    Inputs,
    Assumptions,
    Outputs,
    Memories,
    Product,
    Bound,
    States,
    Depth,
    Transitions,
    Rows,
}

/// Why a text has no reading. Lines count from 1; what is missing at the end has the number after the last line's.
#[derive(Debug, Drop, Error)]
pub enum ChartError {
    #[error("line {line}: {kind:?}")]
    Fault { line: usize, kind: Kind },
    #[error("line {line}: a limit is passed: {which:?}")]
    Limit { line: usize, which: Which },
    #[error("no memory")]
    Memory,
}

/// What a check refuses a line for.
#[derive(Clone, Copy, PartialEq, Eq, Debug)]
pub enum Refusal {
    Fault(Kind),
    Limit(Which),
}

/// Why a text is refused whose line with this number is not taken.
pub fn at_line(line: usize, error: LineError<Refusal>) -> ChartError
    ensures { result ≡ refused_at line error }
{
    match error {
        LineError::Refused(Refusal::Fault(kind)) => ChartError::Fault { line, kind },
        LineError::Refused(Refusal::Limit(which)) => ChartError::Limit { line, which },
        LineError::Memory => ChartError::Memory,
    }
}
