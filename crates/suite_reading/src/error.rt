//! Why a suite's text is refused.

/// The faults of a suite's text.
#[derive(Clone, Copy, PartialEq, Eq, Debug)]
pub enum SuiteKind {
    /// The line is none of the forms that may stand there, or has the wrong number of numbers.
    Form,
    /// A reserved or double name, a range without numbers, a bound or a number of states outside its range, a vector
    /// outside the box, or a letter that is no class.
    Fact,
    /// A step's vector is not its letter's witness.
    Vector,
    /// A step's reply is not that of an earlier test with the same letters.
    Conflict,
    /// Too many or too few cover words, or another number of tests.
    Count,
    /// The text stops within a line or before its end line.
    End,
}

/// The limits of a suite's text.
#[derive(Clone, Copy, PartialEq, Eq, Debug)]
pub enum SuiteWhich {
    Literal,
    NameBytes,
    Inputs,
    Outputs,
    Classes,
}

/// Why a line is refused.
#[derive(Clone, Copy, PartialEq, Eq, Debug)]
pub enum Cause {
    Fault(SuiteKind),
    Limit(SuiteWhich),
}
