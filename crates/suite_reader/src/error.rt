//! Why a suite's text is not read.

use suite_reading::{Cause, SuiteKind, SuiteWhich};

/// Why a suite's text is not read. Lines count from 1.
#[derive(Clone, Copy, PartialEq, Eq, Debug)]
pub enum SuiteError {
    /// A line has a fault, or the text stops before its end line: then the line is that of the last piece.
    Fault { line: usize, kind: SuiteKind },
    /// A line passes a limit.
    Limit { line: usize, which: SuiteWhich },
    /// There was no memory.
    Memory,
}

/// Why a line is not taken.
#[derive(Clone, Copy, Drop)]
pub(crate) enum LineError {
    Refused(Cause),
    Memory,
}
