//! What it means to read a suite's text: the lines that it may have, the checks of each in their order, and laws of
//! reading.
#![tactic(auto)]

mod error;
mod laws;
mod place;

pub use error::{Cause, SuiteKind, SuiteWhich};
pub use laws::{printed_is_read, reading_is_one, text_read_is_printed};
pub use place::{LineKind, Place, may_stand};
