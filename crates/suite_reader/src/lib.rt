//! The exact reader of a suite's text.
#![tactic(auto)]

mod error;
mod line;
mod names;
mod numbers;
mod read;
mod reader;

pub use error::SuiteError;
pub use read::read_suite;
