//! The text of a verdict, put line by line into a sink.
#![tactic(auto)]

mod json;
mod line;
mod write;

pub use json::verdict_json;
pub use write::write_verdict;
