//! The stages of `gen`: the chart of a number, its suite for the least bound, the verdict by it on the chart of another
//! number, and the text that sums these up.
#![tactic(auto)]

mod charts;
mod counting;
mod printing;
mod summing;

pub use printing::SummaryLines;
pub use summing::summary_of;
