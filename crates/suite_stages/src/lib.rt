//! The stages of the commands that make a suite: the suite of a chart, its classes and a bound, and its text.
#![tactic(auto)]

mod making;
mod printing;

pub use making::{least_suite_over, suite_over};
pub use printing::SuiteLines;
