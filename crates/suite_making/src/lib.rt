//! The suite of the W-method for a plan, a partition and a bound: the layers from the plan's machine to the suite, joined.
#![tactic(auto)]

mod error;
mod machine;
mod making;
mod words;

pub use error::MakeError;
pub use making::{LeastSuite, make_least_suite, make_suite};
