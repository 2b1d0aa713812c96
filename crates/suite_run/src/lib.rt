//! Running the tests of a suite on a subject, up to the first reply that differs from the expected one.
#![tactic(auto)]

mod run;

pub use run::{drive, verdict_by_words, verdict_on_plan};
