//! A test suite as it is run, printed and read: words of a pool with one reply for each, and the memory that is taken
//! once for reading and printing it.
#![tactic(auto)]

mod replies;
mod scratch;
mod suite;

pub use replies::Replies;
pub use scratch::Scratch;
pub use suite::{Suite, suite_keeps_rules};
