//! The suite that a replay begins with: read from a text that the command names.
#![tactic(auto)]

mod suite;

pub use suite::suite_at;
