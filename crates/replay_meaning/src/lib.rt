//! What the replay of a printed suite says: laws, and no code.
#![tactic(auto)]

mod laws;

pub use laws::printed_suites_are_printable;
