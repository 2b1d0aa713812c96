//! Cuts over a signature as texts: what a text reads as, by its lines and their tokens.
#![tactic(auto)]

mod laws;
mod read;

pub use laws::cuts_or_refusal;
pub use read::read_cuts;
