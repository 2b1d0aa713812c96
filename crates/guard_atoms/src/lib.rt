//! The atoms of a chart's guards and of cuts: along them the input equivalence classes are cut.
#![tactic(auto)]

mod adding;
mod assumptions;
mod atoms;
mod comparisons;
mod constants;
mod error;
mod found;
mod large;
mod laws;
#[cfg(test)]
mod tests;

pub use assumptions::assumed;
pub use atoms::atoms_of;
pub use error::AtomError;
pub use laws::{atoms_decide_steps, members_act_alike, patterns_act_alike};
