//! The replies of a plan to the words of a pool, and whether they are those of a suite. Each step of the plan is made once
//! for a state and a letter.
#![tactic(auto)]

mod agreeing;
mod steps;
mod walk;

pub use agreeing::gives_expected;
pub use walk::replies_of;
