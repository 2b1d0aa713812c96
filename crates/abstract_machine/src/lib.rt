//! The finite machine of a plan: its letters are the classes of a partition, and it does what the plan does on their
//! witnesses.
#![tactic(auto)]

mod branches;
mod error;
mod exploring;
mod laws;
mod numbering;
mod stepping;

pub use error::ExploreError;
pub use exploring::{Explored, explore};
pub use laws::{reduced_machine_has_the_rank, reduced_machine_has_the_words, witnesses_reach_all};
