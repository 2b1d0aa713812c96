//! State charts as values: their memories, states, transitions, guards and actions, with all that a chart keeps.
#![tactic(auto)]

mod action;
mod chart;
mod copied;
mod cuts;
mod guard;
mod laws;
mod state;
#[cfg(test)]
mod tests;
mod transition;

pub use action::{Action, Place};
pub use chart::Chart;
pub use copied::{Copied, copies};
pub use cuts::Cuts;
pub use guard::{Condition, Guard, guard_holds, guard_holds_within};
pub use laws::comparisons_decide_guards;
pub use state::{Memory, State};
pub use transition::Transition;
