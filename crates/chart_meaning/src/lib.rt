//! The meaning of a state chart: its starting configuration, and the configuration and the reply after each step.
#![tactic(auto)]

mod actions;
#[cfg(test)]
mod charts;
mod config;
mod firing;
mod laws;
mod moves;
mod path;
mod plan;
mod rows;
mod start;
#[cfg(test)]
mod tests;
mod tree;

pub use config::Config;
pub use laws::{configurations_go_on, guards_decide_steps, ways_are_whole};
pub use plan::ChartPlan;
