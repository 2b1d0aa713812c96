//! The words of a command: which words are one, and what it asks for.
#![tactic(auto)]

mod command;
mod number;
#[cfg(test)]
mod tests;

pub use command::{Command, command_of};
