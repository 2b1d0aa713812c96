//! The lines of a text, and the one way in which texts are read line by line, whatever their format.
#![tactic(auto)]

mod line;
mod read;
#[cfg(test)]
mod tests;

pub use line::next_line;
pub use read::{LineError, TextError, TextReader, read_text};
