//! Strict lines: tokens with one space between them, and numbers without leading zeros, of any length.
#![tactic(auto)]

mod laws;
mod numbers;
mod pieces;
#[cfg(test)]
mod tests;

pub use laws::lines_are_tokens;
pub use pieces::{Piece, next_byte, pieces_of};
