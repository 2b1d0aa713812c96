//! Charts from a number.
#![tactic(auto)]

mod generating;
mod text;

pub use generating::generate;
