//! The tokens of a line: names, numbers and symbols, the longest possible from left to right,
//! with the faults and limits of a line that its tokens show.
#![tactic(auto)]

mod check;
mod error;
mod laws;
mod line;
mod scan;
mod span;
#[cfg(test)]
mod tests;
mod token;
mod tokenizer;
mod word;

pub use error::{TokenError, TokenLimit};
pub use laws::one_tokenizing;
pub use line::content;
pub use token::{Token, Word, is_spelled};
pub use tokenizer::{Tokenizer, line_tokens};
