//! The stages of the commands that run a suite on an implementation: the chart or the table that a text is, whether it
//! fits, and the verdict.
#![tactic(auto)]

mod first_line;
mod fitting;
mod implementation;
mod reading;
#[cfg(test)]
mod tests;
mod verdict;

pub use first_line::is_table;
pub use fitting::fits_over;
pub use implementation::Implementation;
pub use reading::implementation_at;
pub use verdict::verdict_over;
