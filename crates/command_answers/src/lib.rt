//! What each command answers: its stages in their order, the text that it prints, and the law that there is one answer.
#![tactic(auto)]

pub mod classes;
pub mod json;
mod laws;
pub mod play;
pub mod replay;
pub mod run;
pub mod suite;

pub use laws::one_answer;
