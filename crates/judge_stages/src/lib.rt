//! The stages of the commands that come to a verdict on an implementation: the verdict by a suite, the suite of a chart
//! before it, and the verdict's texts.
#![tactic(auto)]

mod judgement;
mod judging;
mod printing;

pub use judgement::Judged;
pub use judging::{judge_at, judge_by, judge_over};
pub use printing::{JsonLine, VerdictLines};
