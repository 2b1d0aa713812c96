//! Systems under test: they are reset and stepped, may fail, and may tell what they will reply. A plan is one, and so is a
//! script of replies. And the verdict on such a system.
#![tactic(auto)]

mod laws;
mod plan_subject;
mod script_subject;
mod under_test;
mod verdict;

pub use laws::{verdict_on_answers, verdict_on_replies};
pub use plan_subject::PlanSubject;
pub use script_subject::ScriptSubject;
pub use under_test::Subject;
pub use verdict::Verdict;
