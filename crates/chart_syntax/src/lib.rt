//! Charts and words as texts: what a text reads as, by its lines and their tokens.
#![tactic(auto)]

mod action;
mod chart;
mod check;
mod declare;
mod error;
mod guard;
mod laws;
mod names;
mod reader;
mod resolve;
mod run;
mod scan;
mod scope;
mod state;
mod table;
mod take;
mod text;
mod transition;
mod value;
mod word;

pub use chart_model::{Action, Chart, Condition, Guard, Memory, Place, State, Transition};
pub use error::{ChartError, Kind, Refusal, Which, at_line};
pub use laws::{chart_or_refusal, word_or_refusal};
pub use line_checks::{guard_end, sums_add_up};
pub use line_tokens::{Token, Word};
pub use run::guard_at;
pub use scan::{token_error, tokens};
pub use text::read_chart;
pub use word::read_word;
