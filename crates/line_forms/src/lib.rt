//! The lines of charts and words as what they say: the forms that their tokens derive from.
#![tactic(auto)]

mod cuts;
mod error;
mod form;
mod guard;
mod guard_tree;
mod keyword;
mod lexeme;
mod line;
mod line_parser;
mod lookup;
mod numbers;
mod parsed;
mod part;
mod statement;
mod sum;
#[cfg(test)]
mod tests;

pub use cuts::CutsForm;
pub use error::ParseError;
pub use form::input_form;
pub use guard::guard_at;
pub use guard_tree::{GuardForm, GuardTree};
pub use keyword::Keyword;
pub use lexeme::{Lexeme, meaning};
pub use line::Line;
pub use line_parser::LineParser;
pub use lookup::{is_minus, is_reserved, keyword_at, name_at, number_at};
pub use numbers::Numbers;
pub use parsed::{LineForm, ParsedLine, one_parse, small_parse, some_parse};
pub use part::when_at;
pub use statement::{
    ActionForm, ActionsForm, InputForm, MemoryForm, OnForm, OutputForm, Signed, SignedTerm,
    StateForm, Statement, Term, TestForm,
};
