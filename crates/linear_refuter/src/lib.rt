//! A vector of a box on which linear inequalities are as they are said to be, or a refutation that a plain checker
//! accepts.
#![tactic(auto)]

mod check;
mod clash;
mod decision;
mod form_cut;
mod guess;
mod halving;
mod hint;
mod implication;
mod lattice;
mod law;
mod part;
mod point;
mod relaxation;
mod seeking;
mod settle;
mod sum;
mod term;
mod tightening;
mod tree;

pub use check::check_tree;
pub use decision::{decide, decide_within};
pub use implication::{implied, sum_ends, told};
pub use law::refuted_literals_have_no_vector;
pub use part::Part;
pub use relaxation::Relaxation;
pub use seeking::{corner, least_guess, seek};
pub use tightening::tightened;
pub use tree::{Answer, Tree, Weight};
