//! The plain values of equivalence class testing: input vectors, replies, names, signatures and their ranges,
//! and linear forms over a chart's inputs and memories, which the comparisons of its guards test.
#![tactic(auto)]

mod atom;
#[cfg(test)]
mod atom_tests;
mod atoms;
mod bounds;
mod direction;
mod divisor;
mod form;
mod input;
mod inputs;
mod laws;
mod literal;
mod name;
mod names;
mod normal;
mod reply;
mod signature;
#[cfg(test)]
mod tests;
mod truth;
mod vector;

pub use atom::Atom;
pub use atoms::Atoms;
pub use bounds::Bounds;
pub use direction::Direction;
pub use form::{Comparison, Form, Relation, eval, holds, holds_within, memory_part};
pub use input::Input;
pub use inputs::Inputs;
pub use laws::{atoms_decide_comparisons, normal_forms_are_computed, pairs_decide_comparisons};
pub use literal::{Claim, Literal, Pair};
pub use name::Name;
pub use names::Names;
pub use normal::{FormError, as_literals, is_small, normalise};
pub use reply::Reply;
pub use signature::Signature;
pub use truth::{all_as_said, atom_holds};
pub use vector::Vector;
