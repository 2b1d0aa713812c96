//! Input equivalence classes: sets of input vectors, patterns of atoms, and what it means that a list of classes is the
//! partition of a box by its atoms (Huang and Peleska).
#![tactic(auto)]

mod class;
mod laws;
mod pattern;

pub use class::Class;
pub use laws::{partition_covers_its_box, partition_has_all_patterns, partition_is_one};
pub use pattern::Pattern;
