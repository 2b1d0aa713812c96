//! The input equivalence classes of a box: the patterns of atoms that some vector has, each with its least vector.
#![tactic(auto)]

mod class_number;
mod classes;
mod cut;
mod found;
mod node;
mod partition;
mod region;
mod root;
mod sides;
mod splitting;
mod tree;

pub use input_classes::{Class, Pattern};
pub use partition::Partition;
pub use splitting::{SplitError, split};
