use crate::Pattern;
use lin_form::Vector;

/// An input equivalence class: its pattern and its witness, which is its least vector.
#[derive(Drop)]
pub struct Class {
    pub pattern: Pattern,
    pub witness: Vector,
}
