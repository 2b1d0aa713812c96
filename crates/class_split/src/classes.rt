ghost use Rattle.std.specs.Prelude.{◌≡◌, ◌≤◌, length, IfOk, All};
ghost use Rattle.std.specs.List.{AllZip};
ghost use Rattle.class_split.specs.inside.Node.{IsClassOf, IsNode};

use crate::node::Node;
use input_classes::{Class, Pattern};
use lin_form::Atom;
use std::alloc::{AllocError, Global};
use witness_pick::least_from;

/// The classes of the leaves, in order.
pub(crate) fn classes_of(
    alloc: Global,
    atoms: &[Atom],
    leaves: &[Node],
) -> Result<Vec<Class>, AllocError>
    requires short { length atoms.now ≤ 128 }
    requires leaves { All (IsNode atoms.now (length atoms.now)) leaves.now }
    ensures { IfOk result (λ classes. AllZip (IsClassOf atoms.now) leaves.now classes.items) }
{
    let mut classes = Vec::with_capacity(alloc, leaves.len())?;
    for index in 0..leaves.len() {
        classes.push(class_of(alloc, atoms, &leaves[index])?)?;
    }
    Ok(classes)
}

/// The class of a leaf.
fn class_of(alloc: Global, atoms: &[Atom], leaf: &Node) -> Result<Class, AllocError>
    requires short { length atoms.now ≤ 128 }
    requires leaf { IsNode atoms.now (length atoms.now) leaf.now }
    ensures { IfOk result (λ class. IsClassOf atoms.now leaf.now class) }
{
    let truths = leaf.pattern[..atoms.len()].to_vec(alloc)?;
    let pattern = Pattern::from_vec(truths);
    let vector = leaf.vector.clone()?;
    if leaf.is_least {
        return Ok(Class {
            pattern,
            witness: vector,
        });
    }
    let region = &leaf.region;
    let witness = least_from(alloc, region.kept.as_slice(), &region.part, vector);
    Ok(Class { pattern, witness })
}
