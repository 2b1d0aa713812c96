ghost use Rattle.std.specs.Prelude.{◌≡◌, ◌≤◌, ◌<◌, length, IfOk, slice_set, Bool, List};
ghost use Rattle.class_split.specs.inside.Node.{AreSides, IsNode};

use crate::found::found_in;
use crate::node::Node;
use crate::region::restricted;
use lin_form::{Atom, atom_holds};
use linear_refuter::Relaxation;
use std::alloc::{AllocError, Global};

/// The vectors of a node on which an atom does not hold, and those on which it holds, or all where only one side has
/// one.
#[derive(Drop)]
pub(crate) enum Sides {
    One(Node),
    Two(Node, Node),
}

pub(crate) fn sides_of(
    alloc: Global,
    atoms: &[Atom],
    index: usize,
    node: Node,
    relaxation: &mut Relaxation,
) -> Result<Sides, AllocError>
    requires short { length atoms.now ≤ 128 }
    requires index { index < length atoms.now }
    requires node { IsNode atoms.now index node }
    ensures { IfOk result (λ s. AreSides atoms.now index node.region s) }
{
    let atom = &atoms[index];
    let truth = atom_holds(atom, &node.vector);
    let region = restricted(alloc, &node.region, atom, !truth)?;
    match found_in(alloc, &region, relaxation) {
        None => Ok(Sides::One(Node {
            region: node.region,
            vector: node.vector,
            is_least: node.is_least,
            pattern: with_truth(node.pattern, index, truth),
        })),
        Some(found) => {
            let same = Node {
                region: restricted(alloc, &node.region, atom, truth)?,
                vector: node.vector,
                is_least: node.is_least,
                pattern: with_truth(node.pattern, index, truth),
            };
            let other = Node {
                region,
                vector: found.vector,
                is_least: found.is_least,
                pattern: with_truth(node.pattern, index, !truth),
            };
            if truth {
                Ok(Sides::Two(other, same))
            } else {
                Ok(Sides::Two(same, other))
            }
        }
    }
}

fn with_truth(mut pattern: [bool; 128], index: usize, truth: bool) -> [bool; 128]
    requires { index < 128 }
    ensures { result ≡ slice_set pattern index truth }
{
    pattern[index] = truth;
    pattern
}
