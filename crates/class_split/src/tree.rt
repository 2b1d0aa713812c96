ghost use Rattle.std.specs.Prelude.{◌≤◌, length, IfOk};
ghost use Rattle.class_split.specs.inside.Node.{Adds, IsNode};

use crate::node::{Node, skipped};
use crate::sides::{Sides, sides_of};
use lin_form::Atom;
use linear_refuter::Relaxation;
use std::alloc::{AllocError, Global};

/// The most classes that a partition has.
pub(crate) const MOST_CLASSES: usize = 4096;

/// Adds a node for each pattern that some vector of the node has, ascending, until there are too many: then it answers
/// false.
pub(crate) fn add_leaves(
    alloc: Global,
    atoms: &[Atom],
    first: usize,
    node: Node,
    leaves: &mut Vec<Node>,
    relaxation: &mut Relaxation,
) -> Result<bool, AllocError>
    requires short { length atoms.now ≤ 128 }
    requires first { first ≤ length atoms.now }
    requires node { IsNode atoms.now first node }
    ensures { IfOk result (λ done. Adds atoms.now node.region done leaves.old.items leaves.new.items) }
{
    let (index, pattern) = skipped(atoms, first, &node);
    let node = Node {
        region: node.region,
        vector: node.vector,
        is_least: node.is_least,
        pattern,
    };
    if index == atoms.len() {
        leaves.push(node)?;
        if leaves.len() > MOST_CLASSES {
            return Ok(false);
        }
        return Ok(true);
    }
    match sides_of(alloc, atoms, index, node, relaxation)? {
        Sides::One(next) => add_leaves(alloc, atoms, index + 1, next, leaves, relaxation),
        Sides::Two(low, high) => {
            if !add_leaves(alloc, atoms, index + 1, low, leaves, relaxation)? {
                return Ok(false);
            }
            add_leaves(alloc, atoms, index + 1, high, leaves, relaxation)
        }
    }
}
