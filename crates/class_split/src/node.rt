ghost use Rattle.std.specs.Prelude.{◌≡◌, ◌≤◌, ◌<◌, length, IsTrue, All};
ghost use Rattle.class_split.specs.inside.Node.{AreEndsAt, AreEndsBefore, IsNode, IsSkipped};

use crate::region::Region;
use lin_form::{Atom, Vector};
use linear_refuter::{sum_ends, told};

/// A region whose vectors agree on the first atoms, one of its vectors, whether that is known to be the least, and the
/// truths of the first atoms.
#[derive(Drop)]
pub(crate) struct Node {
    pub(crate) region: Region,
    pub(crate) vector: Vector,
    pub(crate) is_least: bool,
    pub(crate) pattern: [bool; 128],
}

/// How many atoms have one truth on the region, as far as that is seen at once, and the truths of those.
pub(crate) fn skipped(atoms: &[Atom], first: usize, node: &Node) -> (usize, [bool; 128])
    requires short { length atoms.now ≤ 128 }
    requires first { first ≤ length atoms.now }
    requires node { IsNode atoms.now first node.now }
    ensures { IsSkipped atoms.now first node.now result.0 result.1 }
{
    let mut pattern = node.pattern;
    let mut ends = (0, 0);
    for index in first..atoms.len() {
        ends = ends_at(atoms, first, index, &node.region, ends);
        match told(&atoms[index], ends) {
            None => return (index, pattern),
            Some(truth) => pattern[index] = truth,
        }
    }
    (atoms.len(), pattern)
}

/// Numbers between which an atom's sum lies on the region: those of the atom before where that has the same
/// coefficients and is not before the first.
fn ends_at(
    atoms: &[Atom],
    first: usize,
    index: usize,
    region: &Region,
    before: (i64, i64),
) -> (i64, i64)
    requires index { index < length atoms.now }
    requires width { All (λ atom. length atom.coefficients ≡ length region.now.part) atoms.now }
    requires before { AreEndsBefore atoms.now first index region.now before }
    ensures { AreEndsAt atoms.now index region.now result }
{
    if first < index {
        if are_parallel(&atoms[index - 1], &atoms[index]) {
            return before;
        }
    }
    sum_ends(region.kept.as_slice(), &region.part, &atoms[index])
}

fn are_parallel(one: &Atom, other: &Atom) -> bool
    ensures { IsTrue result → one.now.coefficients ≡ other.now.coefficients }
{
    one.coefficients == other.coefficients
}
