ghost use Rattle.std.specs.Prelude.{◌≡◌, ◌≤◌, length, All, IfOk, MatchResult};
ghost use Rattle.linear_refuter.specs.Sum.{IsShaped};
ghost use Rattle.class_split.specs.Split.{IsPartitionOf, IsSplitFault};
ghost use Rattle.class_split.specs.inside.Outcome.{IsOutcome};

use crate::Partition;
use crate::classes::classes_of;
use crate::root::{Root, root_of};
use crate::tree::add_leaves;
use input_classes::Class;
use lin_form::{Atoms, Bounds, Literal};
use linear_refuter::{Relaxation, Tree};
use std::alloc::{AllocError, Global};

/// Why there is no partition.
#[derive(Drop)]
pub enum SplitError {
    /// More than 4,096 patterns are those of some vector of the box.
    TooMany,
    /// The box has no vector: a refutation of the assumed literals.
    NoInput(Tree),
    /// No memory is left.
    Memory,
}

/// The input equivalence classes of a box by the truths of the atoms (Huang and Peleska).
///
/// The box is the vectors of the bounds on which each assumed literal is as it says. The atoms are taken one by one,
/// the side on which one does not hold first. A vector is asked for only on a side that the known vector is not on,
/// where neither the ranges nor a kept literal tell the atom's truth. No least vector is sought before all patterns
/// are known.
pub fn split(
    alloc: Global,
    atoms: Atoms,
    bounds: Bounds,
    assumed: Vec<Literal>,
) -> Result<Partition, SplitError>
    requires few { length assumed.items ≤ 32 }
    requires shaped { IsShaped assumed.items bounds }
    requires atoms { All (λ atom. length atom.coefficients ≡ length bounds) atoms }
    ensures { MatchResult result
        (λ r. IsPartitionOf atoms bounds assumed.items r)
        (λ e. IsSplitFault atoms bounds assumed.items e) }
{
    match classes(alloc, &atoms, &bounds, assumed.as_slice()) {
        Err(AllocError) => Err(SplitError::Memory),
        Ok(Outcome::TooMany) => Err(SplitError::TooMany),
        Ok(Outcome::NoInput(tree)) => Err(SplitError::NoInput(tree)),
        Ok(Outcome::Classes(classes)) => Ok(Partition {
            atoms,
            bounds,
            assumed,
            classes,
        }),
    }
}

/// What is found out of a box.
#[derive(Drop)]
enum Outcome {
    Classes(Vec<Class>),
    TooMany,
    NoInput(Tree),
}

fn classes(
    alloc: Global,
    atoms: &Atoms,
    bounds: &Bounds,
    assumed: &[Literal],
) -> Result<Outcome, AllocError>
    requires few { length assumed.now ≤ 32 }
    requires shaped { IsShaped assumed.now bounds.now }
    requires atoms { All (λ atom. length atom.coefficients ≡ length bounds.now) atoms.now }
    ensures { IfOk result (λ o. IsOutcome atoms.now bounds.now assumed.now o) }
{
    let atoms = atoms.as_slice();
    let mut relaxation = Relaxation::new();
    match root_of(alloc, atoms, bounds, assumed, &mut relaxation)? {
        Root::Refuted(tree) => Ok(Outcome::NoInput(tree)),
        Root::Start(node) => {
            let mut leaves = Vec::new(alloc);
            if !add_leaves(alloc, atoms, 0, node, &mut leaves, &mut relaxation)? {
                return Ok(Outcome::TooMany);
            }
            Ok(Outcome::Classes(classes_of(alloc, atoms, leaves.as_slice())?))
        }
    }
}
