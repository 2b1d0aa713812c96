//! The lexicographically least vector of a box on which linear inequalities are as they are said to be.
#![tactic(auto)]

ghost use Rattle.std.specs.Prelude.{◌≤◌, length, IfOk};
ghost use Rattle.linear_refuter.specs.Sum.{IsShaped};
ghost use Rattle.witness_pick.specs.Least.{IsPick};

#[cfg(test)]
mod making;
mod narrowing;
#[cfg(test)]
mod search_tests;
#[cfg(test)]
mod tests;

use lin_form::{Bounds, Literal, Vector};
use linear_refuter::{Answer, Part, Tree, decide};
pub use narrowing::least_from;
use std::alloc::{AllocError, Global};

/// The least vector of a box on which every literal is as it says, or why there is none.
#[derive(Drop)]
pub enum Pick {
    Least(Vector),
    None(Tree),
}

/// The lexicographically least vector of the box on which every literal is as it says, or a refutation.
///
/// The inputs are fixed in order. The least number of each is found by asking for a vector in lower parts of its range.
pub fn least(alloc: Global, literals: &[Literal], bounds: &Bounds) -> Result<Pick, AllocError>
    requires few { length literals.now ≤ 160 }
    requires shaped { IsShaped literals.now bounds.now }
    ensures { IfOk result (λ p. IsPick literals.now bounds.now p) }
{
    match decide(alloc, literals, bounds)? {
        Answer::Refuted(tree) => Ok(Pick::None(tree)),
        Answer::Point(vector) => {
            let least = least_from(alloc, literals, &Part::of(bounds), vector);
            Ok(Pick::Least(least))
        }
    }
}
