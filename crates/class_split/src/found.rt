ghost use Rattle.std.specs.Prelude.{MatchOption, ℤ, List};
ghost use Rattle.linear_refuter.specs.Answer.{HasNone};
ghost use Rattle.linear_refuter.specs.Sum.{IsShaped};
ghost use Rattle.class_split.specs.inside.Region.{IsEmptyRegion, IsFound, IsFoundIn};

use crate::region::Region;
use lin_form::{Literal, Vector};
use linear_refuter::{Part, Relaxation, corner, seek, tightened};
use std::alloc::Global;

/// A vector of a region, and whether it is known to be the least.
#[derive(Drop)]
pub(crate) struct Found {
    pub(crate) vector: Vector,
    pub(crate) is_least: bool,
}

/// A vector of the region, if it has one: the least one of its part if it is one.
///
/// The tableau may hold anything before.
pub(crate) fn found_in(alloc: Global, region: &Region, relaxation: &mut Relaxation) -> Option<Found>
    requires { IsShaped region.now.kept.items region.now.part }
    ensures { MatchOption result (IsEmptyRegion region.now) (λ f. IsFound region.now f) }
{
    if let Some(vector) = corner(alloc, region.kept.as_slice(), &region.part) {
        return Some(Found {
            vector,
            is_least: true,
        });
    }
    found_by(alloc, region.kept.as_slice(), &region.part, relaxation)
}

/// The same for a part and literals: the least vector of the tightened part if it is one.
fn found_by(
    alloc: Global,
    literals: &[Literal],
    part: &Part,
    relaxation: &mut Relaxation,
) -> Option<Found>
    requires { IsShaped literals.now part.now }
    ensures { MatchOption result (HasNone literals.now part.now) (λ f. IsFoundIn literals.now part.now f) }
{
    let Some(tight) = tightened(literals, part) else {
        return None;
    };
    if let Some(vector) = corner(alloc, literals, &tight) {
        return Some(Found {
            vector,
            is_least: true,
        });
    }
    match seek(alloc, literals, &tight, relaxation) {
        Some(vector) => Some(Found {
            vector,
            is_least: false,
        }),
        None => None,
    }
}
