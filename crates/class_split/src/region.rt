ghost use Rattle.std.specs.Prelude.{◌≡◌, length, IfOk, MatchBool, ℤ, List};
ghost use Rattle.lin_form.specs.Atom.{AreAsSaid, IsAsSaid};
ghost use Rattle.lin_form.specs.Range.{IsInRanges};
ghost use Rattle.linear_refuter.specs.Sum.{IsShaped};
ghost use Rattle.class_split.specs.inside.Region.{IsReducedTo, IsRestricted};

use crate::cut::{cut_of, side};
use lin_form::{Atom, Literal};
use linear_refuter::{Part, implied};
use std::alloc::{AllocError, Global};

/// The vectors of a part on which each literal is as it says.
#[derive(Drop)]
pub(crate) struct Region {
    pub(crate) part: Part,
    pub(crate) kept: Vec<Literal>,
}

/// The vectors of a region on which the atom has this truth.
///
/// An atom of one variable cuts the part. Any other is kept as a literal, in front of those that do not follow from it.
pub(crate) fn restricted(
    alloc: Global,
    region: &Region,
    atom: &Atom,
    holds: bool,
) -> Result<Region, AllocError>
    requires width { length atom.now.coefficients ≡ length region.now.part }
    requires shaped { IsShaped region.now.kept.items region.now.part }
    ensures { IfOk result (λ r. IsRestricted region.now atom.now holds r) }
{
    if let Some(cut) = cut_of(&region.part, atom) {
        let part = side(&region.part, cut.0, cut.1, holds);
        let kept = reduced(&part, region.kept.as_slice(), Vec::new(alloc))?;
        return Ok(Region { part, kept });
    }
    let literal = Literal {
        atom: atom.clone()?,
        holds,
    };
    let mut first = Vec::with_capacity(alloc, region.kept.len().wrapping_add(1))?;
    first.push(literal)?;
    let kept = reduced(&region.part, region.kept.as_slice(), first)?;
    Ok(Region {
        part: region.part.copy(),
        kept,
    })
}

/// The first literals, and after them those literals that do not follow on the part from one that stands before.
fn reduced(
    part: &Part,
    literals: &[Literal],
    mut first: Vec<Literal>,
) -> Result<Vec<Literal>, AllocError>
    requires { IsShaped literals.now part.now }
    ensures { IfOk result (λ kept. IsReducedTo part.now literals.now first.items kept.items) }
{
    for index in 0..literals.len() {
        if is_new(first.as_slice(), part, &literals[index]) {
            first.push(literals[index].clone()?)?;
        }
    }
    Ok(first)
}

/// Whether a literal does not follow from the ranges or from one of these literals.
fn is_new(literals: &[Literal], part: &Part, literal: &Literal) -> bool
    requires { length literal.now.atom.coefficients ≡ length part.now }
    ensures { MatchBool result (Unit {0})
        ((x : List ℤ) → IsInRanges part.now x → AreAsSaid literals.now x → IsAsSaid literal.now x) }
{
    match implied(literals, part, &literal.atom) {
        None => true,
        Some(truth) => truth != literal.holds,
    }
}
