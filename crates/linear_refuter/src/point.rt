ghost use Rattle.std.specs.Prelude.{◌≡◌, ◌≤◌, ◌<◌, ◌+ℤ◌, ℤ, pos, length, map, unsigned_abs, MatchBool, IfSome, All};
ghost use Rattle.lin_form.specs.Range.{AreRanges, IsInRanges};
ghost use Rattle.lin_form.specs.Atom.{AreAsSaid};
ghost use Rattle.linear_refuter.specs.Sum.{IsShaped};
ghost use Rattle.linear_refuter.specs.TightPart.{lows};

use crate::Part;
use lin_form::{Literal, Vector, all_as_said};
use std::alloc::Global;

/// The vector of these numbers, if it lies in the box and every literal is as it says on it.
pub(crate) fn point(
    alloc: Global,
    literals: &[Literal],
    part: &Part,
    numbers: &[i64; 6],
) -> Option<Vector>
    requires { IsShaped literals.now part.now }
    ensures { IfSome result (λ x. IsInRanges part.now x × AreAsSaid literals.now x) }
{
    let vector = Vector::from_slice(alloc, &numbers[..part.inputs()]);
    if !part.contains(vector.as_slice()) {
        return None;
    }
    if !all_as_said(literals, &vector) {
        return None;
    }
    Some(vector)
}

/// The least vector of the box.
pub(crate) fn lowest(alloc: Global, part: &Part) -> Vector
    ensures value { result ≡ lows part.now }
    ensures ranged { AreRanges part.now }
{
    let mut numbers = [0; 6];
    let ranges = part.as_slice();
    for (index, (low, _)) in ranges.iter().enumerate() {
        numbers[index] = *low;
    }
    Vector::from_slice(alloc, &numbers[..ranges.len()])
}
