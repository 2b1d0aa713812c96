ghost use Rattle.std.specs.Prelude.{◌≡◌, ◌≤◌, ◌*ℤ◌, ℤ, List, length, unsigned_abs, IfSome, IsTrue};
ghost use Rattle.lin_form.specs.Atom.{IsAsSaid, atom_truth, AreAsSaid};
ghost use Rattle.lin_form.specs.Form.{sum_of_products};
ghost use Rattle.lin_form.specs.Range.{IsRange};
ghost use Rattle.linear_refuter.specs.Answer.{HasTruth};
ghost use Rattle.linear_refuter.specs.SumEnds.{AreSumEnds, LiesBetween};
ghost use Rattle.linear_refuter.specs.inside.Ends.{AreBoxEnds, AreProductEnds};

use crate::Part;
use lin_form::{Atom, Literal, Vector};

/// The truth that an atom has on each vector of the part on which every literal is as it says, where the ranges or one
/// literal with the same coefficients alone tell it. It takes no memory.
pub fn implied(literals: &[Literal], part: &Part, atom: &Atom) -> Option<bool>
    requires { length atom.now.coefficients ≡ length part.now }
    ensures { IfSome result (λ t. HasTruth literals.now part.now atom.now t) }
{
    if let Some(truth) = implied_by_one(literals, atom) {
        return Some(truth);
    }
    told(atom, box_ends(part, atom))
}

/// The truth that an atom has where the sum with its coefficients lies between these ends, if they tell it.
pub fn told(atom: &Atom, ends: (i64, i64)) -> Option<bool>
    ensures { IfSome result (λ t. (x : List ℤ) → LiesBetween ends (sum_of_products atom.now.coefficients x)
        → atom_truth atom.now x ≡ t) }
{
    let limit = -atom.constant;
    if limit <= ends.0 {
        return Some(true);
    }
    if ends.1 < limit {
        return Some(false);
    }
    None
}

/// Numbers between which the sum with an atom's coefficients lies on each vector of the part on which every literal is
/// as it says: the ranges and the literals with the same coefficients tell them. It takes no memory.
pub fn sum_ends(literals: &[Literal], part: &Part, atom: &Atom) -> (i64, i64)
    requires { length atom.now.coefficients ≡ length part.now }
    ensures { AreSumEnds literals.now part.now atom.now.coefficients result }
{
    let mut ends = box_ends(part, atom);
    for index in 0..literals.len() {
        ends = nearer(ends, &literals[index], atom);
    }
    ends
}

/// The same ends, or nearer ones where the literal has the atom's coefficients.
fn nearer(ends: (i64, i64), literal: &Literal, atom: &Atom) -> (i64, i64)
    ensures { (x : List ℤ) → IsAsSaid literal.now x → LiesBetween ends (sum_of_products atom.now.coefficients x)
        → LiesBetween result (sum_of_products atom.now.coefficients x) }
{
    if !are_same(&literal.atom.coefficients, &atom.coefficients) {
        return ends;
    }
    let limit = -literal.atom.constant;
    if literal.holds {
        if ends.0 < limit {
            return (limit, ends.1);
        }
        return ends;
    }
    if limit <= ends.1 {
        return (ends.0, limit - 1);
    }
    ends
}

/// The truth of an atom that one of the literals tells.
fn implied_by_one(literals: &[Literal], atom: &Atom) -> Option<bool>
    ensures { IfSome result (λ t. (x : List ℤ) → AreAsSaid literals.now x → atom_truth atom.now x ≡ t) }
{
    for index in 0..literals.len() {
        if let Some(truth) = implied_by(&literals[index], atom) {
            return Some(truth);
        }
    }
    None
}

/// The truth of an atom that a literal with the same coefficients tells.
fn implied_by(literal: &Literal, atom: &Atom) -> Option<bool>
    ensures { IfSome result (λ t. (x : List ℤ) → IsAsSaid literal.now x → atom_truth atom.now x ≡ t) }
{
    if literal.holds {
        if literal.atom.constant <= atom.constant
            && are_same(&literal.atom.coefficients, &atom.coefficients)
        {
            return Some(true);
        }
    } else if atom.constant <= literal.atom.constant
        && are_same(&literal.atom.coefficients, &atom.coefficients)
    {
        return Some(false);
    }
    None
}

fn are_same(one: &Vector, other: &Vector) -> bool
    ensures { IsTrue result → one.now ≡ other.now }
{
    one == other
}

/// The least and the greatest value of the sum with an atom's coefficients on the part.
pub(crate) fn box_ends(part: &Part, atom: &Atom) -> (i64, i64)
    requires { length atom.now.coefficients ≡ length part.now }
    ensures within { AreBoxEnds part.now atom.now.coefficients result }
    ensures low { unsigned_abs result.0 ≤ 6000000000000 }
    ensures high { unsigned_abs result.1 ≤ 6000000000000 }
{
    let ranges = part.as_slice();
    let coefficients = atom.coefficients.as_slice();
    let mut least = 0;
    let mut greatest = 0;
    for index in 0..ranges.len() {
        let ends = products(coefficients[index], ranges[index]);
        least += ends.0;
        greatest += ends.1;
    }
    (least, greatest)
}

/// The least and the greatest product of a coefficient with a number of a range.
fn products(coefficient: i64, range: (i64, i64)) -> (i64, i64)
    requires coefficient { unsigned_abs coefficient ≤ 1000000 }
    requires ranged { IsRange range.0 range.1 }
    ensures within { AreProductEnds coefficient range result }
    ensures low { unsigned_abs result.0 ≤ 1000000000000 }
    ensures high { unsigned_abs result.1 ≤ 1000000000000 }
{
    let first = product(coefficient, range.0);
    let last = product(coefficient, range.1);
    if coefficient < 0 {
        (last, first)
    } else {
        (first, last)
    }
}

fn product(coefficient: i64, number: i64) -> i64
    requires coefficient { unsigned_abs coefficient ≤ 1000000 }
    requires number { unsigned_abs number ≤ 1000000 }
    ensures value { result ≡ coefficient *ℤ number }
    ensures small { unsigned_abs result ≤ 1000000000000 }
{
    coefficient * number
}
