ghost use Rattle.std.specs.Prelude.{◌≡◌, ◌≤◌, ◌<◌, ◌*ℤ◌, ◌<ℤ◌, length, unsigned_abs, MatchBool, MatchOption};
ghost use Rattle.linear_refuter.specs.Sum.{IsShaped};
ghost use Rattle.linear_refuter.specs.Answer.{HasNone};
ghost use Rattle.linear_refuter.specs.TightPart.{IsTightened};
ghost use Rattle.linear_refuter.specs.inside.Ends.{IsShrunk, IsSlack};

use crate::implication::box_ends;
use crate::sum::is_refuted_by;
use crate::term::coefficient;
use crate::{Part, Weight};
use lin_form::Literal;

/// How often all literals are gone through.
const ROUNDS: usize = 5;

/// A part in which each vector of this one lies on which every literal is as it says, or none if there is no such
/// vector: bounds that single literals give. It takes no memory.
pub fn tightened(literals: &[Literal], part: &Part) -> Option<Part>
    requires { IsShaped literals.now part.now }
    ensures { MatchOption result (HasNone literals.now part.now) (λ p. IsTightened literals.now part.now p) }
{
    let mut tight = part.copy();
    for _round in 0..ROUNDS {
        let Some(next) = tightened_once(literals, &tight) else {
            return None;
        };
        let changed = is_changed(&tight, &next);
        tight = next;
        if !changed {
            return Some(tight);
        }
    }
    Some(tight)
}

fn is_changed(before: &Part, after: &Part) -> bool {
    for (index, range) in before.as_slice().iter().enumerate() {
        if after.as_slice().get(index) != Some(range) {
            return true;
        }
    }
    false
}

/// The same, with each literal taken once.
fn tightened_once(literals: &[Literal], part: &Part) -> Option<Part>
    requires { IsShaped literals.now part.now }
    ensures { MatchOption result (HasNone literals.now part.now) (λ p. IsTightened literals.now part.now p) }
{
    let mut tight = part.copy();
    for index in 0..literals.len() {
        let slack = slack_of(&literals[index], &tight);
        if slack < 0 {
            return None;
        }
        tight = narrowed(&literals[index], &tight, slack);
    }
    Some(tight)
}

/// The greatest value of a literal's constraint on the part.
fn slack_of(literal: &Literal, part: &Part) -> i64
    requires { length literal.now.atom.coefficients ≡ length part.now }
    ensures { IsSlack literal.now part.now result }
{
    let ends = box_ends(part, &literal.atom);
    if literal.holds {
        ends.1 + literal.atom.constant
    } else {
        -ends.0 - literal.atom.constant - 1
    }
}

/// The part without the numbers of its variables at which the literal's constraint is below 0 even where every other
/// variable is at its best end: from the constraint's greatest value.
fn narrowed(literal: &Literal, part: &Part, slack: i64) -> Part
    requires width { length literal.now.atom.coefficients ≡ length part.now }
    requires slack { IsSlack literal.now part.now slack }
    ensures { IsShrunk literal.now part.now result }
{
    if !may_be_cut(literal, part, slack) {
        return part.copy();
    }
    let mut tight = part.copy();
    for variable in 0..part.inputs() {
        tight = narrowed_at(literal, tight, variable, slack);
    }
    tight
}

/// Whether the constraint falls by more than the slack along some variable. It is a guess.
fn may_be_cut(literal: &Literal, part: &Part, slack: i64) -> bool {
    let ranges = part.as_slice();
    for (variable, coefficient) in literal.atom.coefficients.as_slice().iter().enumerate() {
        if let Some(range) = ranges.get(variable) {
            let fall = coefficient.wrapping_mul(range.1.wrapping_sub(range.0));
            if fall > slack || fall.wrapping_neg() > slack {
                return true;
            }
        }
    }
    false
}

/// The same for one variable.
fn narrowed_at(literal: &Literal, part: Part, variable: usize, slack: i64) -> Part
    requires width { length literal.now.atom.coefficients ≡ length part }
    requires variable { variable < length part }
    requires slack { IsSlack literal.now part slack }
    ensures { IsShrunk literal.now part result }
{
    let factor = coefficient(literal, variable);
    let range = part.range(variable);
    let at = limit_of(factor, range, slack);
    if !part.is_cut(variable, at) {
        return part;
    }
    if factor > 0 {
        if is_product_above(factor, range.1 - at, slack) {
            return part.above(variable, at);
        }
        return part;
    }
    if is_product_above(-factor, at + 1 - range.0, slack) {
        return part.below(variable, at);
    }
    part
}

/// Whether a product is above a number.
fn is_product_above(factor: i64, other: i64, number: i64) -> bool
    requires factor { unsigned_abs factor ≤ 1000000 }
    requires other { unsigned_abs other ≤ 3000000 }
    ensures { MatchBool result (number <ℤ (factor *ℤ other)) (Unit {0}) }
{
    if number < factor * other {
        return true;
    }
    false
}

/// A cut of a range whose upper side, or lower side for a factor below 0, may be all that is left where the product
/// lies no farther than the slack from its greatest value, or a number that is no cut. It is a guess.
fn limit_of(factor: i64, range: (i64, i64), slack: i64) -> i64 {
    let width = range.1.wrapping_sub(range.0);
    if factor > 0 && factor.wrapping_mul(width) > slack {
        return range
            .1
            .wrapping_sub(quotient(slack, factor))
            .wrapping_sub(1);
    }
    let turned = factor.wrapping_neg();
    if factor < 0 && turned.wrapping_mul(width) > slack {
        return range.0.wrapping_add(quotient(slack, turned));
    }
    i64::MIN
}

/// A quotient rounded down, for a positive divisor.
fn quotient(number: i64, divisor: i64) -> i64 {
    if divisor <= 0 {
        return 0;
    }
    number.div_euclid(divisor)
}

/// The part without what lies on one side of a cut, where the sum refutes that.
pub(crate) fn trimmed(
    literals: &[Literal],
    part: Part,
    variable: usize,
    at: i64,
    from_below: bool,
    weights: &[Weight],
) -> Part
    requires { IsShaped literals.now part }
    ensures { IsTightened literals.now part result }
{
    if !part.is_cut(variable, at) {
        return part;
    }
    let below = part.below(variable, at);
    let above = part.above(variable, at);
    if from_below {
        if is_refuted_by(literals, &below, weights) {
            return above;
        }
        return part;
    }
    if is_refuted_by(literals, &above, weights) {
        return below;
    }
    part
}
