ghost use Rattle.std.specs.Prelude.{◌≡◌, ◌+◌, ◌*◌, ◌≤◌, length, IfOk, IfSome};
ghost use Rattle.linear_refuter.specs.Cut.{IsCut, above, below};
ghost use Rattle.linear_refuter.specs.Sum.{IsShaped};
ghost use Rattle.linear_refuter.specs.Refutation.{NoPair, NoSingle, fork, plain};
ghost use Rattle.linear_refuter.specs.inside.Halving.{HasBits};
ghost use Rattle.linear_refuter.specs.Answer.{IsAnswer};
ghost use Rattle.linear_refuter.specs.inside.Decision.{IsAnswerWithin, IsLeanWithin, NoClash};

use crate::clash::clash;
use crate::halving::halving;
use crate::hint::{Hint, Trim};
use crate::point::lowest;
use crate::settle::{Settled, once, settle, sum};
use crate::sum::is_refuted_by;
use crate::{Answer, Part, Tree};
use lin_form::{Bounds, Literal};
use std::alloc::{AllocError, Global};

/// A vector of the box on which every literal is as it says, or a lean refutation.
///
/// Where no sum refutes a box and no vector is found, its ranges are halved, with at most one split between two
/// halvings that tightens a bound. Which sums, vectors and splits are tried is guessed; each is tested.
pub fn decide(alloc: Global, literals: &[Literal], bounds: &Bounds) -> Result<Answer, AllocError>
    requires few { length literals.now ≤ 256 }
    requires shaped { IsShaped literals.now bounds.now }
    ensures { IfOk result (λ a. IsAnswer literals.now bounds.now a) }
{
    decide_within(alloc, literals, &Part::of(bounds))
}

/// The same for a part of a box.
pub fn decide_within(alloc: Global, literals: &[Literal], part: &Part) -> Result<Answer, AllocError>
    requires few { length literals.now ≤ 256 }
    requires shaped { IsShaped literals.now part.now }
    ensures { IfOk result (λ a. IsAnswer literals.now part.now a) }
{
    if let Some(pair) = clash(literals) {
        let tree = sum(alloc, &[once(pair.0), once(pair.1)])?;
        return Ok(Answer::Refuted(tree));
    }
    decide_consistent(alloc, literals, part)
}

/// The same where no two literals clash.
fn decide_consistent(alloc: Global, literals: &[Literal], part: &Part) -> Result<Answer, AllocError>
    requires shaped { IsShaped literals.now part.now }
    requires clear { NoClash literals.now }
    ensures { IfOk result (λ a. IsAnswer literals.now part.now a) }
{
    decide_part(alloc, literals, part, 21 * part.inputs())
}

/// The answer for a box, which may be tightened at one bound before it is halved.
#[cycle(deciding)]
fn decide_part(
    alloc: Global,
    literals: &[Literal],
    part: &Part,
    left: usize,
) -> Result<Answer, AllocError>
    requires shaped { IsShaped literals.now part.now }
    requires clear { NoClash literals.now }
    requires bits { HasBits part.now left }
    ensures { IfOk result (λ a. IsAnswerWithin (2 * left + 1) literals.now part.now a) }
{
    match settle(alloc, literals, part, true)? {
        Settled::Done(answer) => Ok(answer),
        Settled::Open(hint) => match &hint.trim {
            Some(trim) => decide_trimmed(alloc, literals, part, trim, &hint, left),
            None => decide_halves(alloc, literals, part, &hint, left),
        },
    }
}

/// The answer for a box, with this split where its sum refutes the part cut off.
#[cycle(deciding)]
fn decide_trimmed(
    alloc: Global,
    literals: &[Literal],
    part: &Part,
    trim: &Trim,
    hint: &Hint,
    left: usize,
) -> Result<Answer, AllocError>
    requires shaped { IsShaped literals.now part.now }
    requires clear { NoClash literals.now }
    requires bits { HasBits part.now left }
    requires single { NoSingle literals.now part.now }
    requires pair { NoPair literals.now part.now }
    ensures { IfOk result (λ a. IsAnswerWithin (2 * left + 1) literals.now part.now a) }
{
    if !part.is_cut(trim.variable, trim.at) {
        return decide_halves(alloc, literals, part, hint, left);
    }
    let below = part.below(trim.variable, trim.at);
    let above = part.above(trim.variable, trim.at);
    let weights = trim.sum.as_slice();
    if trim.from_below {
        if !is_refuted_by(literals, &below, weights) {
            return decide_halves(alloc, literals, part, hint, left);
        }
        match decide_rest(alloc, literals, &above, left)? {
            Answer::Point(vector) => Ok(Answer::Point(vector)),
            Answer::Refuted(high) => {
                let low = sum(alloc, weights)?;
                Ok(Answer::Refuted(split(alloc, trim.variable, trim.at, low, high)?))
            }
        }
    } else {
        if !is_refuted_by(literals, &above, weights) {
            return decide_halves(alloc, literals, part, hint, left);
        }
        match decide_rest(alloc, literals, &below, left)? {
            Answer::Point(vector) => Ok(Answer::Point(vector)),
            Answer::Refuted(low) => {
                let high = sum(alloc, weights)?;
                Ok(Answer::Refuted(split(alloc, trim.variable, trim.at, low, high)?))
            }
        }
    }
}

/// The answer for a box that is tightened at one bound.
#[cycle(deciding)]
fn decide_rest(
    alloc: Global,
    literals: &[Literal],
    part: &Part,
    left: usize,
) -> Result<Answer, AllocError>
    requires shaped { IsShaped literals.now part.now }
    requires clear { NoClash literals.now }
    requires bits { HasBits part.now left }
    ensures { IfOk result (λ a. IsAnswerWithin (2 * left) literals.now part.now a) }
{
    match settle(alloc, literals, part, false)? {
        Settled::Done(answer) => Ok(answer),
        Settled::Open(hint) => decide_halves(alloc, literals, part, &hint, left),
    }
}

/// The answer for a box, by its halves.
#[cycle(deciding)]
fn decide_halves(
    alloc: Global,
    literals: &[Literal],
    part: &Part,
    hint: &Hint,
    left: usize,
) -> Result<Answer, AllocError>
    requires shaped { IsShaped literals.now part.now }
    requires clear { NoClash literals.now }
    requires bits { HasBits part.now left }
    requires single { NoSingle literals.now part.now }
    requires pair { NoPair literals.now part.now }
    ensures { IfOk result (λ a. IsAnswerWithin (2 * left) literals.now part.now a) }
{
    let Some(cut) = halving(part, hint.variable) else {
        return Ok(Answer::Point(lowest(alloc, part)));
    };
    let below = part.below(cut.0, cut.1);
    let above = part.above(cut.0, cut.1);
    match decide_part(alloc, literals, &below, left - 1)? {
        Answer::Point(vector) => Ok(Answer::Point(vector)),
        Answer::Refuted(low) => match decide_part(alloc, literals, &above, left - 1)? {
            Answer::Point(vector) => Ok(Answer::Point(vector)),
            Answer::Refuted(high) => Ok(Answer::Refuted(split(alloc, cut.0, cut.1, low, high)?)),
        },
    }
}

fn split(alloc: Global, variable: usize, at: i64, low: Tree, high: Tree) -> Result<Tree, AllocError>
    ensures { IfOk result (λ t. plain t ≡ fork variable at (plain low) (plain high)) }
{
    Ok(Tree::Split {
        variable,
        at,
        low: Box::new(alloc, low)?,
        high: Box::new(alloc, high)?,
    })
}
