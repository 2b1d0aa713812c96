ghost use Rattle.std.specs.Prelude.{◌≡◌, MatchOption, ℤ, List};
ghost use Rattle.input_classes.specs.Order.{IsAtMost};
ghost use Rattle.lin_form.specs.Range.{IsInRanges};
ghost use Rattle.lin_form.specs.Atom.{AreAsSaid};
ghost use Rattle.linear_refuter.specs.Sum.{IsShaped};
ghost use Rattle.linear_refuter.specs.inside.Halving.{HasBits};
ghost use Rattle.linear_refuter.specs.TightPart.{lows, IsTightened, IsCorner};
ghost use Rattle.linear_refuter.specs.Answer.{HasNone, IsVectorOf};
ghost use Rattle.linear_refuter.specs.inside.Looking.{IsGlance, IsLook};

use crate::Part;
use crate::form_cut::halves_by_form;
use crate::guess::dive;
use crate::halving::halving;
use crate::hint::{Few, Trim, ceiling, floor};
use crate::point::{lowest, point};
use crate::relaxation::{Relaxation, Repaired};
use crate::sum::is_refuted_by;
use crate::tightening::{tightened, trimmed};
use lin_form::{Literal, Vector, all_as_said};
use std::alloc::Global;
use std::num::saturating_f64_to_i64;

/// A vector of the part on which every literal is as it says, if there is one.
///
/// It gives no refutation, so it may cut off every bound at once where a sum refutes what is cut off, and where many
/// boxes were looked at, it may split on any sum of the variables. It takes memory then, and does without where none is
/// left; the tableau may hold anything before.
pub fn seek(
    alloc: Global,
    literals: &[Literal],
    part: &Part,
    relaxation: &mut Relaxation,
) -> Option<Vector>
    requires { IsShaped literals.now part.now }
    ensures { MatchOption result (HasNone literals.now part.now) (λ x. IsVectorOf literals.now part.now x) }
{
    relaxation.start();
    match short_search(alloc, literals, part, relaxation, DEPTH) {
        Glance::Empty => None,
        Glance::Found(vector) => Some(vector),
        Glance::Spent => search(alloc, literals, part, relaxation, 21 * part.inputs(), TURNS),
    }
}

/// How many halvings stand on a way of a short search, at most.
const DEPTH: usize = 100;
/// How many splits by a sum stand on a way, at most.
const TURNS: usize = 100;

/// What a short search shows: that there is no vector, one, or nothing yet.
#[derive(Drop)]
enum Glance {
    Empty,
    Found(Vector),
    Spent,
}

/// A search by halving ranges, which ends where many boxes were looked at.
fn short_search(
    alloc: Global,
    literals: &[Literal],
    part: &Part,
    relaxation: &mut Relaxation,
    left: usize,
) -> Glance
    requires { IsShaped literals.now part.now }
    ensures { IsGlance literals.now part.now result }
{
    if left == 0 || relaxation.is_spent() {
        return Glance::Spent;
    }
    match look_at(alloc, literals, part, relaxation) {
        Look::Empty => Glance::Empty,
        Look::Found(vector) => Glance::Found(vector),
        Look::Open(tight, variable) => {
            let Some(cut) = halving(&tight, variable) else {
                return Glance::Spent;
            };
            let below = tight.below(cut.0, cut.1);
            match short_search(alloc, literals, &below, relaxation, left - 1) {
                Glance::Found(vector) => Glance::Found(vector),
                Glance::Spent => Glance::Spent,
                Glance::Empty => {
                    let above = tight.above(cut.0, cut.1);
                    match short_search(alloc, literals, &above, relaxation, left - 1) {
                        Glance::Found(vector) => Glance::Found(vector),
                        Glance::Spent => Glance::Spent,
                        Glance::Empty => Glance::Empty,
                    }
                }
            }
        }
    }
}

/// A search by halving sums of the variables, and ranges where there is none.
fn search(
    alloc: Global,
    literals: &[Literal],
    part: &Part,
    relaxation: &mut Relaxation,
    left: usize,
    turns: usize,
) -> Option<Vector>
    requires shaped { IsShaped literals.now part.now }
    requires bits { HasBits part.now left }
    ensures { MatchOption result (HasNone literals.now part.now) (λ x. IsVectorOf literals.now part.now x) }
{
    match look_at(alloc, literals, part, relaxation) {
        Look::Empty => None,
        Look::Found(vector) => Some(vector),
        Look::Open(tight, variable) => {
            if turns > 0 {
                if let Some(halves) = halves_by_form(alloc, literals, &tight, relaxation) {
                    if let Some(vector) = search(
                        alloc,
                        halves.low.as_slice(),
                        &tight,
                        relaxation,
                        left,
                        turns - 1,
                    ) {
                        return Some(vector);
                    }
                    return search(
                        alloc,
                        halves.high.as_slice(),
                        &tight,
                        relaxation,
                        left,
                        turns - 1,
                    );
                }
            }
            let Some(cut) = halving(&tight, variable) else {
                return None;
            };
            let below = tight.below(cut.0, cut.1);
            if let Some(vector) = search(alloc, literals, &below, relaxation, left - 1, turns) {
                return Some(vector);
            }
            let above = tight.above(cut.0, cut.1);
            search(alloc, literals, &above, relaxation, left - 1, turns)
        }
    }
}

/// What a look at a part shows: that it has no vector, one, or a smaller part with the variable to halve.
#[derive(Drop)]
enum Look {
    Empty,
    Found(Vector),
    Open(Part, usize),
}

fn look_at(alloc: Global, literals: &[Literal], part: &Part, relaxation: &mut Relaxation) -> Look
    requires { IsShaped literals.now part.now }
    ensures { IsLook literals.now part.now result }
{
    let Some(tight) = tightened(literals, part) else {
        return Look::Empty;
    };
    if let Some(vector) = corner(alloc, literals, &tight) {
        return Look::Found(vector);
    }
    let sum = refuting(relaxation, literals, &tight);
    if is_refuted_by(literals, &tight, sum.as_slice()) {
        return Look::Empty;
    }
    let near = zoomed(literals, &tight, relaxation);
    if let Some(vector) = corner(alloc, literals, &near) {
        return Look::Found(vector);
    }
    let numbers = middle(relaxation, &near);
    if let Some(vector) = point(alloc, literals, &near, &numbers) {
        return Look::Found(vector);
    }
    let variable = thinnest(&near);
    Look::Open(near, variable)
}

/// The least vector of a part, if every literal is as it says on it.
pub fn corner(alloc: Global, literals: &[Literal], part: &Part) -> Option<Vector>
    requires { IsShaped literals.now part.now }
    ensures { MatchOption result (AreAsSaid literals.now (lows part.now) → ⊥) (λ x. IsCorner literals.now part.now x) }
{
    let lowest = lowest(alloc, part);
    if all_as_said(literals, &lowest) {
        return Some(lowest);
    }
    None
}

/// The part, cut off at the least and the greatest value that each variable has in the relaxation.
fn zoomed(literals: &[Literal], part: &Part, relaxation: &mut Relaxation) -> Part
    requires { IsShaped literals.now part.now }
    ensures { IsTightened literals.now part.now result }
{
    let mut near = part.copy();
    for variable in 0..part.inputs() {
        let low = low_end(relaxation, variable);
        near = trimmed(literals, near, variable, low.at, true, low.sum.as_slice());
        let high = high_end(relaxation, variable);
        near = trimmed(
            literals,
            near,
            variable,
            high.at,
            false,
            high.sum.as_slice(),
        );
    }
    near
}

/// A sum that may refute the part.
fn refuting(relaxation: &mut Relaxation, literals: &[Literal], part: &Part) -> Few {
    relaxation.set(literals, part);
    match relaxation.repair() {
        Repaired::Stuck(row) => relaxation.sum_of(row),
        _ => Few::none(),
    }
}

/// A cut off below the least value of a variable in the relaxation.
fn low_end(relaxation: &mut Relaxation, variable: usize) -> Trim {
    relaxation.move_to_end(variable, false);
    let least = ceiling(relaxation.number(variable) - 1e-6);
    Trim {
        variable,
        at: saturating_f64_to_i64(least - 1.0),
        from_below: true,
        sum: sum_if(relaxation, variable, least > relaxation.lower(variable)),
    }
}

/// A cut off above the greatest value of a variable in the relaxation.
fn high_end(relaxation: &mut Relaxation, variable: usize) -> Trim {
    relaxation.move_to_end(variable, true);
    let greatest = floor(relaxation.number(variable) + 1e-6);
    Trim {
        variable,
        at: saturating_f64_to_i64(greatest),
        from_below: false,
        sum: sum_if(relaxation, variable, greatest < relaxation.upper(variable)),
    }
}

/// The sum that bounds a variable where it is, if it is of use.
fn sum_if(relaxation: &Relaxation, variable: usize, is_useful: bool) -> Few {
    if is_useful {
        relaxation.sum_at(variable)
    } else {
        Few::none()
    }
}

/// A vector in the middle of the relaxation.
fn middle(relaxation: &mut Relaxation, part: &Part) -> [i64; 6] {
    relaxation.set_ranges(part);
    match relaxation.repair() {
        Repaired::Feasible => match dive(relaxation, part, false) {
            Some(numbers) => numbers,
            None => [0; 6],
        },
        _ => [0; 6],
    }
}

/// The variable with the least range of two numbers or more.
fn thinnest(part: &Part) -> usize {
    let mut found = 0;
    let mut least = 0;
    for (variable, range) in part.as_slice().iter().enumerate() {
        let width = range.1.wrapping_sub(range.0);
        if width > 0 && (least == 0 || width < least) {
            least = width;
            found = variable;
        }
    }
    found
}

/// The least whole number of a variable in the relaxation of the literals on a part. It is a guess.
pub fn least_guess(
    literals: &[Literal],
    part: &Part,
    variable: usize,
    relaxation: &mut Relaxation,
) -> i64 {
    relaxation.set(literals, part);
    match relaxation.repair() {
        Repaired::Feasible => {
            relaxation.move_to_end(variable, false);
            saturating_f64_to_i64(ceiling(relaxation.number(variable) - 1e-6))
        }
        _ => -1_000_000,
    }
}
