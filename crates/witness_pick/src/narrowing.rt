ghost use Rattle.std.specs.Prelude.{get_or, pos, ◌≡◌, ◌≤◌, ◌<◌, ◌≤ℤ◌, ◌<ℤ◌, length, IfOk, MatchOption};
ghost use Rattle.lin_form.specs.Range.{IsInRanges, IsRange};
ghost use Rattle.linear_refuter.specs.TightPart.{IsFlat, IsTightened};
ghost use Rattle.lin_form.specs.Atom.{AreAsSaid};
ghost use Rattle.linear_refuter.specs.Sum.{IsShaped};
ghost use Rattle.witness_pick.specs.inside.Narrowing.{IsFirstWide, IsStep};
ghost use Rattle.witness_pick.specs.Least.{IsLeast};

use lin_form::{Literal, Vector};
use linear_refuter::{Part, Relaxation, corner, least_guess, seek, tightened};
use std::alloc::Global;

/// The least vector of a part on which every literal is as it says, from one such vector.
///
/// The part is tightened again and again. Its first range with two numbers is cut off above the vector's number, and
/// then a lower part is asked for, at first one that ends where the relaxation begins.
pub fn least_from(alloc: Global, literals: &[Literal], part: &Part, vector: Vector) -> Vector
    requires shaped { IsShaped literals.now part.now }
    requires inside { IsInRanges part.now vector }
    requires said { AreAsSaid literals.now vector }
    ensures { IsLeast literals.now part.now result }
{
    let mut limits = tight(literals, part);
    let mut found = vector;
    let mut relaxation = Relaxation::new();
    let mut pace = Pace {
        variable: 6,
        step: 0,
    };
    while let Some(variable) = first_wide(&limits) {
        let step = step_of(
            alloc,
            literals,
            &limits,
            found,
            variable,
            pace,
            &mut relaxation,
        );
        limits = tight(literals, &step.limits);
        found = step.found;
        pace = step.pace;
    }
    found
}

/// How far above the low end of a variable's range the next part that is asked for ends.
#[derive(Clone, Copy)]
struct Pace {
    variable: usize,
    step: i64,
}

/// A smaller part in which the least vector lies, and a vector of it.
#[derive(Drop)]
struct Narrowed {
    limits: Part,
    found: Vector,
    pace: Pace,
}

/// A part in which each vector of this one lies on which every literal is as it says.
fn tight(literals: &[Literal], part: &Part) -> Part
    requires { IsShaped literals.now part.now }
    ensures { IsTightened literals.now part.now result }
{
    match tightened(literals, part) {
        Some(smaller) => smaller,
        None => part.copy(),
    }
}

/// One step: the range of the variable is cut off above the vector's number, or a lower part is asked for.
fn step_of(
    alloc: Global,
    literals: &[Literal],
    limits: &Part,
    vector: Vector,
    variable: usize,
    pace: Pace,
    relaxation: &mut Relaxation,
) -> Narrowed
    requires shaped { IsShaped literals.now limits.now }
    requires inside { IsInRanges limits.now vector }
    requires said { AreAsSaid literals.now vector }
    requires wide { IsFirstWide limits.now variable }
    ensures { IsStep literals.now limits.now vector result }
{
    let (low, high) = limits.range(variable);
    if let Some(lowest) = corner(alloc, literals, limits) {
        let least = limits.below(variable, low);
        return Narrowed {
            limits: least,
            found: lowest,
            pace,
        };
    }
    let number = number_at(limits, &vector, variable);
    if number < high {
        let shorter = limits.below(variable, number);
        return Narrowed {
            limits: shorter,
            found: vector,
            pace,
        };
    }
    let wish = wish_of(literals, limits, variable, low, pace, relaxation);
    let at = end_of_query(low, high, wish);
    let next = next_pace(variable, pace);
    let lower = limits.below(variable, at);
    match seek(alloc, literals, &lower, relaxation) {
        Some(found) => Narrowed {
            limits: lower,
            found,
            pace: next,
        },
        None => {
            let upper = limits.above(variable, at);
            Narrowed {
                limits: upper,
                found: vector,
                pace: next,
            }
        }
    }
}

/// Where a part that is asked for may well end: at first below the least value in the relaxation, then ever farther
/// above the low end. It is a guess.
fn wish_of(
    literals: &[Literal],
    limits: &Part,
    variable: usize,
    low: i64,
    pace: Pace,
    relaxation: &mut Relaxation,
) -> i64 {
    if pace.variable != variable {
        return least_guess(literals, limits, variable, relaxation).wrapping_sub(1);
    }
    low.wrapping_add(pace.step)
}

fn next_pace(variable: usize, pace: Pace) -> Pace {
    if pace.variable != variable {
        return Pace { variable, step: 0 };
    }
    Pace {
        variable,
        step: pace.step.wrapping_mul(2).wrapping_add(1),
    }
}

/// A vector's number at a variable.
fn number_at(part: &Part, vector: &Vector, variable: usize) -> i64
    requires inside { IsInRanges part.now vector.now }
    requires variable { variable < length part.now }
    ensures { result ≡ get_or vector.now variable (pos 0) }
{
    vector.as_slice()[variable]
}

/// The last number of the part of a range that is asked for: the wish, between the low end and the middle.
fn end_of_query(low: i64, high: i64, wish: i64) -> i64
    requires ranged { IsRange low high }
    requires wide { low <ℤ high }
    ensures from_low { low ≤ℤ result }
    ensures below_high { result <ℤ high }
{
    if wish < low {
        return low;
    }
    if high <= wish {
        return low + (high - low) / 2;
    }
    wish
}

/// The first variable whose range has two numbers or more.
fn first_wide(part: &Part) -> Option<usize>
    ensures { MatchOption result (IsFlat part.now) (λ v. IsFirstWide part.now v) }
{
    for variable in 0..part.inputs() {
        let (low, high) = part.range(variable);
        if low < high {
            return Some(variable);
        }
    }
    None
}
