ghost use Rattle.std.specs.Prelude.{◌≡◌, ◌≤◌, ◌++◌, ◌∷◌, [], length, IfOk, IfSome, MatchBool};
ghost use Rattle.lin_form.specs.Inequality.{AreZero};
ghost use Rattle.lin_form.specs.Range.{AreWithin};
ghost use Rattle.linear_refuter.specs.Sum.{IsShaped};
ghost use Rattle.linear_refuter.specs.inside.Parting.{AreHalves};

use crate::Part;
use crate::hint::{FormCut, ceiling, floor};
use crate::relaxation::Relaxation;
use lin_form::{Atom, Comparison, Form, Literal, Relation, Vector, as_literals};
use std::alloc::{AllocError, Global};
use std::num::saturating_f64_to_i64;

/// Literals with an atom that is said not to hold, and with the same atom said to hold.
#[derive(Drop)]
pub(crate) struct Halves {
    pub(crate) low: Vec<Literal>,
    pub(crate) high: Vec<Literal>,
}

/// Two lists in place of the literals, by a sum in which the vectors that are left of the part lie close together. There
/// is none where no such sum is found or no memory is left.
pub(crate) fn halves_by_form(
    alloc: Global,
    literals: &[Literal],
    part: &Part,
    relaxation: &mut Relaxation,
) -> Option<Halves>
    requires { IsShaped literals.now part.now }
    ensures { IfSome result (λ h. AreHalves literals.now part.now h) }
{
    let cut = form_cut(literals, part, relaxation);
    if !cut.is_useful {
        return None;
    }
    let Some(direction) = direction_atom(alloc, &cut.numbers[..part.inputs()]) else {
        return None;
    };
    let Some(atom) = with_constant(direction, cut.constant) else {
        return None;
    };
    match parted(alloc, literals, part, &atom) {
        Ok(halves) => Some(halves),
        Err(AllocError) => None,
    }
}

fn parted(
    alloc: Global,
    literals: &[Literal],
    part: &Part,
    atom: &Atom,
) -> Result<Halves, AllocError>
    requires shaped { IsShaped literals.now part.now }
    requires width { length atom.now.coefficients ≡ length part.now }
    ensures { IfOk result (λ h. AreHalves literals.now part.now h) }
{
    let low = with_literal(alloc, literals, atom, false)?;
    let high = with_literal(alloc, literals, atom, true)?;
    Ok(Halves { low, high })
}

/// The literals and one more.
fn with_literal(
    alloc: Global,
    literals: &[Literal],
    atom: &Atom,
    holds: bool,
) -> Result<Vec<Literal>, AllocError>
    ensures { IfOk result (λ list. list.items ≡ literals.now ++ (record { atom = atom.now; holds = holds } ∷ [])) }
{
    let mut list = literals.to_vec(alloc)?;
    let literal = Literal {
        atom: atom.clone()?,
        holds,
    };
    list.push(literal)?;
    Ok(list)
}

/// The atom that says that the sum with these coefficients is at least 0, where they serve.
fn direction_atom(alloc: Global, numbers: &[i64]) -> Option<Atom>
    requires { length numbers.now ≤ 6 }
    ensures { IfSome result (λ atom. length atom.coefficients ≡ length numbers.now) }
{
    if !are_small(numbers) {
        return None;
    }
    if !is_one_not_zero(numbers) {
        return None;
    }
    let form = Form {
        inputs: Vector::from_slice(alloc, numbers),
        memory: [0, 0, 0, 0],
        constant: 0,
    };
    let relation = Relation::GreaterOrEqual;
    match as_literals(alloc, &Comparison { form, relation }) {
        Ok(claim) => Some(claim.first.atom),
        Err(_) => None,
    }
}

fn are_small(numbers: &[i64]) -> bool
    ensures { MatchBool result (AreWithin 1000000 numbers.now) (Unit {0}) }
{
    for number in numbers {
        if *number < -1_000_000 || 1_000_000 < *number {
            return false;
        }
    }
    true
}

fn is_one_not_zero(numbers: &[i64]) -> bool
    ensures { MatchBool result (AreZero numbers.now → ⊥) (Unit {0}) }
{
    for number in numbers {
        if *number != 0 {
            return true;
        }
    }
    false
}

/// The atom with another constant, where that is in range.
fn with_constant(atom: Atom, constant: i64) -> Option<Atom>
    ensures { IfSome result (λ a. a.coefficients ≡ atom.coefficients) }
{
    if constant < -2_000_000_000_000 || 2_000_000_000_000 < constant {
        return None;
    }
    Some(Atom {
        coefficients: atom.coefficients,
        constant,
    })
}

/// A guess for the sum that is bounded, and where: of those with two values or more the one with fewest in the
/// relaxation.
fn form_cut(literals: &[Literal], part: &Part, relaxation: &mut Relaxation) -> FormCut {
    relaxation.set_forms(literals, part);
    let mut found = FormCut::none();
    for direction in 0..part.inputs() {
        let next = cut_along(literals, part, relaxation, direction);
        if next.is_useful && (!found.is_useful || next.width < found.width) {
            found = next;
        }
    }
    found
}

fn cut_along(
    literals: &[Literal],
    part: &Part,
    relaxation: &mut Relaxation,
    direction: usize,
) -> FormCut {
    let ends = relaxation.form_ends(direction);
    let numbers = relaxation.form_numbers(direction);
    let (least, greatest) = known_ends(literals, part, &numbers);
    let low = saturating_f64_to_i64(ceiling(ends.0 - 1e-6));
    let high = saturating_f64_to_i64(floor(ends.1 + 1e-6));
    let mut at = low.wrapping_add(high.wrapping_sub(low) / 2);
    if low >= high {
        at = if low == high && least < low {
            low.wrapping_sub(1)
        } else {
            high
        };
    }
    FormCut {
        numbers,
        constant: at.wrapping_add(1).wrapping_neg(),
        width: ends.1 - ends.0,
        is_useful: least <= at && at < greatest,
    }
}

/// The ends of a sum by the ranges and by the literals with its coefficients.
fn known_ends(literals: &[Literal], part: &Part, numbers: &[i64; 6]) -> (i64, i64) {
    let (mut least, mut greatest) = range_ends(part, numbers);
    for literal in literals {
        if is_of(literal, numbers) {
            let limit = literal.atom.constant.wrapping_neg();
            if literal.holds {
                least = least.max(limit);
            } else {
                greatest = greatest.min(limit.wrapping_sub(1));
            }
        }
    }
    (least, greatest)
}

fn range_ends(part: &Part, numbers: &[i64; 6]) -> (i64, i64) {
    let mut least: i64 = 0;
    let mut greatest: i64 = 0;
    for (variable, range) in part.as_slice().iter().enumerate() {
        let number = numbers[variable % 6];
        let first = number.wrapping_mul(range.0);
        let last = number.wrapping_mul(range.1);
        least = least.wrapping_add(first.min(last));
        greatest = greatest.wrapping_add(first.max(last));
    }
    (least, greatest)
}

fn is_of(literal: &Literal, numbers: &[i64; 6]) -> bool {
    for (variable, coefficient) in literal.atom.coefficients.as_slice().iter().enumerate() {
        if numbers[variable % 6] != *coefficient {
            return false;
        }
    }
    true
}
