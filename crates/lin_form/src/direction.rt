ghost use Rattle.std.specs.Prelude.{◌≡◌, ◌≢◌, ◌≤◌, ◌<ℤ◌, Some, [], length, pos, neg_ℤ, map, unsigned_abs};
ghost use Rattle.std.specs.List.{cons_option};
ghost use Rattle.lin_form.specs.Atom.{IsAtomIf, IsLiteralIf, IsLiteralOf, IsPairOver, inequality_of};
ghost use Rattle.lin_form.specs.Inequality.{AreZero, DividesAll, IsGreatestDivisor, first_of, leads_positive, scaled, second_of};
ghost use Rattle.lin_form.specs.Normal.{inequalities_of, normal_of};
ghost use Rattle.lin_form.specs.Range.{AreWithin};
ghost use Rattle.lin_form.specs.inside.Direction.{IsDirection, constant_on, factor, whole_of};

use crate::divisor::greatest_divisor;
use crate::{Atom, Claim, Literal, Pair, Relation, Vector};
use std::alloc::Global;
use std::marker::Model;

/// What the atoms of inequalities with the same coefficients share, whatever their constants: the coefficients divided
/// by their greatest common divisor. Contracts see the coefficients that it was made of.
#[derive(Drop)]
pub struct Direction {
    normal: Vector,
    divisor: i64,
    leads: bool,
}

impl Model for Direction {
    ghost use Rattle.std.specs.Prelude.{ℤ, List};
    ghost use Rattle.lin_form.specs.inside.Direction.{IsDirection, whole_of};

    ghost Value = { List ℤ };

    ghost view = { λ d. whole_of d.leads d.divisor d.normal };

    ghost invariant = { λ d. IsDirection (whole_of d.leads d.divisor d.normal) d.divisor d.leads };
}

impl Direction {
    /// The direction of these coefficients. It takes no memory.
    pub fn of(alloc: Global, coefficients: &Vector) -> Direction
        requires within { AreWithin 1000000 coefficients.now }
        requires some { AreZero coefficients.now → ⊥ }
        ensures { result ≡ coefficients.now }
    {
        let divisor = common_divisor(coefficients);
        let leads = leads_positive(coefficients.as_slice());
        Direction {
            normal: quotients(alloc, coefficients, factor(leads, divisor)),
            divisor,
            leads,
        }
    }

    /// The atoms of the relation with 0 of the sum over these coefficients and a constant. It takes no memory.
    pub fn pair(&self, alloc: Global, constant: i64, relation: Relation) -> Pair
        requires small { unsigned_abs constant ≤ 901000000000 }
        ensures atoms { map inequality_of (cons_option result.first (cons_option result.second []))
            ≡ map normal_of (inequalities_of relation (record { coefficients = self.now; constant = constant })) }
        ensures first { IsAtomIf (Some (first_of relation (record { coefficients = self.now; constant = constant }))) result.first }
        ensures second { IsAtomIf (second_of relation (record { coefficients = self.now; constant = constant })) result.second }
        ensures width { IsPairOver (length self.now) result }
    {
        let Claim { first, second } = self.claim(alloc, constant, relation);
        let first = Some(first.atom);
        match second {
            Some(literal) => Pair {
                first,
                second: Some(literal.atom),
            },
            None => Pair {
                first,
                second: None,
            },
        }
    }

    /// The literals of the inequalities of the relation. It takes no memory.
    pub(crate) fn claim(&self, alloc: Global, constant: i64, relation: Relation) -> Claim
        requires small { unsigned_abs constant ≤ 901000000000 }
        ensures first { IsLiteralOf (first_of relation (record { coefficients = self.now; constant = constant })) result.first }
        ensures second { IsLiteralIf (second_of relation (record { coefficients = self.now; constant = constant })) result.second }
        ensures some { AreZero self.now → ⊥ }
    {
        Claim {
            first: first_literal(alloc, self, constant, relation),
            second: second_literal(alloc, self, constant, relation),
        }
    }

    /// The atom of the inequality with this constant, said to hold where the inequality does.
    fn literal_of(&self, alloc: Global, constant: i64) -> Literal
        requires small { unsigned_abs constant ≤ 1000000000000 }
        ensures literal { IsLiteralOf (record { coefficients = self.now; constant = constant }) result }
        ensures some { AreZero self.now → ⊥ }
    {
        literal_on(alloc, &self.normal, self.divisor, self.leads, constant)
    }

    /// The same, of the coefficients with every sign turned.
    fn opposite_literal(&self, alloc: Global, constant: i64) -> Literal
        requires small { unsigned_abs constant ≤ 1000000000000 }
        ensures literal { IsLiteralOf (record { coefficients = map neg_ℤ self.now; constant = constant }) result }
        ensures some { AreZero self.now → ⊥ }
    {
        literal_on(alloc, &self.normal, self.divisor, !self.leads, constant)
    }
}

fn first_literal(alloc: Global, direction: &Direction, constant: i64, relation: Relation) -> Literal
    requires small { unsigned_abs constant ≤ 901000000000 }
    ensures literal { IsLiteralOf (first_of relation (record { coefficients = direction.now; constant = constant })) result }
    ensures some { AreZero direction.now → ⊥ }
{
    match relation {
        Relation::Less => direction.opposite_literal(alloc, -constant - 1),
        Relation::LessOrEqual => direction.opposite_literal(alloc, -constant),
        Relation::Greater => direction.literal_of(alloc, constant - 1),
        Relation::GreaterOrEqual => direction.literal_of(alloc, constant),
        Relation::Equal => direction.literal_of(alloc, constant),
        Relation::NotEqual => direction.literal_of(alloc, constant),
    }
}

fn second_literal(
    alloc: Global,
    direction: &Direction,
    constant: i64,
    relation: Relation,
) -> Option<Literal>
    requires small { unsigned_abs constant ≤ 901000000000 }
    ensures { IsLiteralIf (second_of relation (record { coefficients = direction.now; constant = constant })) result }
{
    match relation {
        Relation::Equal => Some(direction.opposite_literal(alloc, -constant)),
        Relation::NotEqual => Some(direction.opposite_literal(alloc, -constant)),
        _ => None,
    }
}

/// The atom of the inequality whose coefficients were divided, said to hold where the inequality does.
fn literal_on(alloc: Global, normal: &Vector, divisor: i64, leads: bool, constant: i64) -> Literal
    requires direction { IsDirection (whole_of leads divisor normal.now) divisor leads }
    requires small { unsigned_abs constant ≤ 1000000000000 }
    ensures { IsLiteralOf (record { coefficients = whole_of leads divisor normal.now; constant = constant }) result }
{
    let atom = Atom {
        coefficients: Vector::from_slice(alloc, normal.as_slice()),
        constant: constant_on(divisor, leads, constant),
    };
    Literal { atom, holds: leads }
}

/// The constant of the atom.
fn constant_on(divisor: i64, leads: bool, constant: i64) -> i64
    requires divisor { pos 0 <ℤ divisor }
    requires small { unsigned_abs constant ≤ 1000000000000 }
    ensures { result ≡ constant_on leads divisor constant }
{
    let floor = constant.div_euclid(divisor);
    if leads { floor } else { -floor - 1 }
}

/// The greatest number that divides all coefficients.
fn common_divisor(coefficients: &Vector) -> i64
    requires within { AreWithin 1000000 coefficients.now }
    requires some { AreZero coefficients.now → ⊥ }
    ensures positive { pos 0 <ℤ result }
    ensures bound { unsigned_abs result ≤ 1000000 }
    ensures common { IsGreatestDivisor coefficients.now (unsigned_abs result) }
{
    greatest_divisor(coefficients.as_slice()) as i64
}

/// The divisor, with the sign of the first coefficient other than 0.
fn factor(leads: bool, divisor: i64) -> i64
    requires { unsigned_abs divisor ≤ 1000000 }
    ensures { result ≡ factor leads divisor }
{
    if leads { divisor } else { -divisor }
}

/// The numbers divided by a number that divides them all.
fn quotients(alloc: Global, numbers: &Vector, divisor: i64) -> Vector
    requires within { AreWithin 1000000 numbers.now }
    requires nonzero { divisor ≢ pos 0 }
    requires divides { DividesAll (unsigned_abs divisor) numbers.now }
    ensures { numbers.now ≡ scaled divisor result }
{
    let mut quotients = [0; 6];
    let numbers = numbers.as_slice();
    for (index, number) in numbers.iter().enumerate() {
        quotients[index] = *number / divisor;
    }
    Vector::from_slice(alloc, &quotients[..numbers.len()])
}

/// Whether the first number other than 0 is positive.
fn leads_positive(numbers: &[i64]) -> bool
    ensures { result ≡ leads_positive numbers.now }
{
    for number in numbers {
        if *number != 0 {
            return *number > 0;
        }
    }
    false
}
