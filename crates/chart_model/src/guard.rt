ghost use Rattle.std.specs.Prelude.{◌≡◌, ◌++◌, IfOk, OnOk, length, map};
ghost use Rattle.lin_form.specs.Range.{AreWithin};
ghost use Rattle.chart_model.specs.Guard.{comparisons_of, plain, truth_of_guard, IsReadableGuard};

use lin_form::{Comparison, Vector, holds, holds_within};
use std::alloc::{AllocError, Global};
use std::marker::Model;

/// A condition on the input vector and the memories. Chains of `and` and of `or` associate to the left.
#[derive(Drop)]
pub enum Guard {
    Test(Comparison),
    Not(Box<Guard>),
    And(Box<Guard>, Box<Guard>),
    Or(Box<Guard>, Box<Guard>),
}

/// The guard of a transition, which contracts see as its tree, wherever it lies in memory.
#[derive(Drop)]
pub struct Condition {
    guard: Guard,
}

impl Model for Condition {
    ghost use Rattle.lin_form.specs.Trees.{Tree};
    ghost use Rattle.lin_form.specs.declared.form.Comparison.{Comparison};
    ghost use Rattle.chart_model.specs.Guard.{plain, guard_code};

    ghost Value = { Tree Comparison };

    ghost coded = { guard_code };

    ghost view = { λ condition. plain condition.guard };
}

impl Condition {
    pub fn new(guard: Guard) -> Condition
        ensures { result ≡ plain guard }
    {
        Condition { guard }
    }

    pub fn guard(&self) -> &Guard
        ensures { plain result.now ≡ self.now }
    {
        &self.guard
    }

    /// Whether it is true for an input vector and the memories' values.
    pub fn is_true(&self, vector: &Vector, memory: &[i64; 4]) -> bool
        requires { IsReadableGuard (length vector.now) self.now }
        ensures { result ≡ truth_of_guard self.now vector.now memory.now }
    {
        guard_holds(&self.guard, vector, memory)
    }

    /// Whether it is true, as `is_true` says, for numbers of ranges: in 64 bits.
    pub fn is_true_within(&self, vector: &Vector, memory: &[i64; 4]) -> bool
        requires readable { IsReadableGuard (length vector.now) self.now }
        requires numbers { AreWithin 1000000 vector.now }
        requires values { AreWithin 1000 memory.now }
        ensures { result ≡ truth_of_guard self.now vector.now memory.now }
    {
        match &self.guard {
            Guard::Test(comparison) => holds_within(comparison, vector, memory),
            guard => guard_holds_within(guard, vector, memory),
        }
    }

    /// The comparisons in written order.
    pub fn comparisons(&self, alloc: Global) -> Result<Vec<&Comparison>, AllocError>
        ensures { IfOk result (λ found. map (λ comparison. comparison.now) found.items ≡ comparisons_of self.now) }
    {
        let mut found = Vec::new(alloc);
        self.add_comparisons(&mut found)?;
        Ok(found)
    }

    /// Puts the comparisons in written order behind others.
    pub fn add_comparisons<'a>(&'a self, found: &mut Vec<&'a Comparison>) -> Result<(), AllocError>
        ensures { OnOk result (map (λ comparison. comparison.now) found.new.items
            ≡ map (λ comparison. comparison.now) found.old.items ++ comparisons_of self.now) }
    {
        add_comparisons(&self.guard, found)
    }
}

/// Puts the comparisons of a guard behind those found so far.
fn add_comparisons<'a>(guard: &'a Guard, found: &mut Vec<&'a Comparison>) -> Result<(), AllocError>
    ensures { OnOk result (map (λ comparison. comparison.now) found.new.items
        ≡ map (λ comparison. comparison.now) found.old.items ++ comparisons_of (plain guard.now)) }
{
    match guard {
        Guard::Test(comparison) => found.push(comparison)?,
        Guard::Not(inner) => add_comparisons(inner, found)?,
        Guard::And(left, right) => {
            add_comparisons(left, found)?;
            add_comparisons(right, found)?;
        }
        Guard::Or(left, right) => {
            add_comparisons(left, found)?;
            add_comparisons(right, found)?;
        }
    }
    Ok(())
}

/// Whether the guard is true for an input vector and the memories' values.
pub fn guard_holds(guard: &Guard, vector: &Vector, memory: &[i64; 4]) -> bool
    requires { IsReadableGuard (length vector.now) (plain guard.now) }
    ensures { result ≡ truth_of_guard (plain guard.now) vector.now memory.now }
{
    match guard {
        Guard::Test(comparison) => holds(comparison, vector, memory),
        Guard::Not(inner) => !guard_holds(inner, vector, memory),
        Guard::And(left, right) => {
            guard_holds(left, vector, memory) && guard_holds(right, vector, memory)
        }
        Guard::Or(left, right) => {
            guard_holds(left, vector, memory) || guard_holds(right, vector, memory)
        }
    }
}

/// Whether the guard is true, as `guard_holds` says, for numbers of ranges: in 64 bits. The right side of `and` and `or`
/// comes first, a comparison at once, so that a chain is gone through in a loop.
pub fn guard_holds_within(guard: &Guard, vector: &Vector, memory: &[i64; 4]) -> bool
    requires readable { IsReadableGuard (length vector.now) (plain guard.now) }
    requires numbers { AreWithin 1000000 vector.now }
    requires values { AreWithin 1000 memory.now }
    ensures { result ≡ truth_of_guard (plain guard.now) vector.now memory.now }
{
    match guard {
        Guard::Test(comparison) => holds_within(comparison, vector, memory),
        Guard::Not(inner) => !guard_holds_within(inner, vector, memory),
        Guard::And(left, right) => match &**right {
            Guard::Test(comparison) => {
                holds_within(comparison, vector, memory) && guard_holds_within(left, vector, memory)
            }
            right => {
                guard_holds_within(right, vector, memory)
                    && guard_holds_within(left, vector, memory)
            }
        },
        Guard::Or(left, right) => match &**right {
            Guard::Test(comparison) => {
                holds_within(comparison, vector, memory) || guard_holds_within(left, vector, memory)
            }
            right => {
                guard_holds_within(right, vector, memory)
                    || guard_holds_within(left, vector, memory)
            }
        },
    }
}
