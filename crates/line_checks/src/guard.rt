ghost use Rattle.std.specs.Prelude.{◌≡◌, ◌+◌, ◌<◌, ◌≤◌, IfOk, MatchOption};
ghost use Rattle.lin_form.specs.Trees as tree;
ghost use Rattle.chart_model.specs.Guard.{plain};
ghost use Rattle.line_forms.specs.Trees as written;
ghost use Rattle.line_forms.specs.Limits.{AreSmallTests};
ghost use Rattle.line_checks.specs.Answers.{Resolves};
ghost use Rattle.line_checks.specs.Guards.{guard_check, guard_of};

use crate::scope::{NameFault, Scope};
use crate::sum::comparison;
use chart_model::Guard;
use std::alloc::{AllocError, Global};

/// Why a guard is not resolved.
#[derive(Drop)]
pub enum Unresolved {
    Fault(NameFault),
    Memory,
}

fn negation(alloc: Global, guard: Guard) -> Result<Guard, AllocError>
    ensures { IfOk result (λ g. plain g ≡ tree.not (plain guard)) }
{
    Ok(Guard::Not(Box::new(alloc, guard)?))
}

fn conjunction(alloc: Global, first: Guard, second: Guard) -> Result<Guard, AllocError>
    ensures { IfOk result (λ g. plain g ≡ tree.and (plain first) (plain second)) }
{
    let first = Box::new(alloc, first)?;
    let second = Box::new(alloc, second)?;
    Ok(Guard::And(first, second))
}

fn disjunction(alloc: Global, first: Guard, second: Guard) -> Result<Guard, AllocError>
    ensures { IfOk result (λ g. plain g ≡ tree.or (plain first) (plain second)) }
{
    let first = Box::new(alloc, first)?;
    let second = Box::new(alloc, second)?;
    Ok(Guard::Or(first, second))
}

/// The guard over what is declared.
pub fn resolved<S: Scope>(
    alloc: Global,
    scope: &S,
    width: usize,
    guard: &line_forms::GuardTree,
) -> Result<Guard, Unresolved>
    requires few { width ≤ 6 }
    requires small { AreSmallTests (written.plain guard.now) }
    ensures { Resolves plain (guard_check (S.names scope.now) (written.plain guard.now))
        (guard_of (S.names scope.now) width (written.plain guard.now)) result }
{
    match guard {
        line_forms::GuardTree::Test(test) => match comparison(alloc, scope, width, test) {
            Ok(comparison) => Ok(Guard::Test(comparison)),
            Err(fault) => Err(Unresolved::Fault(fault)),
        },
        line_forms::GuardTree::Not(inner) => {
            let inner = resolved(alloc, scope, width, inner)?;
            match negation(alloc, inner) {
                Ok(guard) => Ok(guard),
                Err(_) => Err(Unresolved::Memory),
            }
        }
        line_forms::GuardTree::And(first, second) => {
            let first = resolved(alloc, scope, width, first)?;
            let second = resolved(alloc, scope, width, second)?;
            match conjunction(alloc, first, second) {
                Ok(guard) => Ok(guard),
                Err(_) => Err(Unresolved::Memory),
            }
        }
        line_forms::GuardTree::Or(first, second) => {
            let first = resolved(alloc, scope, width, first)?;
            let second = resolved(alloc, scope, width, second)?;
            match disjunction(alloc, first, second) {
                Ok(guard) => Ok(guard),
                Err(_) => Err(Unresolved::Memory),
            }
        }
    }
}

/// How many more comparisons a guard may have of so many, or None where it has more.
pub fn comparisons_left(guard: &line_forms::GuardTree, most: usize) -> Option<usize>
    ensures { MatchOption result (most < written.tests_of (written.plain guard.now))
        (λ left. written.tests_of (written.plain guard.now) + left ≡ most) }
{
    match guard {
        line_forms::GuardTree::Test(_) => most.checked_sub(1),
        line_forms::GuardTree::Not(inner) => comparisons_left(inner, most),
        line_forms::GuardTree::And(first, second) => {
            let left = comparisons_left(first, most)?;
            comparisons_left(second, left)
        }
        line_forms::GuardTree::Or(first, second) => {
            let left = comparisons_left(first, most)?;
            comparisons_left(second, left)
        }
    }
}
