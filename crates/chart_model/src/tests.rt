//! The truth of a guard with every operator, over the values of two memories.
ghost use Rattle.std.specs.Prelude.{◌≤◌, IfOk};
ghost use Rattle.lin_form.specs.Form.{size_of};
ghost use Rattle.chart_model.specs.Guard.{plain, IsReadableGuard};

use crate::{Guard, guard_holds, guard_holds_within};
use lin_form::{Comparison, Form, Relation, Vector};
use std::alloc::{AllocError, Global};
use std::test::Fail;

/// The guard that some memory is at least 1.
fn is_set(alloc: Global, memory: [i64; 4]) -> Guard
    requires { size_of memory ≤ 900000000 }
    ensures { IsReadableGuard 1 (plain result) }
{
    Guard::Test(Comparison {
        form: Form {
            inputs: Vector::from_slice(alloc, &[0]),
            memory,
            constant: -1,
        },
        relation: Relation::GreaterOrEqual,
    })
}

/// The first memory is set, or it is not and the second is.
fn exactly_as_or(alloc: Global) -> Result<Guard, AllocError>
    ensures { IfOk result (λ guard. IsReadableGuard 1 (plain guard)) }
{
    let unset = Guard::Not(Box::new(alloc, is_set(alloc, [1, 0, 0, 0]))?);
    let second = Box::new(alloc, is_set(alloc, [0, 1, 0, 0]))?;
    let other = Guard::And(Box::new(alloc, unset)?, second);
    let first = Box::new(alloc, is_set(alloc, [1, 0, 0, 0]))?;
    Ok(Guard::Or(first, Box::new(alloc, other)?))
}

#[test]
fn operators(rt: HostRuntime) -> Result<(), Fail> {
    let guard = exactly_as_or(rt.alloc())?;
    let vector = Vector::from_slice(rt.alloc(), &[0]);
    for (first, second, want) in [(0, 0, false), (0, 1, true), (1, 0, true), (1, 1, true)] {
        let memory = [first, second, 0, 0];
        assert_eq!(rt; guard_holds(&guard, &vector, &memory), want);
        assert_eq!(rt; guard_holds_within(&guard, &vector, &memory), want);
    }
    Ok(())
}
