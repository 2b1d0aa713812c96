//! Copies, each equal to what it copies. The error is want of memory.
ghost use Rattle.std.specs.Prelude.{◌≡◌, IfOk};
ghost use Rattle.chart_model.specs.Guard.{plain};

use crate::action::Action;
use crate::chart::Chart;
use crate::guard::{Condition, Guard};
use crate::state::State;
use crate::transition::Transition;
use lin_form::{Comparison, Form, Inputs, Names, Signature};
use sqlite_items::Items;
use std::alloc::{AllocError, Global};

/// A part of a chart, which can be copied.
pub trait Copied: Drop {
    /// A part equal to this one.
    fn copy(&self, alloc: Global) -> Result<Self, AllocError>
        ensures { IfOk result (λ copy. copy ≡ self.now) };
}

impl Chart {
    /// A chart equal to this one.
    pub fn copy(&self, alloc: Global) -> Result<Chart, AllocError>
        ensures { IfOk result (λ copy. copy ≡ self.now) }
    {
        Ok(Chart {
            signature: copy_of_signature(alloc, &self.signature)?,
            initial: self.initial,
            assumed: copies(alloc, self.assumed.as_slice())?,
            memories: Items::from_slice(alloc, self.memories.as_slice())?,
            states: copies(alloc, self.states.as_slice())?,
            transitions: copies(alloc, self.transitions.as_slice())?,
        })
    }
}

impl Copied for Transition {
    fn copy(&self, alloc: Global) -> Result<Transition, AllocError> {
        let guard = match &self.guard {
            Some(condition) => Some(condition.copy(alloc)?),
            None => None,
        };
        Ok(Transition {
            source: self.source,
            guard,
            effect: copies(alloc, self.effect.as_slice())?,
            target: self.target,
            history: self.history,
        })
    }
}

impl Copied for State {
    fn copy(&self, alloc: Global) -> Result<State, AllocError> {
        Ok(State {
            name: self.name,
            parent: self.parent,
            start: self.start,
            entry: copies(alloc, self.entry.as_slice())?,
            exit: copies(alloc, self.exit.as_slice())?,
        })
    }
}

impl Copied for Condition {
    fn copy(&self, alloc: Global) -> Result<Condition, AllocError> {
        Ok(Condition::new(copy_of_guard(alloc, self.guard())?))
    }
}

impl Copied for Action {
    fn copy(&self, _alloc: Global) -> Result<Action, AllocError> {
        Ok(Action {
            place: self.place,
            value: copy_of_form(&self.value)?,
        })
    }
}

impl Copied for Comparison {
    fn copy(&self, _alloc: Global) -> Result<Comparison, AllocError> {
        copy_of_comparison(self)
    }
}

/// The copies of these parts, in order.
pub fn copies<T: Copied>(alloc: Global, parts: &[T]) -> Result<Items<T>, AllocError>
    ensures { IfOk result (λ copies. copies ≡ parts.now) }
{
    let mut copies = Vec::with_capacity(alloc, parts.len())?;
    for part in parts {
        copies.push(part.copy(alloc)?)?;
    }
    Ok(Items::from_vec(copies))
}

fn copy_of_signature(alloc: Global, signature: &Signature) -> Result<Signature, AllocError>
    ensures { IfOk result (λ copy. copy ≡ signature.now) }
{
    let inputs = signature.inputs.as_slice().to_vec(alloc)?;
    let outputs = signature.outputs.as_slice().to_vec(alloc)?;
    Ok(Signature {
        inputs: Inputs::from_vec(inputs),
        outputs: Names::from_vec(outputs),
    })
}

/// A guard with the same tree.
fn copy_of_guard(alloc: Global, guard: &Guard) -> Result<Guard, AllocError>
    ensures { IfOk result (λ copy. plain copy ≡ plain guard.now) }
{
    match guard {
        Guard::Test(comparison) => Ok(Guard::Test(copy_of_comparison(comparison)?)),
        Guard::Not(inner) => {
            let inner = copy_of_guard(alloc, inner)?;
            Ok(Guard::Not(Box::new(alloc, inner)?))
        }
        Guard::And(left, right) => {
            let left = copy_of_guard(alloc, left)?;
            let right = copy_of_guard(alloc, right)?;
            Ok(Guard::And(Box::new(alloc, left)?, Box::new(alloc, right)?))
        }
        Guard::Or(left, right) => {
            let left = copy_of_guard(alloc, left)?;
            let right = copy_of_guard(alloc, right)?;
            Ok(Guard::Or(Box::new(alloc, left)?, Box::new(alloc, right)?))
        }
    }
}

fn copy_of_comparison(comparison: &Comparison) -> Result<Comparison, AllocError>
    ensures { IfOk result (λ copy. copy ≡ comparison.now) }
{
    Ok(Comparison {
        form: copy_of_form(&comparison.form)?,
        relation: comparison.relation,
    })
}

fn copy_of_form(form: &Form) -> Result<Form, AllocError>
    ensures { IfOk result (λ copy. copy ≡ form.now) }
{
    Ok(Form {
        inputs: form.inputs.clone()?,
        memory: form.memory,
        constant: form.constant,
    })
}
