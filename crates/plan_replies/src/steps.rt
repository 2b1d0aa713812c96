//! The steps of a plan that were made, each once, with numbers for states and steps.
ghost use Rattle.std.specs.Prelude.{◌≡◌, ◌≢◌, ℕ, ◌+◌, ◌<◌, ◌≤◌, ◌^◌, true, [], length, slice_get, slice_index, IfOk, OnOk, Some};
ghost use Rattle.std.specs.List.{All};
ghost use Rattle.lin_form.specs.Signature.{IsInInputRanges};
ghost use Rattle.plan_replies.specs.inside.Steps.{AreSteps, IsNumbered, MakesStep};

use indexmap::IndexSet;
use lin_form::{Reply, Vector};
use std::alloc::{AllocError, Global};
use std::hash::Hash;
use subject::{Plan, reaching};

/// The steps that were made: the states by number, and for each step the number of the next state, and its reply. `met`
/// has one more than the step's number at the number of the pair of a state's number and a letter, or 0.
#[derive(Drop)]
pub struct Steps<S: Copy + Eq + Hash> {
    pub states: IndexSet<S>,
    pub met: Vec<u32>,
    pub nexts: Vec<u32>,
    pub replies: Vec<Reply>,
}

/// No step yet, and the start with the number 0.
pub fn no_steps<P: Plan>(
    alloc: Global,
    classes: &[Vector],
    plan: &P,
) -> Result<Steps<P::State>, AllocError>
    ensures are { IfOk result (λ s. AreSteps (P.plan plan.now) classes.now
        s.states.keys s.met.items s.nexts.items s.replies.items) }
    ensures none { IfOk result (λ s. length s.nexts.items ≡ 0) }
{
    reaching(plan);
    let mut states = IndexSet::new(alloc);
    let _start = number_of(&mut states, plan.begin())?;
    Ok(Steps {
        states,
        met: Vec::new(alloc),
        nexts: Vec::new(alloc),
        replies: Vec::new(alloc),
    })
}

/// The number of the step from the state with a number by the witness of a letter. The step is made where it was not
/// made before.
pub fn step_from<P: Plan>(
    steps: &mut Steps<P::State>,
    at: u32,
    letter: u16,
    classes: &[Vector],
    plan: &P,
) -> Result<u32, AllocError>
    requires are { AreSteps (P.plan plan.now) classes.now
        steps.old.states.keys steps.old.met.items steps.old.nexts.items steps.old.replies.items }
    requires at { at < length steps.old.states.keys }
    requires letter { letter < length classes.now }
    requires few { length classes.now ≤ 2 ^ 16 }
    requires room { length steps.old.nexts.items + 1 < u32.MAX }
    requires vectors { All (IsInInputRanges (P.plan plan.now).signature.inputs) classes.now }
    ensures { IfOk result (λ n. MakesStep (P.plan plan.now) classes.now
        steps.old.states.keys steps.old.nexts.items steps.old.replies.items
        steps.new.states.keys steps.new.met.items steps.new.nexts.items steps.new.replies.items at letter n) }
{
    let pair = at as usize * classes.len() + letter as usize;
    let known = number_at(steps.met.as_slice(), pair);
    if known > 0 {
        return Ok(known - 1);
    }
    reaching(plan);
    let state = steps.states.as_slice()[at as usize];
    let made = plan.advance(&state, &classes[letter as usize]);
    let next = number_of(&mut steps.states, made.state)?;
    let number = steps.nexts.len() as u32;
    steps.nexts.push(next)?;
    steps.replies.push(made.reply)?;
    put_number(&mut steps.met, pair, number + 1)?;
    Ok(number)
}

/// The number at a place, or 0 where there is none.
fn number_at(numbers: &[u32], place: usize) -> u32
    ensures { result ≡ slice_index numbers.now place }
{
    match numbers.get(place) {
        Some(number) => *number,
        None => 0,
    }
}

/// Puts a number at a place. The places before it that were not there have 0.
fn put_number(numbers: &mut Vec<u32>, place: usize, number: u32) -> Result<(), AllocError>
    requires { place < 2 ^ 63 }
    ensures here { OnOk result (slice_index numbers.new.items place ≡ number) }
    ensures others { OnOk result ((other : ℕ) → other ≢ place
        → slice_index numbers.new.items other ≡ slice_index numbers.old.items other) }
{
    if place >= numbers.len() {
        numbers.resize(place + 1, 0)?;
    }
    numbers[place] = number;
    Ok(())
}

/// The number of a key, which is put in where it is not there.
fn number_of<K: Copy + Eq + Hash>(keys: &mut IndexSet<K>, key: K) -> Result<u32, AllocError>
    requires { length keys.old.keys < u32.MAX }
    ensures { IfOk result (λ n. ((x y : K) → K.eq x y ≡ true → x ≡ y) → IsNumbered keys.old.keys key keys.new.keys n) }
{
    let found = keys.insert_full(key)?;
    Ok(found.0 as u32)
}
