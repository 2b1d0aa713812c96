//! The states of a machine in groups of those that answer the words of at most k letters alike, level by level.

ghost use Rattle.std.specs.Prelude.{◌≡◌, ℕ, ◌<◌, ◌≤◌, length, IfOk, MatchBool, slice_index};
ghost use Rattle.fsm_core.specs.Answers.{IsReduced};
ghost use Rattle.charset.specs.inside.Levels.{AreAlikeOnAll, AreLevels, IsGrouping, IsLeader};

use fsm_core::Fsm;
use std::alloc::{AllocError, Global};

/// The groups of all levels, one level after the other, and the number of the last level.
#[derive(Drop)]
pub struct Levels {
    pub names: Vec<usize>,
    pub last: usize,
}

/// Whether two states are of one group and each letter keeps them alike.
fn are_alike(fsm: &Fsm, names: &[usize], state: usize, other: usize) -> bool
    requires size { length names.now ≡ fsm.now.states }
    requires state { state < fsm.now.states }
    requires other { other < fsm.now.states }
    ensures { MatchBool result (AreAlikeOnAll fsm.now names.now state other)
        (¬ AreAlikeOnAll fsm.now names.now state other) }
{
    if names[state] != names[other] {
        return false;
    }
    for letter in 0..fsm.letters() as u16 {
        let (next, reply) = fsm.step(state, letter);
        let (other_next, other_reply) = fsm.step(other, letter);
        if reply != other_reply || names[next] != names[other_next] {
            return false;
        }
    }
    true
}

/// The leader of the group of a state among those before it.
fn leader_of(fsm: &Fsm, names: &[usize], finer: &[usize], state: usize) -> usize
    requires size { length names.now ≡ fsm.now.states }
    requires state { state < fsm.now.states }
    requires done { length finer.now ≡ state }
    ensures { IsLeader finer.now (AreAlikeOnAll fsm.now names.now) state result }
{
    for other in 0..state {
        if finer[other] == other && are_alike(fsm, names, other, state) {
            return other;
        }
    }
    state
}

/// The groups of the next level.
fn refined(alloc: Global, fsm: &Fsm, names: &[usize]) -> Result<Vec<usize>, AllocError>
    requires { length names.now ≡ fsm.now.states }
    ensures { IfOk result (λ v. IsGrouping fsm.now.states v.items (AreAlikeOnAll fsm.now names.now)) }
{
    let mut finer = Vec::new(alloc);
    for state in 0..fsm.states() {
        let leader = leader_of(fsm, names, finer.as_slice(), state);
        finer.push(leader)?;
    }
    Ok(finer)
}

/// Whether each state is alone in its group.
fn are_alone(names: &[usize]) -> bool
    ensures { MatchBool result ((s : ℕ) → s < length names.now → slice_index names.now s ≡ s)
        (¬ ((s : ℕ) → s < length names.now → slice_index names.now s ≡ s)) }
{
    for (state, name) in names.iter().enumerate() {
        if *name != state {
            return false;
        }
    }
    true
}

/// The levels of a machine, up to the one in which each state is alone.
pub fn levels_of(alloc: Global, fsm: &Fsm) -> Result<Levels, AllocError>
    requires { IsReduced fsm.now }
    ensures { IfOk result (λ r. AreLevels fsm.now r.names.items r.last) }
{
    let mut names = vec![in alloc; 0; fsm.states()]?;
    let mut all = Vec::from_slice(alloc, names.as_slice())?;
    let mut last = 0;
    while !are_alone(names.as_slice()) {
        names = refined(alloc, fsm, names.as_slice())?;
        all.extend_from_slice(names.as_slice())?;
        last += 1;
    }
    Ok(Levels { names: all, last })
}
