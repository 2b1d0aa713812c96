//! The cover words in groups of those on which the marks so far agree.

ghost use Rattle.std.specs.Prelude.{◌≡◌, ◌≢◌, ℕ, ◌+◌, ◌*◌, ◌<◌, ◌≤◌, length, All, IfOk, MatchBool, MatchOption, slice_index};
ghost use Rattle.fsm_core.specs.Machine.{IsWord};
ghost use Rattle.fsm_core.specs.Answers.{numbers};
ghost use Rattle.charset.specs.inside.Levels.{AreAlikeBy, IsFirstPair, IsGrouping, IsLeader, NoPair};

use fsm_core::Fsm;
use std::alloc::{AllocError, Global};

/// Whether two states answer a word alike.
fn answer_alike(fsm: &Fsm, word: &[u16], state: usize, other: usize) -> bool
    requires word { IsWord fsm.now word.now }
    requires state { state < fsm.now.states }
    requires other { other < fsm.now.states }
    ensures { MatchBool result (numbers fsm.now state word.now ≡ numbers fsm.now other word.now)
        (numbers fsm.now state word.now ≢ numbers fsm.now other word.now) }
{
    let mut first = state;
    let mut second = other;
    for letter in word {
        let (next, reply) = fsm.step(first, *letter);
        let (other_next, other_reply) = fsm.step(second, *letter);
        if reply != other_reply {
            return false;
        }
        first = next;
        second = other_next;
    }
    true
}

/// Whether two places are of one group and their states answer a word alike.
fn are_alike_by(
    fsm: &Fsm,
    word: &[u16],
    states: &[usize],
    names: &[usize],
    place: usize,
    other: usize,
) -> bool
    requires word { IsWord fsm.now word.now }
    requires states { All (λ s. s < fsm.now.states) states.now }
    requires size { length names.now ≡ length states.now }
    requires place { place < length states.now }
    requires other { other < length states.now }
    ensures { MatchBool result (AreAlikeBy fsm.now states.now names.now word.now place other)
        (¬ AreAlikeBy fsm.now states.now names.now word.now place other) }
{
    names[place] == names[other] && answer_alike(fsm, word, states[place], states[other])
}

/// The leader of the group of a place among those before it.
fn leader_by(
    fsm: &Fsm,
    word: &[u16],
    states: &[usize],
    names: &[usize],
    finer: &[usize],
    place: usize,
) -> usize
    requires word { IsWord fsm.now word.now }
    requires states { All (λ s. s < fsm.now.states) states.now }
    requires size { length names.now ≡ length states.now }
    requires place { place < length states.now }
    requires done { length finer.now ≡ place }
    ensures { IsLeader finer.now (AreAlikeBy fsm.now states.now names.now word.now) place result }
{
    for other in 0..place {
        if finer[other] == other && are_alike_by(fsm, word, states, names, other, place) {
            return other;
        }
    }
    place
}

/// The groups, split by the answers to a word.
pub fn split_by(
    alloc: Global,
    fsm: &Fsm,
    word: &[u16],
    states: &[usize],
    names: &[usize],
) -> Result<Vec<usize>, AllocError>
    requires word { IsWord fsm.now word.now }
    requires states { All (λ s. s < fsm.now.states) states.now }
    requires size { length names.now ≡ length states.now }
    ensures { IfOk result (λ v.
        IsGrouping (length states.now) v.items (AreAlikeBy fsm.now states.now names.now word.now)) }
{
    let mut finer = Vec::new(alloc);
    for place in 0..states.len() {
        let leader = leader_by(fsm, word, states, names, finer.as_slice(), place);
        finer.push(leader)?;
    }
    Ok(finer)
}

/// The first place after another that has its name.
fn partner_of(names: &[usize], place: usize) -> Option<usize>
    requires { place < length names.now }
    ensures { MatchOption result
        ((j : ℕ) → place < j → j < length names.now → slice_index names.now place ≢ slice_index names.now j)
        (λ q. (place < q) × (q < length names.now) × (slice_index names.now place ≡ slice_index names.now q)
        × ((j : ℕ) → place < j → j < q → slice_index names.now place ≢ slice_index names.now j)) }
{
    for other in place + 1..names.len() {
        if names[other] == names[place] {
            return Some(other);
        }
    }
    None
}

/// The first pair of places, from a place on, that have one name.
pub fn first_pair(names: &[usize], from: usize) -> Option<(usize, usize)>
    ensures { MatchOption result (NoPair names.now from) (λ r. IsFirstPair names.now from r.0 r.1) }
{
    for place in from..names.len() {
        if let Some(other) = partner_of(names, place) {
            return Some((place, other));
        }
    }
    None
}
