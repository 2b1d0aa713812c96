//! The shortlex-least word that two states answer differently, read off the levels letter by letter.

ghost use Rattle.std.specs.Prelude.{◌≡◌, ◌≢◌, ℕ, ◌<◌, ◌≤◌, length, IfOk, MatchBool};
ghost use Rattle.fsm_core.specs.Machine.{IsMachine};
ghost use Rattle.charset.specs.inside.Levels.{level_at, AreAlikeOn, AreLevels, IsLeastApart, PartAt};

use crate::levels::Levels;
use fsm_core::Fsm;
use std::alloc::{AllocError, Global};

/// The names of one level.
fn level_of<'a>(fsm: &Fsm, levels: &'a Levels, level: usize) -> &'a [usize]
    requires levels { AreLevels fsm.now levels.now.names.items levels.now.last }
    requires level { level ≤ levels.now.last }
    ensures names { result.now ≡ level_at fsm.now.states levels.now.names.items level }
    ensures sound { IsMachine fsm.now }
{
    let states = fsm.states();
    &levels.names.as_slice()[level * states..(level + 1) * states]
}

/// The first level in which two states are of two groups.
fn parting_level(fsm: &Fsm, levels: &Levels, state: usize, other: usize) -> usize
    requires levels { AreLevels fsm.now levels.now.names.items levels.now.last }
    requires state { state < fsm.now.states }
    requires other { other < fsm.now.states }
    requires differ { state ≢ other }
    ensures parts { PartAt fsm.now state other result }
    ensures upto { result ≤ levels.now.last }
{
    let mut level = 0;
    while level_of(fsm, levels, level)[state] == level_of(fsm, levels, level)[other] {
        level += 1;
    }
    level
}

/// Whether a letter is answered alike and leads two states to one group.
fn are_alike_on(fsm: &Fsm, names: &[usize], letter: u16, state: usize, other: usize) -> bool
    requires size { length names.now ≡ fsm.now.states }
    requires letter { letter < fsm.now.letters }
    requires state { state < fsm.now.states }
    requires other { other < fsm.now.states }
    ensures { MatchBool result (AreAlikeOn fsm.now names.now letter state other)
        (¬ AreAlikeOn fsm.now names.now letter state other) }
{
    let (next, reply) = fsm.step(state, letter);
    let (other_next, other_reply) = fsm.step(other, letter);
    reply == other_reply && names[next] == names[other_next]
}

/// The first letter that tells two states apart.
fn parting_letter(fsm: &Fsm, names: &[usize], state: usize, other: usize) -> u16
    requires size { length names.now ≡ fsm.now.states }
    requires state { state < fsm.now.states }
    requires other { other < fsm.now.states }
    requires few { fsm.now.letters ≤ 4096 }
    requires some { ¬ ((a : ℕ) → a < fsm.now.letters → AreAlikeOn fsm.now names.now a state other) }
    ensures letter { result < fsm.now.letters }
    ensures apart { ¬ AreAlikeOn fsm.now names.now result state other }
    ensures first { (a : ℕ) → a < result → AreAlikeOn fsm.now names.now a state other }
{
    let mut letter = 0;
    while are_alike_on(fsm, names, letter, state, other) {
        letter += 1;
    }
    letter
}

/// The shortlex-least word that two states answer differently.
pub fn separating_word(
    alloc: Global,
    fsm: &Fsm,
    levels: &Levels,
    state: usize,
    other: usize,
) -> Result<Vec<u16>, AllocError>
    requires levels { AreLevels fsm.now levels.now.names.items levels.now.last }
    requires state { state < fsm.now.states }
    requires other { other < fsm.now.states }
    requires differ { state ≢ other }
    ensures least { IfOk result (λ w. IsLeastApart fsm.now state other w.items) }
    ensures short { IfOk result (λ w. length w.items < fsm.now.states) }
{
    let mut word = Vec::new(alloc);
    let mut first = state;
    let mut second = other;
    let mut level = parting_level(fsm, levels, state, other);
    while level > 0 {
        level -= 1;
        let letter = parting_letter(fsm, level_of(fsm, levels, level), first, second);
        word.push(letter)?;
        first = fsm.step(first, letter).0;
        second = fsm.step(second, letter).0;
    }
    Ok(word)
}
