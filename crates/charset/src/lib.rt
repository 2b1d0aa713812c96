//! The characterisation set of a reduced machine (Chow 1978).
#![tactic(auto)]

ghost use Rattle.std.specs.Prelude.{◌≡◌, ◌≢◌, ℕ, ◌+◌, ◌-◌, ◌*◌, ◌≤◌, ◌<◌, List, [], ◌∷◌, length, map, max, All, IfOk, Some, slice_get, slice_index};
ghost use Rattle.fsm_core.specs.Machine.{IsMachine, IsWord, state_after};
ghost use Rattle.fsm_core.specs.Answers.{IsReduced};
ghost use Rattle.word_pool.specs.Words.{word, words_at, AddsPrefixesOf, AreIds, Keeps};
ghost use Rattle.state_cover.specs.Cover.{IsCover};
ghost use Rattle.charset.specs.inside.Levels.{answer_at, AreStates};
ghost use Rattle.suite_words.specs.Marks.{AreMarksBy};
ghost use Rattle.charset.specs.Marks.{AreMarks};

mod groups;
mod laws;
mod levels;
mod separating;

use fsm_core::Fsm;
use groups::{first_pair, split_by};
pub use laws::marks_are_few_and_short;
use levels::levels_of;
use separating::separating_word;
use state_cover::CoverWords;
use std::alloc::{AllocError, Global};
use std::marker::Model;
use word_pool::{Pool, WordId};

/// The marks of a cover: words that separate its states.
#[derive(Drop)]
pub struct Marks {
    words: Vec<WordId>,
}

impl Model for Marks {
    ghost use Rattle.std.specs.Prelude.{ℕ, List};

    ghost Value = { List ℕ };

    ghost view = { λ m. m.words.items };
}

impl Marks {
    /// The words in the order in which they were found.
    pub fn words(&self) -> &[WordId]
        ensures { result.now ≡ self.now }
    {
        self.words.as_slice()
    }
}

/// The state to which a word leads from the start.
fn state_of(alloc: Global, fsm: &Fsm, pool: &Pool, id: WordId) -> Result<usize, AllocError>
    requires id { id < length pool.now.words }
    requires word { IsWord fsm.now (word pool.now.words id) }
    ensures state { IfOk result (λ s. s ≡ state_after fsm.now 0 (word pool.now.words id)) }
    ensures inside { IfOk result (λ s. s < fsm.now.states) }
{
    let mut letters = vec![in alloc; 0; pool.length(id)]?;
    pool.letters(id, letters.as_mut_slice());
    let states = fsm.states();
    Ok(fsm.follow(0, letters.as_slice()))
}

/// The states to which the words of a cover lead.
fn states_of(
    alloc: Global,
    fsm: &Fsm,
    pool: &Pool,
    ids: &[WordId],
) -> Result<Vec<usize>, AllocError>
    requires ids { AreIds pool.now.words ids.now }
    requires words { All (IsWord fsm.now) (words_at pool.now.words ids.now) }
    ensures states { IfOk result (λ v. v.items ≡ map (state_after fsm.now 0) (words_at pool.now.words ids.now)) }
    ensures inside { IfOk result (λ v. All (λ s. s < fsm.now.states) v.items) }
{
    let mut states = Vec::new(alloc);
    for id in ids {
        states.push(state_of(alloc, fsm, pool, *id)?)?;
    }
    Ok(states)
}

/// The marks of the states of a cover, where there are two states or more.
fn marks_of(
    alloc: Global,
    fsm: &Fsm,
    states: &[usize],
    pool: &mut Pool,
) -> Result<Vec<WordId>, AllocError>
    requires reduced { IsReduced fsm.now }
    requires states { AreStates fsm.now states.now }
    requires many { 1 < fsm.now.states }
    requires few { length pool.old.words ≤ 2000000000 }
    ensures marks { IfOk result (λ v.
        AreMarksBy (answer_at fsm.now states.now) fsm.now.states fsm.now.letters (words_at pool.new.words v.items)) }
    ensures keeps { Keeps pool.old.words pool.new.words }
    ensures only { IfOk result (λ v. AddsPrefixesOf pool.old.words (words_at pool.new.words v.items) pool.new.words) }
    ensures grown { IfOk result (λ v. length pool.new.words ≤ length pool.old.words + 1048576) }
    ensures ids { IfOk result (λ v. AreIds pool.new.words v.items) }
    ensures count { IfOk result (λ v. length v.items < fsm.now.states) }
    ensures short { IfOk result (λ v. All (λ w. length w < fsm.now.states) (words_at pool.new.words v.items)) }
{
    let levels = levels_of(alloc, fsm)?;
    let mut names = vec![in alloc; 0; fsm.states()]?;
    let mut words = Vec::new(alloc);
    let mut from = 0;
    while let Some((first, second)) = first_pair(names.as_slice(), from) {
        let word = separating_word(alloc, fsm, &levels, states[first], states[second])?;
        names = split_by(alloc, fsm, word.as_slice(), states, names.as_slice())?;
        let root = pool.root();
        words.push(pool.enter(root, word.as_slice())?)?;
        from = first;
    }
    Ok(words)
}

/// The characterisation set of a reduced machine (Chow 1978), as marks of its cover.
///
/// While two cover words are separated by no mark found so far, the next mark is the first word in shortlex order that
/// separates the first such pair. The only mark of one state is the empty word. Where memory ends, the pool may have
/// more words than before.
pub fn charset(
    alloc: Global,
    fsm: &Fsm,
    cover: &CoverWords,
    pool: &mut Pool,
) -> Result<Marks, AllocError>
    requires reduced { IsReduced fsm.now }
    requires ids { AreIds pool.old.words cover.now }
    requires cover { IsCover fsm.now (words_at pool.old.words cover.now) }
    requires few { length pool.old.words ≤ 2000000000 }
    ensures marks { IfOk result (λ v.
        AreMarks fsm.now (words_at pool.new.words cover.now) (words_at pool.new.words v)) }
    ensures ids { IfOk result (λ v. AreIds pool.new.words v) }

    // There are at most as many marks, and each has at most as many letters.
    ensures count { IfOk result (λ v. length v ≤ max 1 (fsm.now.states - 1)) }
    ensures short { IfOk result (λ v. All (λ w. length w ≤ fsm.now.states - 1) (words_at pool.new.words v)) }

    // The pool keeps its words, and only marks and prefixes of marks are added.
    ensures keeps { Keeps pool.old.words pool.new.words }
    ensures only { IfOk result (λ v. AddsPrefixesOf pool.old.words (words_at pool.new.words v) pool.new.words) }
    ensures grown { IfOk result (λ v. length pool.new.words ≤ length pool.old.words + 1048576) }
{
    if fsm.states() == 1 {
        let mut words = Vec::new(alloc);
        words.push(pool.root())?;
        return Ok(Marks { words });
    }
    let states = states_of(alloc, fsm, pool, cover.words())?;
    let words = marks_of(alloc, fsm, states.as_slice(), pool)?;
    Ok(Marks { words })
}
