//! The words of a suite (Chow 1978): cover word, middle word, mark.
#![tactic(auto)]

ghost use Rattle.std.specs.Prelude.{◌≡◌, ℕ, ◌+◌, ◌-◌, ◌*◌, max, ◌≤◌, ◌<◌, List, [], ◌++◌, length, All, Contains, IfErr, IfOk, OnOk, MatchResult};
ghost use Rattle.word_pool.specs.Words.{words_at, AreIds, ArePrefixesOf, Keeps};
ghost use Rattle.state_cover.specs.Cover.{IsCover};
ghost use Rattle.charset.specs.Marks.{AreMarks};
ghost use Rattle.suite_build.specs.inside.Entered.{letters_of};
ghost use Rattle.suite_words.specs.Tests.{AreTests};
ghost use Rattle.suite_build.specs.Steps.{steps, words_upto};
ghost use Rattle.suite_build.specs.Refusals.{AreSteps, IsRefusal, IsRefusalOrMemory};

mod products;

use charset::{Marks, marks_are_few_and_short};
use fsm_core::Fsm;
use products::{enter_all, letters_at};
use state_cover::CoverWords;
use std::alloc::{AllocError, Global};
use word_pool::{Pool, WordId};

/// Why no suite was built.
#[derive(Debug, Drop, PartialEq)]
pub enum BuildError {
    /// The bound is below the number of states.
    BoundBelow { n: usize },
    /// The product of steps is above 20,000,000.
    TooManySteps,
    Memory,
}

/// The most marks that a number of states has.
fn most_marks(states: usize) -> usize
    ensures { result ≡ max 1 (states - 1) }
{
    if states <= 1 { 1 } else { states - 1 }
}

/// The product of steps, within which each suite of a machine has at most so many.
pub fn steps_of(states: usize, letters: usize, bound: usize) -> Result<usize, BuildError>
    requires some_states { 0 < states }
    requires few_states { states ≤ 1024 }
    requires some_letters { 0 < letters }
    requires few_letters { letters ≤ 4096 }
    requires bound { bound ≤ 1024 }
    ensures { MatchResult result (AreSteps states letters bound) (IsRefusal states letters bound) }
{
    if bound < states {
        return Err(BuildError::BoundBelow { n: states });
    }
    let more = bound - states;
    let mut words = 1;
    for depth in 0..more + 1 {
        words = 1 + letters * words;
        if words > 20_000_000 {
            return Err(BuildError::TooManySteps);
        }
    }
    let steps = states * words * most_marks(states) * (2 * states + more);
    if steps > 20_000_000 {
        return Err(BuildError::TooManySteps);
    }
    Ok(steps)
}

/// The words of a suite.
#[derive(Drop)]
pub struct Letters {
    pub bound: usize,
    pub cover: CoverWords,
    pub marks: Marks,
    pub tests: Vec<WordId>,
}

/// Enters the products, and gives the words that are a proper prefix of no other.
fn tests_of(
    alloc: Global,
    letters: usize,
    cover: &CoverWords,
    marks: &Marks,
    depth: usize,
    steps: usize,
    pool: &mut Pool,
) -> Result<Vec<WordId>, AllocError>
    requires cover_ids { AreIds pool.old.words cover.now }
    requires mark_ids { AreIds pool.old.words marks.now }
    requires letters { letters ≤ 4096 }
    requires some { 0 < length marks.now }
    requires empty { Contains (words_at pool.old.words cover.now) [] }
    requires front { ArePrefixesOf pool.old.words
        (words_at pool.old.words cover.now ++ words_at pool.old.words marks.now) }
    requires room { length pool.old.words +
        length cover.now * ((letters_of (words_at pool.old.words marks.now) + 1) * words_upto letters depth) ≤ u32.MAX }
    ensures keeps { Keeps pool.old.words pool.new.words }
    ensures ids { IfOk result (λ v. AreIds pool.new.words v.items) }
    ensures tests { IfOk result (λ v.
        AreTests letters (words_at pool.old.words cover.now) (words_at pool.old.words marks.now) depth
        (words_at pool.new.words v.items)) }
    ensures prefixes { IfOk result (λ v. ArePrefixesOf pool.new.words (words_at pool.new.words v.items)) }
{
    pool.reserve(steps)?;
    let words = letters_at(alloc, pool, marks.words())?;
    enter_all(pool, cover.words(), letters, words.as_slice(), depth)?;
    let tests = pool.walk(alloc)?;
    Ok(tests)
}

/// The words of a suite for the bound `m` and a machine of n states (W-method, Chow 1978): each product of a cover word, a
/// word of at most `m - n + 1` letters and a mark that is a proper prefix of no other.
///
/// Where it fails, the pool may have more words than before.
pub fn build(
    alloc: Global,
    fsm: &Fsm,
    cover: CoverWords,
    marks: Marks,
    m: usize,
    pool: &mut Pool,
) -> Result<Letters, BuildError>
    requires bound { m ≤ 1024 }
    requires cover_ids { AreIds pool.old.words cover }
    requires cover { IsCover fsm.now (words_at pool.old.words cover) }
    requires mark_ids { AreIds pool.old.words marks }
    requires marks { AreMarks fsm.now (words_at pool.old.words cover) (words_at pool.old.words marks) }
    requires few { length pool.old.words ≤ 2000000000 }
    requires front { ArePrefixesOf pool.old.words (words_at pool.old.words cover ++ words_at pool.old.words marks) }
    ensures refusal { IfErr result (IsRefusalOrMemory fsm.now.states fsm.now.letters m) }
    ensures steps { OnOk result ((fsm.now.states ≤ m) × (steps fsm.now.states fsm.now.letters m ≤ 20000000)) }
    ensures bound { IfOk result (λ r. r.bound ≡ m) }
    ensures cover { IfOk result (λ r. r.cover ≡ cover) }
    ensures marks { IfOk result (λ r. r.marks ≡ marks) }
    ensures ids { IfOk result (λ r. AreIds pool.new.words r.tests.items) }

    // The tests are the products that are a proper prefix of no other, each once, ascending.
    ensures tests { IfOk result (λ r.
        AreTests fsm.now.letters (words_at pool.new.words cover) (words_at pool.new.words marks)
        (m - fsm.now.states + 1) (words_at pool.new.words r.tests.items)) }

    // The pool keeps its words, and each of them is a prefix of a test.
    ensures prefixes { IfOk result (λ r. ArePrefixesOf pool.new.words (words_at pool.new.words r.tests.items)) }
    ensures keeps { Keeps pool.old.words pool.new.words }
{
    marks_are_few_and_short();
    let steps = steps_of(fsm.states(), fsm.letters(), m)?;
    let depth = m - fsm.states() + 1;
    match tests_of(alloc, fsm.letters(), &cover, &marks, depth, steps, pool) {
        Ok(tests) => Ok(Letters {
            bound: m,
            cover,
            marks,
            tests,
        }),
        Err(_) => Err(BuildError::Memory),
    }
}
