//! The state cover of a finite machine: for each state the first word in shortlex order that reaches it.
#![tactic(auto)]

ghost use Rattle.std.specs.Prelude.{◌≡◌, ◌+◌, ◌<◌, ◌≤◌, length, IfOk};
ghost use Rattle.word_pool.specs.Words.{words_at, AddsPrefixesOf, AreIds, Keeps};
ghost use Rattle.fsm_core.specs.Machine.{IsMachine};
ghost use Rattle.fsm_core.specs.Answers.{AllReached};
ghost use Rattle.fsm_core.specs.Search.{IsSearched};
ghost use Rattle.state_cover.specs.Cover.{IsCover};
ghost use Rattle.state_cover.specs.inside.Entered.{AreNamed};

use fsm_core::{Found, Fsm, search};
use std::alloc::{AllocError, Global};
use std::marker::Model;
use word_pool::{Pool, WordId};

/// The words of a state cover.
#[derive(Drop)]
pub struct CoverWords {
    words: Vec<WordId>,
}

impl Model for CoverWords {
    ghost use Rattle.std.specs.Prelude.{ℕ, List};

    ghost Value = { List ℕ };

    ghost view = { λ c. c.words.items };
}

impl CoverWords {
    /// The words in shortlex order.
    pub fn words(&self) -> &[WordId]
        ensures { result.now ≡ self.now }
    {
        self.words.as_slice()
    }
}

/// The state cover of a machine.
///
/// A breadth-first search with letters ascending finds each state by its first word in shortlex order (Chow 1978).
/// Where memory ends, the pool may have more words than before.
pub fn cover(alloc: Global, fsm: &Fsm, pool: &mut Pool) -> Result<CoverWords, AllocError>
    requires reached { AllReached fsm.now }
    requires few { length pool.old.words ≤ 1000000000 }
    ensures cover { IfOk result (λ ids. IsCover fsm.now (words_at pool.new.words ids)) }
    ensures ids { IfOk result (λ ids. AreIds pool.new.words ids) }

    // The pool keeps its words, and at most as many cover words and prefixes of them are added as there are states.
    ensures keeps { Keeps pool.old.words pool.new.words }
    ensures only { IfOk result (λ ids. AddsPrefixesOf pool.old.words (words_at pool.new.words ids) pool.new.words) }
    ensures grown { IfOk result (λ ids. length pool.new.words ≤ length pool.old.words + length ids) }
{
    let found = search(alloc, fsm)?;
    let words = enter_all(alloc, fsm, found.as_slice(), pool)?;
    Ok(CoverWords { words })
}

/// Enters the words by which a search found its states.
fn enter_all(
    alloc: Global,
    fsm: &Fsm,
    found: &[Found],
    pool: &mut Pool,
) -> Result<Vec<WordId>, AllocError>
    requires searched { IsSearched fsm.now found.now }
    requires count { length found.now ≡ fsm.now.states }
    requires few { length pool.old.words ≤ 1000000000 }
    ensures named { IfOk result (λ ids. AreNamed pool.old.words found.now pool.new.words ids.items (length found.now)) }
    ensures keeps { Keeps pool.old.words pool.new.words }
{
    let mut words = Vec::with_capacity(alloc, fsm.states())?;
    words.push(pool.root())?;
    for place in 1..found.len() {
        let step = found[place];
        words.push(pool.extend(words[step.from], step.letter)?)?;
    }
    Ok(words)
}
