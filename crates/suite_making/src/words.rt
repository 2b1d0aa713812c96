ghost use Rattle.std.specs.Prelude.{◌≡◌, ◌≤◌, [], ◌∷◌, IfOk, IfErr, OnOk};
ghost use Rattle.fsm_core.specs.Answers.{AllReached, IsReduced};
ghost use Rattle.suite_build.specs.Steps.{steps};
ghost use Rattle.suite_making.specs.inside.Refusals.{AreWordsRefused};
ghost use Rattle.suite_making.specs.inside.Words.{AreWordsOf};

use crate::MakeError;
use charset::charset;
use fsm_core::Fsm;
use state_cover::cover;
use std::alloc::Global;
use suite_build::{Letters, build, steps_of};
use word_pool::Pool;

/// The words of a reduced machine's suite, entered into a pool that has the empty word alone. Cover and marks are made
/// only where the bound and the product of steps allow a suite.
pub fn words_of(
    alloc: Global,
    fsm: &Fsm,
    bound: usize,
    pool: &mut Pool,
) -> Result<Letters, MakeError>
    requires reached { AllReached fsm.now }
    requires reduced { IsReduced fsm.now }
    requires bound { bound ≤ 1024 }
    requires empty { pool.old.words ≡ [] ∷ [] }
    ensures refused { IfErr result (AreWordsRefused fsm.now.states fsm.now.letters bound) }
    ensures within { OnOk result (fsm.now.states ≤ bound) }
    ensures steps { OnOk result (steps fsm.now.states fsm.now.letters bound ≤ 20000000) }
    ensures bound { IfOk result (λ l. l.bound ≡ bound) }
    ensures words { IfOk result (λ l. AreWordsOf fsm.now bound pool.new.words l.cover l.marks l.tests.items) }
{
    let _steps = steps_of(fsm.states(), fsm.letters(), bound)?;
    let words = cover(alloc, fsm, pool)?;
    let marks = charset(alloc, fsm, &words, pool)?;
    let letters = build(alloc, fsm, words, marks, bound, pool)?;
    Ok(letters)
}
