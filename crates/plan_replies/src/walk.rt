//! One walk over the words of a pool.
ghost use Rattle.std.specs.Prelude.{◌≡◌, ◌+◌, ◌-◌, ◌<◌, ◌≤◌, ◌^◌, length, slice_index, IfOk, OnOk};
ghost use Rattle.std.specs.List.{All};
ghost use Rattle.lin_form.specs.Signature.{IsInInputRanges};
ghost use Rattle.suite_words.specs.Cover.{AreLetters};
ghost use Rattle.plan_replies.specs.Replies.{AreReplies};
ghost use Rattle.plan_replies.specs.inside.Numbers.{AreStepNumbers};
ghost use Rattle.plan_replies.specs.inside.Steps.{AreSteps};

use crate::steps::{Steps, no_steps, step_from};
use lin_form::Vector;
use std::alloc::{AllocError, Global};
use subject::Plan;
use suite_model::Replies;
use word_pool::Pool;

/// The reply to the last letter of each word of a pool but the empty one, in the order of the ids, each from the state
/// of the word's longest proper prefix. The plan makes a step once for each state and letter, and each step's reply is
/// kept once.
pub fn replies_of<P: Plan>(
    alloc: Global,
    pool: &Pool,
    classes: &[Vector],
    plan: &P,
) -> Result<Replies, AllocError>
    requires letters { All (AreLetters (length classes.now)) pool.now.words }
    requires vectors { All (IsInInputRanges (P.plan plan.now).signature.inputs) classes.now }
    requires few { length classes.now ≤ 2 ^ 16 }
    ensures { IfOk result (λ replies. AreReplies (P.plan plan.now) classes.now pool.now.words replies) }
{
    let count = pool.words();
    let mut steps = no_steps(alloc, classes, plan)?;
    let mut numbers = Vec::with_capacity(alloc, count)?;
    for number in 1..count {
        put_word(pool, number, &mut steps, &mut numbers, classes, plan)?;
    }
    Ok(Replies::numbered(steps.replies, numbers))
}

/// Puts the number of the step by the last letter of the word with this number, where those of the words before it were
/// put.
pub fn put_word<P: Plan>(
    pool: &Pool,
    number: usize,
    steps: &mut Steps<P::State>,
    numbers: &mut Vec<u32>,
    classes: &[Vector],
    plan: &P,
) -> Result<(), AllocError>
    requires letters { All (AreLetters (length classes.now)) pool.now.words }
    requires vectors { All (IsInInputRanges (P.plan plan.now).signature.inputs) classes.now }
    requires few { length classes.now ≤ 2 ^ 16 }
    requires some { 0 < number }
    requires inside { number < length pool.now.words }
    requires steps { AreSteps (P.plan plan.now) classes.now
        steps.old.states.keys steps.old.met.items steps.old.nexts.items steps.old.replies.items }
    requires numbers { AreStepNumbers (P.plan plan.now) classes.now pool.now.words number
        steps.old.states.keys steps.old.nexts.items steps.old.replies.items numbers.old.items }
    ensures steps { OnOk result (AreSteps (P.plan plan.now) classes.now
        steps.new.states.keys steps.new.met.items steps.new.nexts.items steps.new.replies.items) }
    ensures numbers { OnOk result (AreStepNumbers (P.plan plan.now) classes.now pool.now.words (number + 1)
        steps.new.states.keys steps.new.nexts.items steps.new.replies.items numbers.new.items) }
{
    let _count = pool.words();
    let id = pool.word(number);
    let length = pool.length(id);
    let before = pool.prefix(id, length - 1);
    let place = pool.number(before);
    let letter = pool.last(id);
    let at = place_after(steps.nexts.as_slice(), numbers.as_slice(), place);
    let step = step_from(steps, at, letter, classes, plan)?;
    numbers.push(step)?;
    Ok(())
}

/// The number of the state to which the word with this number leads, where the step by its last letter has a number.
fn place_after(nexts: &[u32], numbers: &[u32], word: usize) -> u32
    requires numbers { 0 < word → word - 1 < length numbers.now }
    requires nexts { 0 < word → slice_index numbers.now (word - 1) < length nexts.now }
    ensures first { word ≡ 0 → result ≡ 0 }
    ensures others { 0 < word → result ≡ slice_index nexts.now (slice_index numbers.now (word - 1)) }
{
    if word == 0 {
        return 0;
    }
    nexts[numbers[word - 1] as usize]
}
