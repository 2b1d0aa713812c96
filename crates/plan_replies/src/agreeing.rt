//! Whether a plan's replies are those that a suite expects.
ghost use Rattle.std.specs.Prelude.{◌≡◌, ◌≢◌, ◌+◌, ◌≤◌, ◌^◌, true, length, IfOk, MatchBool};
ghost use Rattle.std.specs.List.{All};
ghost use Rattle.lin_form.specs.Signature.{IsInInputRanges};
ghost use Rattle.subject.specs.Domain.{IsFitting};
ghost use Rattle.subject.specs.Meaning.{answer};
ghost use Rattle.subject.specs.Suite.{tests_of};
ghost use Rattle.subject.specs.Tests.{Passes};
ghost use Rattle.suite_words.specs.Cover.{AreLetters};
ghost use Rattle.plan_replies.specs.Replies.{AreReplies};

use crate::steps::no_steps;
use crate::walk::put_word;
use lin_form::{Reply, Vector};
use std::alloc::{AllocError, Global};
use subject::Plan;
use suite_model::{Replies, Suite, suite_keeps_rules};
use word_pool::Pool;

/// The most classes for which pairs of a state and a letter are numbered.
const MOST_CLASSES: usize = 65_536;

/// Whether a plan gives the expected reply to the last letter of each word of a suite: then it passes the tests. Each word
/// costs one look at its longest proper prefix, and the plan makes a step once for each state and letter.
pub fn gives_expected<P: Plan>(alloc: Global, suite: &Suite, plan: &P) -> Result<bool, AllocError>
    requires { IsFitting suite.now.signature (P.plan plan.now).signature }
    ensures { IfOk result (λ same. same ≡ true → Passes (answer (P.plan plan.now)) (tests_of suite.now)) }
{
    suite_keeps_rules(suite);
    let classes = suite.classes();
    if classes.len() > MOST_CLASSES {
        return Ok(false);
    }
    let (pool, expected) = suite.pooled();
    let same = are_expected(alloc, pool, expected, classes, plan)?;
    Ok(same)
}

/// Whether these are a plan's replies to the last letters of the words of a pool.
fn are_expected<P: Plan>(
    alloc: Global,
    pool: &Pool,
    expected: &Replies,
    classes: &[Vector],
    plan: &P,
) -> Result<bool, AllocError>
    requires letters { All (AreLetters (length classes.now)) pool.now.words }
    requires vectors { All (IsInInputRanges (P.plan plan.now).signature.inputs) classes.now }
    requires few { length classes.now ≤ 2 ^ 16 }
    requires one_each { length pool.now.words ≡ length expected.now + 1 }
    ensures { IfOk result (λ same. same ≡ true → AreReplies (P.plan plan.now) classes.now pool.now.words expected.now) }
{
    let count = pool.words();
    let mut steps = no_steps(alloc, classes, plan)?;
    let mut numbers = Vec::with_capacity(alloc, count)?;
    for number in 1..count {
        put_word(pool, number, &mut steps, &mut numbers, classes, plan)?;
        let step = numbers[number - 1] as usize;
        if differ(&steps.replies[step], expected.at(number - 1)) {
            return Ok(false);
        }
    }
    Ok(true)
}

/// Whether the replies differ.
fn differ(given: &Reply, expected: &Reply) -> bool
    ensures { MatchBool result (given.now ≢ expected.now) (given.now ≡ expected.now) }
{
    !(*given == *expected)
}
