ghost use Rattle.std.specs.Prelude.{◌≡◌, length, IfOk};
ghost use Rattle.lin_form.specs.Signature.{ranges_of};
ghost use Rattle.subject.specs.Alike.{MembersActAlike};
ghost use Rattle.subject.specs.Domain.{Complete, box};
ghost use Rattle.subject.specs.Meaning.{RepliesFit};
ghost use Rattle.subject.specs.Shape.{HasShape};
ghost use Rattle.subject.specs.Suite.{tests_of};
ghost use Rattle.word_pool.specs.Words.{words_at};
ghost use Rattle.concretise.specs.Concrete.{AreSuiteWords, AreWordsFor, suite_of};

use crate::copying::{copied, lists_at, witnesses_of};
use class_split::Partition;
use plan_replies::replies_of;
use std::alloc::{AllocError, Global};
use subject::Plan;
use suite_build::Letters;
use suite_model::Suite;
use word_pool::{Pool, WordId};

/// The suite whose classes are the partition's witnesses, whose words are the letters of this pool, and whose replies are
/// the plan's answers. Its number of states is that of the cover words.
///
/// Where the words are those of the W-method for the plan, the partition and the bound, and members of a class act
/// alike in the plan, the suite has the method's shape and its tests are complete (Chow 1978; Huang and Peleska).
pub fn concrete<P: Plan>(
    alloc: Global,
    letters: Letters,
    pool: Pool,
    partition: &Partition,
    plan: &P,
) -> Result<Suite, AllocError>
    requires words { AreSuiteWords (length partition.now.classes) pool.words
        letters.cover letters.marks letters.tests.items }
    requires ranges { partition.now.ranges ≡ ranges_of (P.plan plan.now).signature.inputs }
    requires replies { RepliesFit (P.plan plan.now) }
    ensures suite { IfOk result (λ s. s ≡
        suite_of (P.plan plan.now) partition.now letters.bound pool.words letters.cover letters.marks letters.tests.items) }
    ensures complete { IfOk result (λ s. let m = P.plan plan.now in let r = partition.now in
        MembersActAlike (box m r) r m
        → AreWordsFor m r letters.bound (words_at pool.words letters.cover) (words_at pool.words letters.marks)
        (words_at pool.words letters.tests.items)
        → HasShape m r letters.bound s × Complete m r letters.bound (tests_of s)) }
{
    let Letters {
        bound,
        cover,
        marks,
        tests,
    } = letters;
    suite_of_words(
        alloc,
        bound,
        cover.words(),
        marks.words(),
        tests,
        pool,
        partition,
        plan,
    )
}

/// The same for the ids of the words.
fn suite_of_words<P: Plan>(
    alloc: Global,
    bound: usize,
    cover: &[WordId],
    marks: &[WordId],
    tests: Vec<WordId>,
    pool: Pool,
    partition: &Partition,
    plan: &P,
) -> Result<Suite, AllocError>
    requires words { AreSuiteWords (length partition.now.classes) pool.words cover.now marks.now tests.items }
    requires ranges { partition.now.ranges ≡ ranges_of (P.plan plan.now).signature.inputs }
    requires replies { RepliesFit (P.plan plan.now) }
    ensures suite { IfOk result (λ s.
        s ≡ suite_of (P.plan plan.now) partition.now bound pool.words cover.now marks.now tests.items) }
    ensures complete { IfOk result (λ s. let m = P.plan plan.now in let r = partition.now in
        MembersActAlike (box m r) r m
        → AreWordsFor m r bound (words_at pool.words cover.now) (words_at pool.words marks.now)
        (words_at pool.words tests.items)
        → HasShape m r bound s × Complete m r bound (tests_of s)) }
{
    let _count = pool.words();
    let signature = copied(alloc, plan.signature())?;
    let classes = witnesses_of(alloc, partition.classes())?;
    let cover_words = lists_at(alloc, &pool, cover)?;
    let mark_words = lists_at(alloc, &pool, marks)?;
    let replies = replies_of(alloc, &pool, classes.as_slice(), plan)?;
    Ok(Suite::from_replies(
        signature,
        bound,
        cover.len(),
        classes,
        cover_words,
        mark_words,
        pool,
        tests,
        replies,
    ))
}
