//! Tests that are entered into a pool step by step, where a step that contradicts an earlier test is found.
#![tactic(auto)]

ghost use Rattle.std.specs.Prelude.{◌≡◌, ◌≢◌, ◌+◌, ◌<◌, [], ◌∷◌, ◌++◌, length, IfOk, OnErr, OnOk, MatchBool};
ghost use Rattle.std.specs.List.{All};
ghost use Rattle.lin_form.specs.Signature.{IsInInputRanges};
ghost use Rattle.suite_words.specs.Cover.{AreLetters};
ghost use Rattle.subject.specs.Suite.{SuiteParts};
ghost use Rattle.suite_model.specs.Pooled.{lists};
ghost use Rattle.suite_reading.specs.State.{no_test};
ghost use Rattle.suite_reading.specs.State.{AreRuled};
ghost use Rattle.test_store.specs.Store.{Enters, IsConflict};

use lin_form::{Reply, Signature, Vector};
use std::alloc::{AllocError, Global};
use std::marker::Model;
use suite_model::Suite;
use word_pool::{Pool, WordId};

/// Tests, and the steps so far of the test that is being entered.
#[derive(Drop)]
pub struct TestStore {
    pool: Pool,
    ids: Vec<WordId>,
    replies: Vec<Reply>,
    at: WordId,
}

impl Model for TestStore {
    ghost use Rattle.std.specs.Prelude.{◌-◌, length, vec_len, vec_capacity};
    ghost use Rattle.word_pool.specs.Words.{word};
    ghost use Rattle.suite_model.specs.Pooled.{pooled_test, pooled_tests};
    ghost use Rattle.test_store.specs.Store.{Store};
    ghost use Rattle.test_store.specs.inside.Stored.{IsStored, HaveLetters};

    ghost Value = { Store };

    ghost view = { λ s. record {
      tests = pooled_tests s.pool.words s.replies.items s.ids.items;
      now = pooled_test s.pool.words s.replies.items (word s.pool.words s.at);
      words = length s.pool.words;
      spare = vec_capacity s.ids - vec_len s.ids;
    } };

    ghost invariant = { λ s. IsStored s.pool.words s.replies.items s.ids.items s.at
        × HaveLetters s.pool.words s.ids.items };
}

impl TestStore {
    /// A store without tests.
    pub fn new(alloc: Global) -> Result<TestStore, AllocError>
        ensures tests { IfOk result (λ s. s.tests ≡ []) }
        ensures now { IfOk result (λ s. s.now ≡ no_test) }
        ensures words { IfOk result (λ s. s.words ≡ 1) }
    {
        let pool = Pool::new(alloc)?;
        let _count = pool.words();
        let at = pool.root();
        Ok(TestStore {
            pool,
            ids: Vec::new(alloc),
            replies: Vec::new(alloc),
            at,
        })
    }

    /// How many different words there are.
    pub fn words(&self) -> usize
        ensures { result ≡ self.now.words }
    {
        self.pool.words()
    }

    /// How many tests there are.
    pub fn tests(&self) -> usize
        ensures { result ≡ length self.now.tests }
    {
        self.ids.len()
    }

    /// How many steps the test has that is being entered.
    pub fn steps(&self) -> usize
        ensures letters { result ≡ length self.now.now.letters }
        ensures replies { result ≡ length self.now.now.replies }
    {
        self.pool.length(self.at)
    }

    /// Makes room for one more test.
    pub fn reserve(&mut self) -> Result<(), AllocError>
        ensures tests { self.new.tests ≡ self.old.tests }
        ensures now { self.new.now ≡ self.old.now }
        ensures words { self.new.words ≡ self.old.words }
        ensures spare { OnOk result (0 < self.new.spare) }
        ensures err { OnErr result (self.new ≡ self.old) }
    {
        self.ids.reserve(1)?;
        Ok(())
    }

    /// Enters one more step of the test, or answers false where an earlier test with the same letters up to this step
    /// has another reply.
    pub fn step(&mut self, letter: u16, reply: Reply) -> Result<bool, AllocError>
        requires { self.old.words < u32.MAX }
        ensures entered { IfOk result (λ b. MatchBool b (Enters self.old letter reply self.new)
            (IsConflict self.old letter reply × (self.new ≡ self.old))) }
        ensures tests { self.new.tests ≡ self.old.tests }
        ensures spare { self.new.spare ≡ self.old.spare }
        ensures err { OnErr result (self.new ≡ self.old) }
    {
        self.replies.reserve(1)?;
        let before = self.pool.words();
        let id = self.pool.extend(self.at, letter)?;
        let number = self.pool.number(id);
        if number < before {
            if differ(&self.replies[number - 1], &reply) {
                return Ok(false);
            }
            self.at = id;
            return Ok(true);
        }
        match self.replies.push(reply) {
            Ok(()) => {}
            Err(_) => unreachable!(),
        }
        self.at = id;
        Ok(true)
    }

    /// Ends the test that was entered.
    pub fn finish(&mut self)
        requires some { 0 < length self.old.now.letters }
        requires room { 0 < self.old.spare }
        ensures tests { self.new.tests ≡ self.old.tests ++ self.old.now ∷ [] }
        ensures now { self.new.now ≡ no_test }
        ensures words { self.new.words ≡ self.old.words }
    {
        match self.ids.push(self.at) {
            Ok(()) => {}
            Err(_) => unreachable!(),
        }
        self.at = self.pool.root();
    }

    /// The suite of the tests.
    pub fn into_suite(
        self,
        signature: Signature,
        bound: usize,
        states: usize,
        classes: Vec<Vector>,
        cover: Vec<Vec<u16>>,
        marks: Vec<Vec<u16>>,
    ) -> Suite
        requires now { self.now ≡ no_test }
        requires some { 0 < length self.tests }
        requires tests { All (AreRuled (length classes.items) (length signature.outputs)) self.tests }
        requires vectors { All (IsInInputRanges signature.inputs) classes.items }
        requires cover { All (AreLetters (length classes.items)) (lists cover.items) }
        requires marks { All (AreLetters (length classes.items)) (lists marks.items) }
        ensures { let parts : SuiteParts = record {
          signature = signature;
          bound = bound;
          states = states;
          classes = classes.items;
          cover = lists cover.items;
          marks = lists marks.items;
          tests = self.tests;
        } in result ≡ parts }
    {
        Suite::from_pool(
            signature,
            bound,
            states,
            classes,
            cover,
            marks,
            self.pool,
            self.ids,
            self.replies,
        )
    }
}

fn differ(a: &Reply, b: &Reply) -> bool
    ensures { MatchBool result (a.now ≢ b.now) (a.now ≡ b.now) }
{
    !(*a == *b)
}
