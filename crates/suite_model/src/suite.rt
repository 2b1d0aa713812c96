//! Suites.
ghost use Rattle.std.specs.Prelude.{◌≡◌, ℕ, ◌+◌, ◌<◌, ◌≤◌, ◌++◌, length, take, drop, slice_get, Contains, Some, List};
ghost use Rattle.std.specs.List.{All};
ghost use Rattle.subject.specs.Suite.{SuiteParts, Test};
ghost use Rattle.suite_model.specs.Suite.{IsSuite};
ghost use Rattle.word_pool.specs.Words.{ArePooled};
ghost use Rattle.suite_model.specs.Pooled.{IsPooled, MakeSuite, lists, pooled_tests};
ghost use Rattle.suite_model.specs.Scratch.{IsMadeFor, HasTest};

use crate::{Replies, Scratch};
use lin_form::{Reply, Signature, Vector};
use std::marker::Model;
use word_pool::{Pool, WordId};

/// A test suite: tests are words of a pool, and each word but the empty one has the reply to its last letter, so tests
/// that share a prefix share its replies.
#[derive(Drop)]
pub struct Suite {
    signature: Signature,
    bound: usize,
    states: usize,
    classes: Vec<Vector>,
    cover: Vec<Vec<u16>>,
    marks: Vec<Vec<u16>>,
    pool: Pool,
    tests: Vec<WordId>,
    replies: Replies,
}

impl Model for Suite {
    ghost use Rattle.subject.specs.Suite.{SuiteParts};
    ghost use Rattle.suite_model.specs.Pooled.{MakeSuite, lists, pooled_tests};
    ghost use Rattle.word_pool.specs.Words.{ArePooled};

    ghost Value = { SuiteParts };

    ghost view = { λ s. record {
      signature = s.signature;
      bound = s.bound;
      states = s.states;
      classes = s.classes.items;
      cover = lists s.cover.items;
      marks = lists s.marks.items;
      tests = pooled_tests s.pool.words s.replies s.tests.items;
    } };

    ghost invariant = { λ s. ArePooled s.pool.words × MakeSuite s.signature s.classes.items (lists s.cover.items)
        (lists s.marks.items) s.pool.words s.tests.items s.replies };
}

impl Suite {
    /// The suite of these parts. The reply to the last letter of the word with number k stands at place k - 1 of
    /// `replies`. It takes no memory.
    pub fn from_pool(
        signature: Signature,
        bound: usize,
        states: usize,
        classes: Vec<Vector>,
        cover: Vec<Vec<u16>>,
        marks: Vec<Vec<u16>>,
        pool: Pool,
        tests: Vec<WordId>,
        replies: Vec<Reply>,
    ) -> Suite
        requires { MakeSuite signature classes.items (lists cover.items) (lists marks.items) pool.words
            tests.items replies.items }
        ensures { let parts : SuiteParts = record {
          signature = signature;
          bound = bound;
          states = states;
          classes = classes.items;
          cover = lists cover.items;
          marks = lists marks.items;
          tests = pooled_tests pool.words replies.items tests.items;
        } in result ≡ parts }
    {
        let replies = Replies::each(replies);
        Suite::from_replies(
            signature, bound, states, classes, cover, marks, pool, tests, replies,
        )
    }

    /// The suite of these parts, as `from_pool` makes it: the reply to the last letter of the word with number k stands
    /// at place k - 1 of `replies`. It takes no memory.
    pub fn from_replies(
        signature: Signature,
        bound: usize,
        states: usize,
        classes: Vec<Vector>,
        cover: Vec<Vec<u16>>,
        marks: Vec<Vec<u16>>,
        pool: Pool,
        tests: Vec<WordId>,
        replies: Replies,
    ) -> Suite
        requires { MakeSuite signature classes.items (lists cover.items) (lists marks.items) pool.words
            tests.items replies }
        ensures { let parts : SuiteParts = record {
          signature = signature;
          bound = bound;
          states = states;
          classes = classes.items;
          cover = lists cover.items;
          marks = lists marks.items;
          tests = pooled_tests pool.words replies tests.items;
        } in result ≡ parts }
    {
        let _count = pool.words();
        Suite {
            signature,
            bound,
            states,
            classes,
            cover,
            marks,
            pool,
            tests,
            replies,
        }
    }

    /// The inputs with their ranges, and the outputs.
    pub fn signature(&self) -> &Signature
        ensures { result.now ≡ self.now.signature }
    {
        &self.signature
    }

    /// The bound on the number of states.
    pub fn bound(&self) -> usize
        ensures { result ≡ self.now.bound }
    {
        self.bound
    }

    /// The number of states of the reduced machine.
    pub fn states(&self) -> usize
        ensures { result ≡ self.now.states }
    {
        self.states
    }

    /// The classes' witnesses.
    pub fn classes(&self) -> &[Vector]
        ensures { result.now ≡ self.now.classes }
    {
        self.classes.as_slice()
    }

    /// How many tests there are, at least one.
    pub fn tests(&self) -> usize
        ensures { result ≡ length self.now.tests }
    {
        self.tests.len()
    }

    /// How many cover words there are.
    pub fn covers(&self) -> usize
        ensures { result ≡ length self.now.cover }
    {
        self.cover.len()
    }

    /// How many marks there are.
    pub fn marks(&self) -> usize
        ensures { result ≡ length self.now.marks }
    {
        self.marks.len()
    }

    /// The words of its tests with all their prefixes, and the replies to the last letters of these: that of the word
    /// with number k stands at place k - 1.
    pub fn pooled(&self) -> (&Pool, &Replies)
        ensures pool { ArePooled result.0.now.words }
        ensures suite { IsPooled self.now result.0.now.words result.1.now }
    {
        let _count = self.pool.words();
        (&self.pool, &self.replies)
    }

    /// The number of letters of the longest test.
    pub fn longest(&self) -> usize
        ensures bound { All (λ (t : Test). length t.letters ≤ result) self.now.tests }
        ensures reached { (t : Test) × (Contains self.now.tests t × (length t.letters ≡ result)) }
    {
        let mut most = self.pool.length(self.tests[0]);
        for test in self.tests.as_slice() {
            let length = self.pool.length(*test);
            if length > most {
                most = length;
            }
        }
        most
    }

    /// Puts the letters of a test, counted from 0, into the scratch, and gives their number.
    pub fn test_letters(&self, test: usize, scratch: &mut Scratch) -> usize
        requires test { test < length self.now.tests }
        requires made { IsMadeFor self.now scratch.old }
        ensures letters { (t : Test) → slice_get self.now.tests test ≡ Some t → (result ≡ length t.letters)
            × (scratch.new.letters ≡ t.letters ++ drop (length t.letters) scratch.old.letters) }
        ensures line { scratch.new.line ≡ scratch.old.line }
        ensures room { scratch.new.room ≡ scratch.old.room }
        ensures still_made { IsMadeFor self.now scratch.new }
    {
        let id = self.tests[test];
        scratch.put_word(&self.pool, id)
    }

    /// Puts the letters and the replies of a test, counted from 0, into the scratch, and gives their number.
    pub fn put_test(&self, test: usize, scratch: &mut Scratch) -> usize
        requires test { test < length self.now.tests }
        requires made { IsMadeFor self.now scratch.old }
        ensures test { (t : Test) → slice_get self.now.tests test ≡ Some t → HasTest t result scratch.new }
        ensures line { scratch.new.line ≡ scratch.old.line }
        ensures room { scratch.new.room ≡ scratch.old.room }
        ensures still_made { IsMadeFor self.now scratch.new }
    {
        let id = self.tests[test];
        scratch.put_steps(&self.pool, id, &self.replies)
    }

    /// Puts the letters of a test, counted from 0, into the scratch, and gives their number and how many of the first
    /// letters stood there before.
    pub fn next_letters(&self, test: usize, scratch: &mut Scratch) -> (usize, usize)
        requires test { test < length self.now.tests }
        requires made { IsMadeFor self.now scratch.old }
        ensures letters { (t : Test) → slice_get self.now.tests test ≡ Some t → (result.0 ≡ length t.letters)
            × (scratch.new.letters ≡ t.letters ++ drop (length t.letters) scratch.old.letters) }
        ensures within { result.1 ≤ result.0 }
        ensures same { take result.1 scratch.new.letters ≡ take result.1 scratch.old.letters }
        ensures line { scratch.new.line ≡ scratch.old.line }
        ensures room { scratch.new.room ≡ scratch.old.room }
        ensures ends { scratch.new.ends ≡ scratch.old.ends }
        ensures still_made { IsMadeFor self.now scratch.new }
    {
        let id = self.tests[test];
        scratch.put_next_word(&self.pool, id)
    }

    /// The reply that is expected at a step of a test, both counted from 0.
    pub fn expected(&self, test: usize, step: usize) -> &Reply
        requires test { test < length self.now.tests }
        requires step { (t : Test) → slice_get self.now.tests test ≡ Some t → step < length t.letters }
        ensures { (t : Test) → slice_get self.now.tests test ≡ Some t → slice_get t.replies step ≡ Some result.now }
    {
        let id = self.tests[test];
        let _length = self.pool.length(id);
        let id = self.pool.prefix(id, step + 1);
        self.replies.at(self.pool.number(id) - 1)
    }

    /// Puts the letters of a cover word, counted from 0, into the scratch, and gives their number.
    pub fn cover_letters(&self, index: usize, scratch: &mut Scratch) -> usize
        requires index { index < length self.now.cover }
        requires made { IsMadeFor self.now scratch.old }
        ensures letters { (w : List ℕ) → slice_get self.now.cover index ≡ Some w →
            (result ≡ length w) × (scratch.new.letters ≡ w ++ drop (length w) scratch.old.letters) }
        ensures line { scratch.new.line ≡ scratch.old.line }
        ensures room { scratch.new.room ≡ scratch.old.room }
        ensures still_made { IsMadeFor self.now scratch.new }
    {
        scratch.put_letters(self.cover[index].as_slice())
    }

    /// Puts the letters of a mark, counted from 0, into the scratch, and gives their number.
    pub fn mark_letters(&self, index: usize, scratch: &mut Scratch) -> usize
        requires index { index < length self.now.marks }
        requires made { IsMadeFor self.now scratch.old }
        ensures letters { (w : List ℕ) → slice_get self.now.marks index ≡ Some w →
            (result ≡ length w) × (scratch.new.letters ≡ w ++ drop (length w) scratch.old.letters) }
        ensures line { scratch.new.line ≡ scratch.old.line }
        ensures room { scratch.new.room ≡ scratch.old.room }
        ensures still_made { IsMadeFor self.now scratch.new }
    {
        scratch.put_letters(self.marks[index].as_slice())
    }

    /// The number of letters of the longest test, cover word or mark, or more.
    pub(crate) fn most_letters(&self) -> usize
        ensures tests { All (λ (t : Test). length t.letters ≤ result) self.now.tests }
        ensures cover { All (λ w. length w ≤ result) self.now.cover }
        ensures marks { All (λ w. length w ≤ result) self.now.marks }
    {
        self.longest()
            .max(longest_of(self.cover.as_slice()))
            .max(longest_of(self.marks.as_slice()))
    }
}

/// The length of the longest of these words.
fn longest_of(words: &[Vec<u16>]) -> usize
    ensures { All (λ w. length w ≤ result) (lists words.now) }
{
    let mut most = 0;
    for word in words {
        if word.len() > most {
            most = word.len();
        }
    }
    most
}

/// What holds of every suite.
pub fn suite_keeps_rules(suite: &Suite)
    ensures { IsSuite suite.now }
{
    let _signature = &suite.signature;
}
