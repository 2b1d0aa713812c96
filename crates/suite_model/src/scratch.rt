//! Memory that is taken once, for the letters of a word and for one line.
ghost use Rattle.std.specs.Prelude.{◌≡◌, ℕ, ◌+◌, ◌<◌, ◌≤◌, [], ◌∷◌, ◌++◌, length, take, drop, slice_get, slice_index, slice_set, Some};
ghost use Rattle.std.specs.Prelude.{IfOk};
ghost use Rattle.word_pool.specs.Words.{word};
ghost use Rattle.suite_model.specs.Pooled.{replies_from};
ghost use Rattle.suite_model.specs.Scratch.{IsMadeFor, text_room};

use crate::{Replies, Suite};
use lin_form::Reply;
use std::alloc::{AllocError, Global};
use std::marker::Model;
use word_pool::{Pool, WordId};

/// The greatest number of letters for which there is room.
const MOST_LETTERS: usize = 1_000_000_000_000;

/// Room for the letters of a word, for the replies to its prefixes, and for one line of a text, or the lines of a test. It
/// also keeps where the line ended at each number of steps.
#[derive(Drop)]
pub struct Scratch {
    letters: Vec<u16>,
    next: Vec<u16>,
    bytes: Vec<u8>,
    end: usize,
    ends: Vec<usize>,
    replies: Vec<Reply>,
}

impl Model for Scratch {
    ghost use Rattle.std.specs.Prelude.{◌≡◌, ◌+◌, ◌≤◌, take, length};
    ghost use Rattle.suite_model.specs.Scratch.{Place, text_room};

    ghost Value = { Place };

    ghost view = { λ s. record {
      letters = s.letters.items;
      line = take s.end s.bytes.items;
      room = length s.bytes.items;
      ends = s.ends.items;
      replies = s.replies.items;
    } };

    ghost invariant = { λ s. (s.end ≤ length s.bytes.items) × (length s.next.items ≡ length s.letters.items) ×
        (length s.ends.items ≡ length s.letters.items + 1) × (text_room (length s.letters.items) ≤ length s.bytes.items) ×
        (length s.replies.items ≡ length s.letters.items) };
}

impl Scratch {
    /// Room for the longest test, cover word and mark of the suite, for each line of its text and of a verdict on it, and
    /// for the lines of a test. The line is empty.
    pub fn for_suite(alloc: Global, suite: &Suite) -> Result<Scratch, AllocError>
        ensures made { IfOk result (λ s. IsMadeFor suite.now s) }
        ensures empty { IfOk result (λ s. s.line ≡ []) }
    {
        let most = suite.most_letters();
        if most > MOST_LETTERS {
            return Err(AllocError);
        }
        Ok(Scratch {
            letters: vec![in alloc; 0; most]?,
            next: vec![in alloc; 0; most]?,
            bytes: vec![in alloc; 0; 320 + 326 * most]?,
            end: 0,
            ends: vec![in alloc; 0; most + 1]?,
            replies: vec![in alloc; Reply::from_slice(&[]); most]?,
        })
    }

    /// The letter at a place, counted from 0, of those that were put.
    pub fn letter(&self, step: usize) -> u16
        requires { step < length self.now.letters }
        ensures { result ≡ slice_index self.now.letters step }
    {
        self.letters[step]
    }

    /// The reply at a place, counted from 0, of those that were put.
    pub fn expected(&self, step: usize) -> &Reply
        requires { step < length self.now.letters }
        ensures { slice_get self.now.replies step ≡ Some result.now }
    {
        &self.replies[step]
    }

    /// Empties the line.
    pub fn clear(&mut self)
        ensures line { self.new.line ≡ [] }
        ensures letters { self.new.letters ≡ self.old.letters }
        ensures room { self.new.room ≡ self.old.room }
        ensures ends { self.new.ends ≡ self.old.ends }
    {
        self.end = 0;
    }

    /// Puts a byte at the end of the line.
    pub fn push(&mut self, byte: u8)
        requires { length self.old.line < self.old.room }
        ensures line { self.new.line ≡ self.old.line ++ byte ∷ [] }
        ensures letters { self.new.letters ≡ self.old.letters }
        ensures room { self.new.room ≡ self.old.room }
        ensures ends { self.new.ends ≡ self.old.ends }
    {
        self.bytes[self.end] = byte;
        self.end += 1;
    }

    /// Puts bytes at the end of the line.
    pub fn push_all(&mut self, more: &[u8])
        requires { length self.old.line + length more.now ≤ self.old.room }
        ensures line { self.new.line ≡ self.old.line ++ more.now }
        ensures letters { self.new.letters ≡ self.old.letters }
        ensures room { self.new.room ≡ self.old.room }
        ensures ends { self.new.ends ≡ self.old.ends }
    {
        let end = self.end + more.len();
        self.bytes[self.end..end].copy_from_slice(more);
        self.end = end;
    }

    /// The bytes of the line.
    pub fn line(&self) -> &[u8]
        ensures { result.now ≡ self.now.line }
    {
        &self.bytes[..self.end]
    }

    /// The bytes of the line from where it ended at this number of steps to where it ended at one more.
    pub fn step_line(&self, step: usize) -> &[u8]
        requires step { step + 1 < length self.now.ends }
        requires rising { slice_index self.now.ends step ≤ slice_index self.now.ends (step + 1) }
        requires within { slice_index self.now.ends (step + 1) ≤ length self.now.line }
        ensures { result.now ≡
            drop (slice_index self.now.ends step) (take (slice_index self.now.ends (step + 1)) self.now.line) }
    {
        &self.line()[self.ends[step]..self.ends[step + 1]]
    }

    /// Tells how much room there is: for the lines of a test, and for the end at each number of steps.
    pub fn has_text_room(&self)
        ensures text { text_room (length self.now.letters) ≤ self.now.room }
        ensures ends { length self.now.ends ≡ length self.now.letters + 1 }
    {
        let _letters = &self.letters;
    }

    /// Keeps where the line ends at this number of steps.
    pub fn keep_end(&mut self, steps: usize)
        requires { steps ≤ length self.old.letters }
        ensures ends { self.new.ends ≡ slice_set self.old.ends steps (length self.old.line) }
        ensures line { self.new.line ≡ self.old.line }
        ensures letters { self.new.letters ≡ self.old.letters }
        ensures room { self.new.room ≡ self.old.room }
    {
        self.ends[steps] = self.end;
    }

    /// Takes the line back to where it ended at this number of steps.
    pub fn back_to(&mut self, steps: usize)
        requires { steps ≤ length self.old.letters }
        ensures line { self.new.line ≡ take (slice_index self.old.ends steps) self.old.line }
        ensures letters { self.new.letters ≡ self.old.letters }
        ensures room { self.new.room ≡ self.old.room }
        ensures ends { self.new.ends ≡ self.old.ends }
    {
        let end = self.ends[steps];
        if end < self.end {
            self.end = end;
        }
    }

    /// Puts the letters of a word of a pool, and gives their number and how many of the first letters stood there before.
    pub(crate) fn put_next_word(&mut self, pool: &Pool, id: WordId) -> (usize, usize)
        requires id { id < length pool.now.words }
        requires room { length (word pool.now.words id) ≤ length self.old.letters }
        ensures count { result.0 ≡ length (word pool.now.words id) }
        ensures letters { let w = word pool.now.words id in self.new.letters ≡ w ++ drop (length w) self.old.letters }
        ensures within { result.1 ≤ result.0 }
        ensures same { take result.1 self.new.letters ≡ take result.1 self.old.letters }
        ensures line { self.new.line ≡ self.old.line }
        ensures kept_room { self.new.room ≡ self.old.room }
        ensures ends { self.new.ends ≡ self.old.ends }
    {
        let count = pool.letters(id, self.next.as_mut_slice());
        let same = common(&self.next[..count], self.letters.as_slice());
        put_in_front(&self.next[..count], self.letters.as_mut_slice());
        (count, same)
    }

    /// Puts the letters of a word of a pool.
    pub(crate) fn put_word(&mut self, pool: &Pool, id: WordId) -> usize
        requires id { id < length pool.now.words }
        requires room { length (word pool.now.words id) ≤ length self.old.letters }
        ensures count { result ≡ length (word pool.now.words id) }
        ensures letters { let w = word pool.now.words id in self.new.letters ≡ w ++ drop (length w) self.old.letters }
        ensures line { self.new.line ≡ self.old.line }
        ensures kept_room { self.new.room ≡ self.old.room }
    {
        pool.letters(id, self.letters.as_mut_slice())
    }

    /// Puts the letters of a word of a pool, and of these the replies to its prefixes that are not empty: that to the
    /// word with number k stands at place k - 1.
    pub(crate) fn put_steps(&mut self, pool: &Pool, id: WordId, replies: &Replies) -> usize
        requires id { id < length pool.now.words }
        requires room { length (word pool.now.words id) ≤ length self.old.letters }
        requires one_each { length pool.now.words ≡ length replies.now + 1 }
        ensures count { result ≡ length (word pool.now.words id) }
        ensures letters { let w = word pool.now.words id in self.new.letters ≡ w ++ drop (length w) self.old.letters }
        ensures replies { let w = word pool.now.words id in (step : ℕ) → step < length w
            → slice_get self.new.replies step ≡ slice_get (replies_from pool.now.words replies.now [] w) step }
        ensures line { self.new.line ≡ self.old.line }
        ensures kept_room { self.new.room ≡ self.old.room }
    {
        put_replies(pool, id, replies, self.replies.as_mut_slice());
        pool.letters(id, self.letters.as_mut_slice())
    }

    /// Puts these letters.
    pub(crate) fn put_letters(&mut self, letters: &[u16]) -> usize
        requires { length letters.now ≤ length self.old.letters }
        ensures count { result ≡ length letters.now }
        ensures letters { self.new.letters ≡ letters.now ++ drop (length letters.now) self.old.letters }
        ensures line { self.new.line ≡ self.old.line }
        ensures room { self.new.room ≡ self.old.room }
    {
        put_in_front(letters, self.letters.as_mut_slice());
        letters.len()
    }
}

/// Puts the replies to the prefixes of a word, from the longest on.
fn put_replies(pool: &Pool, id: WordId, replies: &Replies, into: &mut [Reply])
    requires id { id < length pool.now.words }
    requires room { length (word pool.now.words id) ≤ length into.old }
    requires one_each { length pool.now.words ≡ length replies.now + 1 }
    ensures replies { let w = word pool.now.words id in (step : ℕ) → step < length w
        → slice_get into.new step ≡ slice_get (replies_from pool.now.words replies.now [] w) step }
    ensures room { length into.new ≡ length into.old }
{
    let _count = pool.words();
    let mut at = id;
    let mut place = pool.length(id);
    'prefixes: while place > 0 {
        place -= 1;
        into[place] = *replies.at(pool.number(at) - 1);
        at = pool.prefix(at, place);
    }
}

/// How many of the first letters of two words are the same.
fn common(word: &[u16], other: &[u16]) -> usize
    ensures within { result ≤ length word.now }
    ensures same { take result word.now ≡ take result other.now }
{
    let most = word.len().min(other.len());
    for place in 0..most {
        if word[place] != other[place] {
            return place;
        }
    }
    most
}

/// Copies letters to the front of `into`.
fn put_in_front(letters: &[u16], into: &mut [u16])
    requires { length letters.now ≤ length into.old }
    ensures { into.new ≡ letters.now ++ drop (length letters.now) into.old }
{
    into[..letters.len()].copy_from_slice(letters);
}
