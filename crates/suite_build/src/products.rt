//! The products of a suite, entered straight into the pool.

ghost use Rattle.std.specs.Prelude.{◌≡◌, ℕ, ◌+◌, ◌*◌, ◌≤◌, ◌<◌, List, length, IfOk, OnOk};
ghost use Rattle.word_pool.specs.Words.{word, words_at, AreIds, Keeps};
ghost use Rattle.suite_build.specs.inside.Entered.{letters_of, AreEntered, IsMarkAfter};
ghost use Rattle.suite_words.specs.Tests.{IsProduct, IsProductAfter};
ghost use Rattle.suite_build.specs.Steps.{words_upto};

use std::alloc::{AllocError, Global};
use std::marker::Model;
use word_pool::{Pool, WordId};

/// The letters of a mark.
#[derive(Drop)]
pub struct MarkLetters {
    letters: Vec<u16>,
}

impl Model for MarkLetters {
    ghost use Rattle.std.specs.Prelude.{ℕ, List};

    ghost Value = { List ℕ };

    ghost view = { λ m. m.letters.items };
}

impl MarkLetters {
    /// The letters of a mark.
    pub fn new(letters: Vec<u16>) -> MarkLetters
        ensures { result ≡ letters.items }
    {
        MarkLetters { letters }
    }

    fn as_slice(&self) -> &[u16]
        ensures { result.now ≡ self.now }
    {
        self.letters.as_slice()
    }
}

/// Enters a word followed by each mark.
fn enter_marks(pool: &mut Pool, at: WordId, marks: &[MarkLetters]) -> Result<(), AllocError>
    requires at { at < length pool.old.words }
    requires room { length pool.old.words + letters_of marks.now < u32.MAX }
    ensures keeps { Keeps pool.old.words pool.new.words }
    ensures few { OnOk result (length pool.new.words ≤ length pool.old.words + letters_of marks.now) }
    ensures entered { OnOk result (
        AreEntered pool.old.words (IsMarkAfter (word pool.old.words at) marks.now (length marks.now)) pool.new.words) }
{
    for mark in marks {
        pool.enter(at, mark.as_slice())?;
    }
    Ok(())
}

/// Enters a word followed by each word of at most `depth` letters and each mark.
///
/// The marks come first and then the letters in ascending order, so that naming a child costs one step.
pub fn enter_products(
    pool: &mut Pool,
    at: WordId,
    letters: usize,
    marks: &[MarkLetters],
    depth: usize,
) -> Result<(), AllocError>
    requires at { at < length pool.old.words }
    requires letters { letters ≤ 4096 }
    requires some { 0 < length marks.now }
    requires room { length pool.old.words + (letters_of marks.now + 1) * words_upto letters depth ≤ u32.MAX }
    ensures keeps { Keeps pool.old.words pool.new.words }
    ensures few { OnOk result (
        length pool.new.words + 1 ≤ length pool.old.words + (letters_of marks.now + 1) * words_upto letters depth) }
    ensures entered { OnOk result (
        AreEntered pool.old.words (IsProductAfter (word pool.old.words at) letters marks.now depth) pool.new.words) }
{
    enter_marks(pool, at, marks)?;
    if depth > 0 {
        for letter in 0..letters as u16 {
            let next = pool.extend(at, letter)?;
            enter_products(pool, next, letters, marks, depth - 1)?;
        }
    }
    Ok(())
}

/// The letters of words of a pool.
pub fn letters_at(
    alloc: Global,
    pool: &Pool,
    ids: &[WordId],
) -> Result<Vec<MarkLetters>, AllocError>
    requires { AreIds pool.now.words ids.now }
    ensures { IfOk result (λ v. v.items ≡ words_at pool.now.words ids.now) }
{
    let mut words = Vec::new(alloc);
    for id in ids {
        words.push(MarkLetters::new(word_at(alloc, pool, *id)?))?;
    }
    Ok(words)
}

/// The letters of a word of a pool.
fn word_at(alloc: Global, pool: &Pool, id: WordId) -> Result<Vec<u16>, AllocError>
    requires { id < length pool.now.words }
    ensures { IfOk result (λ v. v.items ≡ word pool.now.words id) }
{
    let mut letters = vec![in alloc; 0; pool.length(id)]?;
    pool.letters(id, letters.as_mut_slice());
    Ok(letters)
}

/// Enters each word of a cover followed by each word of at most `depth` letters and each mark.
pub fn enter_all(
    pool: &mut Pool,
    cover: &[WordId],
    letters: usize,
    marks: &[MarkLetters],
    depth: usize,
) -> Result<(), AllocError>
    requires ids { AreIds pool.old.words cover.now }
    requires letters { letters ≤ 4096 }
    requires some { 0 < length marks.now }
    requires room { length pool.old.words +
        length cover.now * ((letters_of marks.now + 1) * words_upto letters depth) ≤ u32.MAX }
    ensures keeps { Keeps pool.old.words pool.new.words }
    ensures entered { OnOk result (
        AreEntered pool.old.words (IsProduct letters (words_at pool.old.words cover.now) marks.now depth) pool.new.words) }
{
    for id in cover {
        enter_products(pool, *id, letters, marks, depth)?;
    }
    Ok(())
}
