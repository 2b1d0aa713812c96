//! The region of words: all words lie in one trie of numbered nodes and share their prefixes.
#![tactic(auto)]

ghost use Rattle.std.specs.Prelude.{◌≡◌, ℕ, ◌+◌, ◌-◌, ◌<◌, ◌≤◌, [], ◌∷◌, ◌++◌, length, take, drop, slice_get, Contains, Some, IsOk, IfOk, OnOk, OnErr};
ghost use Rattle.word_pool.specs.Words.{word, words_at, extension_of, ArePooled, ArePrefixesOf, Enters, EntersAfter, IsProperPrefix, Keeps};
ghost use Rattle.word_pool.specs.Order.{AreEnds};

mod trie;

use std::alloc::{AllocError, Global};
use std::marker::Model;
use trie::{Node, climb, is_here, link, next_of, place_of};

#[cfg(test)]
mod tests;

/// The name of a word of one pool.
#[derive(Clone, Copy, PartialEq, Eq, Hash, Debug)]
pub struct WordId {
    number: u32,
}

impl Model for WordId {
    ghost use Rattle.std.specs.Prelude.{ℕ};

    ghost Value = { ℕ };

    ghost view = { λ w. w.number };

    ghost inverse = { λ n. record { number = n } };
}

/// A region of words. Words are only added, and each keeps its id.
///
/// A word takes one node of 20 bytes beside its longest proper prefix, which is a word of the pool too. So
/// memory grows with the number of different prefixes, and not with their lengths.
#[derive(Drop)]
pub struct Pool {
    nodes: Vec<Node>,
}

impl Model for Pool {
    ghost use Rattle.std.specs.Prelude.{◌-◌, vec_len, vec_capacity};
    ghost use Rattle.word_pool.specs.Words.{Words};

    ghost Value = { Words };

    ghost use Rattle.word_pool.specs.Trie.{words_of, IsTrie};

    ghost view = { λ p. record { words = words_of p.nodes.items; spare = vec_capacity p.nodes - vec_len p.nodes } };

    ghost invariant = { λ p. IsTrie p.nodes.items (words_of p.nodes.items) };
}

impl Pool {
    /// A pool that holds the empty word alone.
    pub fn new(alloc: Global) -> Result<Pool, AllocError>
        ensures { IfOk result (λ pool. pool.words ≡ [] ∷ []) }
    {
        let mut nodes = Vec::new(alloc);
        nodes.push(Node {
            parent: 0,
            letter: 0,
            depth: 0,
            child: 0,
            sibling: 0,
        })?;
        Ok(Pool { nodes })
    }

    /// The empty word.
    pub fn root(&self) -> WordId
        ensures empty { slice_get self.now.words result ≡ Some [] }
        ensures first { result ≡ 0 }
    {
        let _nodes = &self.nodes;
        WordId { number: 0 }
    }

    /// The word that is followed by a letter. It is added where the pool does not have it.
    ///
    /// It takes memory only where no word is spare.
    pub fn extend(&mut self, id: WordId, letter: u16) -> Result<WordId, AllocError>
        requires id { id < length self.old.words }
        requires few { length self.old.words < u32.MAX }
        ensures word { IfOk result (λ i. slice_get self.new.words i ≡ Some (extension_of self.old.words id letter)) }
        ensures enters { OnOk result (Enters self.old.words (extension_of self.old.words id letter) self.new.words) }
        ensures err { OnErr result (self.new.words ≡ self.old.words) }
        ensures keeps { Keeps self.old.words self.new.words }
        ensures pooled { ArePooled self.new.words }

        // A word that is there takes nothing, and a new one takes at most one spare place.
        ensures there { Contains self.old.words (extension_of self.old.words id letter) → IsOk result × (self.new ≡ self.old) }
        ensures spare { self.old.spare ≤ self.new.spare + 1 }
        ensures succeeds { 0 < self.old.spare → IsOk result }
    {
        let place = place_of(self.nodes.as_slice(), id.number, letter);
        if is_here(self.nodes.as_slice(), place, letter) {
            self.nodes[id.number as usize].child = place;
            return Ok(WordId { number: place });
        }
        let number = self.nodes.len() as u32;
        let depth = self.nodes[id.number as usize].depth + 1;
        self.nodes.push(Node {
            parent: id.number,
            letter,
            depth,
            child: 0,
            sibling: number,
        })?;
        link(self.nodes.as_mut_slice(), place, number);
        Ok(WordId { number })
    }

    /// The word that is followed by letters. It is added, with its prefixes, where the pool does not have it.
    pub fn enter(&mut self, id: WordId, letters: &[u16]) -> Result<WordId, AllocError>
        requires id { id < length self.old.words }
        requires few { length self.old.words + length letters.now < u32.MAX }
        ensures word { IfOk result (λ i. slice_get self.new.words i ≡ Some (word self.old.words id ++ letters.now)) }
        ensures enters { EntersAfter self.old.words (word self.old.words id) letters.now self.new.words }
        ensures keeps { Keeps self.old.words self.new.words }
    {
        let mut at = id;
        for letter in letters {
            at = self.extend(at, *letter)?;
        }
        Ok(at)
    }

    /// Makes at least `n` words spare, at once.
    pub fn reserve(&mut self, n: usize) -> Result<(), AllocError>
        ensures words { self.new.words ≡ self.old.words }
        ensures spare { OnOk result (n ≤ self.new.spare) }
        ensures err { OnErr result (self.new ≡ self.old) }
        ensures succeeds { n ≤ self.old.spare → IsOk result }
        ensures keeps { self.old.spare ≤ self.new.spare }
    {
        self.nodes.reserve(n)?;
        Ok(())
    }

    /// How many letters a word has.
    pub fn length(&self, id: WordId) -> usize
        requires { id < length self.now.words }
        ensures { result ≡ length (word self.now.words id) }
    {
        self.nodes[id.number as usize].depth as usize
    }

    /// Puts the letters of a word at the front of `into`, and gives their number.
    pub fn letters(&self, id: WordId, into: &mut [u16]) -> usize
        requires id { id < length self.now.words }
        requires room { length (word self.now.words id) ≤ length into.old }
        ensures count { result ≡ length (word self.now.words id) }
        ensures letters { let w = word self.now.words id in into.new ≡ w ++ drop (length w) into.old }
    {
        let mut at = id.number;
        let count = self.nodes[at as usize].depth as usize;
        let mut place = count;
        while place > 0 {
            place -= 1;
            let node = self.nodes[at as usize];
            into[place] = node.letter;
            at = node.parent;
        }
        count
    }

    /// The words that are a proper prefix of no other, in ascending lexicographic order.
    pub fn walk(&self, alloc: Global) -> Result<Vec<WordId>, AllocError>
        ensures ends { IfOk result (λ ids. AreEnds self.now.words ids.items) }
        ensures prefixes { IfOk result (λ ids. ArePrefixesOf self.now.words (words_at self.now.words ids.items)) }
    {
        let mut ids = Vec::new(alloc);
        let mut at = 0;
        loop {
            if self.nodes[at as usize].child == 0 {
                ids.push(WordId { number: at })?;
            }
            at = next_of(self.nodes.as_slice(), at);
            if at == 0 {
                break;
            }
        }
        Ok(ids)
    }

    /// How many words there are.
    pub fn words(&self) -> usize
        ensures count { result ≡ length self.now.words }
        ensures pooled { ArePooled self.now.words }
        ensures few { result ≤ u32.MAX }
    {
        self.nodes.len()
    }

    /// The place of an id, from 0 in order of creation.
    pub fn number(&self, id: WordId) -> usize
        requires { id < length self.now.words }
        ensures number { result ≡ id }
        ensures empty { word self.now.words 0 ≡ [] }

        // A proper prefix of a word has a lower number than the word.
        ensures prefix_lower { (k : ℕ) → k < length self.now.words →
            IsProperPrefix (word self.now.words k) (word self.now.words id) → k < result }
    {
        let _nodes = &self.nodes;
        id.number as usize
    }

    /// The id with a number.
    pub fn word(&self, number: usize) -> WordId
        requires { number < length self.now.words }
        ensures { result ≡ number }
    {
        let _nodes = &self.nodes;
        WordId {
            number: number as u32,
        }
    }

    /// The last letter of a word that is not empty.
    pub fn last(&self, id: WordId) -> u16
        requires id { id < length self.now.words }
        requires some { 0 < length (word self.now.words id) }
        ensures { let w = word self.now.words id in w ≡ take (length w - 1) w ++ result ∷ [] }
    {
        self.nodes[id.number as usize].letter
    }

    /// The prefix of a word that has `count` letters.
    pub fn prefix(&self, id: WordId, count: usize) -> WordId
        requires id { id < length self.now.words }
        requires within { count ≤ length (word self.now.words id) }
        ensures word { slice_get self.now.words result ≡ Some (take count (word self.now.words id)) }
        ensures lower { count < length (word self.now.words id) → result < id }
    {
        let mut at = id.number;
        while self.nodes[at as usize].depth as usize > count {
            at = self.nodes[at as usize].parent;
        }
        WordId { number: at }
    }
}
