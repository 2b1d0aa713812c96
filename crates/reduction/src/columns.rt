ghost use Rattle.std.specs.Prelude.{◌<◌, IfOk};
ghost use Rattle.fsm_core.specs.Machine.{IsWord};
ghost use Rattle.reduction.specs.Blocks.{AreAllLetters};

use fsm_core::Fsm;
use indexmap::IndexSet;
use std::alloc::{AllocError, Global};

/// All letters of a machine.
pub fn all_letters(alloc: Global, fsm: &Fsm) -> Result<Vec<u16>, AllocError>
    ensures { IfOk result (λ v. AreAllLetters fsm.now v.items) }
{
    let mut letters = Vec::with_capacity(alloc, fsm.letters())?;
    for letter in 0..fsm.letters() as u16 {
        letters.push(letter)?;
    }
    Ok(letters)
}

/// The letters of a machine without those that act in every state as an earlier one.
///
/// What a letter does is known by a hash, so a letter may be missing that acts as no other. The splits that it makes
/// are found by the rounds over all letters.
pub fn different_letters(alloc: Global, fsm: &Fsm) -> Result<Vec<u16>, AllocError>
    ensures { IfOk result (λ v. IsWord fsm.now v.items) }
{
    let hashes = hashes_of(alloc, fsm)?;
    let mut known = IndexSet::new(alloc);
    let mut letters = Vec::new(alloc);
    for letter in 0..fsm.letters() as u16 {
        let found = known.insert_full(hash_at(hashes.as_slice(), letter))?;
        let is_new = found.1;
        if is_new {
            letters.push(letter)?;
        }
    }
    Ok(letters)
}

/// For each letter a hash of what it does in the states.
fn hashes_of(alloc: Global, fsm: &Fsm) -> Result<Vec<u64>, AllocError> {
    let mut hashes = vec![in alloc; 0; fsm.letters()]?;
    for state in 0..fsm.states() {
        add(fsm, state, hashes.as_mut_slice());
    }
    Ok(hashes)
}

/// Adds what the letters do in a state.
fn add(fsm: &Fsm, state: usize, hashes: &mut [u64])
    requires { state < fsm.now.states }
{
    for letter in 0..fsm.letters() as u16 {
        let (next, reply) = fsm.step(state, letter);
        if let Some(hash) = hashes.get_mut(letter as usize) {
            *hash = mixed(*hash, next, reply);
        }
    }
}

/// A hash with two more numbers.
fn mixed(hash: u64, next: usize, reply: usize) -> u64 {
    let more = (next as u64).wrapping_mul(0x9e37_79b9_7f4a_7c15) ^ reply as u64;
    let product = (hash ^ more).wrapping_mul(0xff51_afd7_ed55_8ccd);
    product ^ (product >> 32)
}

fn hash_at(hashes: &[u64], letter: u16) -> u64 {
    match hashes.get(letter as usize) {
        Some(hash) => *hash,
        None => 0,
    }
}
