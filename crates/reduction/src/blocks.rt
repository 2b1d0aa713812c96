ghost use Rattle.std.specs.Prelude.{◌≡◌, ◌<◌, length, IfOk, IfNone, IfSome, MatchBool, sum};
ghost use Rattle.fsm_core.specs.Machine.{IsWord};
ghost use Rattle.reduction.specs.Blocks.{AgreeOn, AreAlikeOn, AreAlikeOnEach, AreBlocks, AreFiner, AreStable, AreStableOn};

use crate::columns::all_letters;
use crate::first_splits::split_first;
use crate::quotient::representatives_of;
use fsm_core::Fsm;
use indexmap::IndexSet;
use std::alloc::{AllocError, Global};

/// By what one letter tells states apart: the block of the state, the reply's number, and the block that the
/// letter leads to.
#[derive(Clone, Copy, PartialEq, Eq, Hash)]
struct Key {
    block: usize,
    reply: usize,
    target: usize,
}

/// The blocks of the states that answer alike. They are split until no letter splits a block.
///
/// Most splits are found without looking at all letters; that none is left is seen by a last round.
pub fn stable_blocks(alloc: Global, fsm: &Fsm) -> Result<Vec<usize>, AllocError>
    ensures blocks { IfOk result (λ v. AreBlocks fsm.now v.items) }
    ensures stable { IfOk result (λ v. AreStable fsm.now v.items) }
{
    let mut blocks = vec![in alloc; 0; fsm.states()]?;
    split_first(alloc, fsm, &mut blocks)?;
    let letters = all_letters(alloc, fsm)?;
    while round(alloc, fsm, letters.as_slice(), &mut blocks)? {}
    Ok(blocks)
}

/// Splits the blocks by one letter.
pub fn split(
    alloc: Global,
    fsm: &Fsm,
    blocks: &[usize],
    letter: u16,
) -> Result<Vec<usize>, AllocError>
    requires blocks { AreBlocks fsm.now blocks.now }
    requires letter { letter < fsm.now.letters }
    ensures blocks { IfOk result (λ v. AreBlocks fsm.now v.items) }
    ensures finer { IfOk result (λ v. AreFiner blocks.now v.items) }
    ensures agree { IfOk result (λ v. AgreeOn fsm.now blocks.now letter v.items) }
{
    let mut keys = IndexSet::new(alloc);
    let mut finer = Vec::new(alloc);
    for state in 0..fsm.states() {
        let (next, reply) = fsm.step(state, letter);
        let key = Key {
            block: blocks[state],
            reply,
            target: blocks[next],
        };
        let found = keys.insert_full(key)?;
        finer.push(found.0)?;
    }
    Ok(finer)
}

/// The first of some letters that tells a state from another, by its reply or by the block that it leads to.
fn first_difference(
    fsm: &Fsm,
    letters: &[u16],
    blocks: &[usize],
    state: usize,
    other: usize,
) -> Option<u16>
    requires letters { IsWord fsm.now letters.now }
    requires size { length blocks.now ≡ fsm.now.states }
    requires state { state < fsm.now.states }
    requires other { other < fsm.now.states }
    ensures differ { IfSome result (λ a. (a < fsm.now.letters) × ¬ AreAlikeOn fsm.now blocks.now a state other) }
    ensures alike { IfNone result (AreAlikeOnEach fsm.now blocks.now letters.now state other) }
{
    if state == other {
        return None;
    }
    for letter in letters {
        let (next, reply) = fsm.step(state, *letter);
        let (other_next, other_reply) = fsm.step(other, *letter);
        if reply != other_reply || blocks[next] != blocks[other_next] {
            return Some(*letter);
        }
    }
    None
}

/// Compares each state with the first of its block, splits the blocks by the first of the letters on which they differ,
/// and tells whether a block was split.
///
/// The last state comes first: a difference of two states is seen after that of the states to which a letter leads
/// them, and these mostly come later in a machine whose states are numbered as they are found.
pub fn round(
    alloc: Global,
    fsm: &Fsm,
    letters: &[u16],
    blocks: &mut Vec<usize>,
) -> Result<bool, AllocError>
    requires letters { IsWord fsm.now letters.now }
    requires blocks { AreBlocks fsm.now blocks.old.items }
    ensures blocks { IfOk result (λ _. AreBlocks fsm.now blocks.new.items) }
    ensures result { IfOk result (λ changed.
        MatchBool changed (sum blocks.old.items < sum blocks.new.items) (AreStableOn fsm.now letters.now blocks.new.items)) }
{
    let mut changed = false;
    let mut representatives = representatives_of(alloc, blocks.as_slice())?;
    for state in (0..fsm.states()).rev() {
        let representative = representatives[blocks[state]];
        if let Some(letter) = first_difference(
            fsm,
            letters,
            blocks.as_slice(),
            state,
            representative,
        ) {
            *blocks = split(alloc, fsm, blocks.as_slice(), letter)?;
            representatives = representatives_of(alloc, blocks.as_slice())?;
            changed = true;
        }
    }
    Ok(changed)
}
