//! The splits that are found before the rounds over all letters.
ghost use Rattle.std.specs.Prelude.{◌<◌, ◌≤◌, length, IfOk, IfSome, OnOk};
ghost use Rattle.fsm_core.specs.Machine.{IsWord};
ghost use Rattle.reduction.specs.Blocks.{AreBlocks};

use crate::blocks::{round, split};
use crate::columns::different_letters;
use crate::quotient::representatives_of;
use crate::work_list::WorkList;
use fsm_core::Fsm;
use std::alloc::{AllocError, Global};

/// Splits the blocks by the letters that act differently: in a few rounds, and where these do not get to an end, by a
/// work list.
pub fn split_first(alloc: Global, fsm: &Fsm, blocks: &mut Vec<usize>) -> Result<(), AllocError>
    requires { AreBlocks fsm.now blocks.old.items }
    ensures { OnOk result (AreBlocks fsm.now blocks.new.items) }
{
    let letters = different_letters(alloc, fsm)?;
    if few_rounds(alloc, fsm, letters.as_slice(), blocks)? {
        return Ok(());
    }
    split_by_replies(alloc, fsm, letters.as_slice(), blocks)?;
    split_by_sources(alloc, fsm, letters.as_slice(), blocks)
}

/// Splits the blocks by letters in a few rounds, and tells whether none of the letters splits a block then.
fn few_rounds(
    alloc: Global,
    fsm: &Fsm,
    letters: &[u16],
    blocks: &mut Vec<usize>,
) -> Result<bool, AllocError>
    requires letters { IsWord fsm.now letters.now }
    requires blocks { AreBlocks fsm.now blocks.old.items }
    ensures { IfOk result (λ _. AreBlocks fsm.now blocks.new.items) }
{
    for _ in 0..8 {
        if !round(alloc, fsm, letters, blocks)? {
            return Ok(true);
        }
    }
    Ok(false)
}

/// Compares the replies of each state with those of the first of its block, and splits the blocks by the first of the
/// letters on which they differ. Then the state is the first of its block.
fn split_by_replies(
    alloc: Global,
    fsm: &Fsm,
    letters: &[u16],
    blocks: &mut Vec<usize>,
) -> Result<(), AllocError>
    requires letters { IsWord fsm.now letters.now }
    requires blocks { AreBlocks fsm.now blocks.old.items }
    ensures { OnOk result (AreBlocks fsm.now blocks.new.items) }
{
    let mut representatives = representatives_of(alloc, blocks.as_slice())?;
    for state in 0..fsm.states() {
        let representative = representatives[blocks[state]];
        if let Some(letter) = first_other_reply(fsm, letters, state, representative) {
            *blocks = split(alloc, fsm, blocks.as_slice(), letter)?;
            representatives = representatives_of(alloc, blocks.as_slice())?;
        }
    }
    Ok(())
}

/// The first of some letters that two states answer by different replies.
fn first_other_reply(fsm: &Fsm, letters: &[u16], state: usize, other: usize) -> Option<u16>
    requires letters { IsWord fsm.now letters.now }
    requires state { state < fsm.now.states }
    requires other { other < fsm.now.states }
    ensures { IfSome result (λ a. a < fsm.now.letters) }
{
    if state == other {
        return None;
    }
    for letter in letters {
        if fsm.step(state, *letter).1 != fsm.step(other, *letter).1 {
            return Some(*letter);
        }
    }
    None
}

/// Splits the blocks by the letters that lead some but not all states of a block into one that waits, until none
/// waits. There are fewer than twice as many blocks that wait as states: those at first, and one for each part more.
///
/// Whether it leaves a block that could be split is seen by the round that comes after it.
fn split_by_sources(
    alloc: Global,
    fsm: &Fsm,
    letters: &[u16],
    blocks: &mut Vec<usize>,
) -> Result<(), AllocError>
    requires letters { IsWord fsm.now letters.now }
    requires blocks { AreBlocks fsm.now blocks.old.items }
    ensures { OnOk result (AreBlocks fsm.now blocks.new.items) }
{
    let mut list = WorkList::new(alloc, fsm, letters, blocks.as_slice())?;
    for _ in 0..2 * fsm.states() {
        let Some(block) = list.take() else {
            return Ok(());
        };
        let states = states_of(alloc, blocks.as_slice(), block)?;
        split_by_block(alloc, fsm, letters, states.as_slice(), &mut list, blocks)?;
    }
    Ok(())
}

/// Splits the blocks by the letters that lead some but not all states of a block to these states.
fn split_by_block(
    alloc: Global,
    fsm: &Fsm,
    letters: &[u16],
    states: &[u16],
    list: &mut WorkList,
    blocks: &mut Vec<usize>,
) -> Result<(), AllocError>
    requires letters { IsWord fsm.now letters.now }
    requires blocks { AreBlocks fsm.now blocks.old.items }
    ensures { OnOk result (AreBlocks fsm.now blocks.new.items) }
{
    let mut column: u16 = 0;
    for letter in letters {
        if list.does_split(blocks.as_slice(), column, states) {
            let finer = split(alloc, fsm, blocks.as_slice(), *letter)?;
            list.split(alloc, blocks.as_slice(), finer.as_slice())?;
            *blocks = finer;
        }
        column = column.wrapping_add(1);
    }
    Ok(())
}

/// The states of a block.
fn states_of(alloc: Global, blocks: &[usize], block: usize) -> Result<Vec<u16>, AllocError>
    requires { length blocks.now ≤ 1024 }
{
    let mut states = Vec::new(alloc);
    for (state, other) in blocks.iter().enumerate() {
        if *other == block {
            states.push(state as u16)?;
        }
    }
    Ok(states)
}
