ghost use Rattle.fsm_core.specs.Machine.{IsWord};

use crate::inverse::Inverse;
use fsm_core::Fsm;
use std::alloc::{AllocError, Global};

/// Blocks of states that may split others (Hopcroft 1971).
///
/// A block waits until its sources were looked at. Where a block is split that waits no more, all its parts but a
/// largest wait.
#[derive(Drop)]
pub struct WorkList {
    inverse: Inverse,
    /// How many states each block has.
    sizes: Vec<u32>,
    /// Which blocks wait.
    waiting: Vec<bool>,
    /// How many sources each block has; 0 between two looks.
    counts: Vec<u32>,
}

impl WorkList {
    /// All blocks but a largest wait.
    pub fn new(
        alloc: Global,
        fsm: &Fsm,
        letters: &[u16],
        blocks: &[usize],
    ) -> Result<WorkList, AllocError>
        requires { IsWord fsm.now letters.now }
    {
        let mut list = WorkList {
            inverse: Inverse::new(alloc, fsm, letters)?,
            sizes: Vec::new(alloc),
            waiting: vec![in alloc; false; blocks.len()]?,
            counts: vec![in alloc; 0; blocks.len()]?,
        };
        let whole = vec![in alloc; 0; blocks.len()]?;
        list.split(alloc, whole.as_slice(), blocks)?;
        Ok(list)
    }

    /// Takes a block that waits.
    pub fn take(&mut self) -> Option<usize> {
        let block = self.waiting.as_slice().iter().position(|waits| *waits)?;
        self.waiting[block] = false;
        Some(block)
    }

    /// Notes that blocks were split.
    pub fn split(&mut self, alloc: Global, old: &[usize], new: &[usize]) -> Result<(), AllocError> {
        let sizes = sizes_of(alloc, new)?;
        let largest = largest_parts(alloc, old, new, sizes.as_slice())?;
        let mut waiting = vec![in alloc; false; new.len()]?;
        for (old, new) in old.iter().zip(new) {
            let waits = is_true(self.waiting.as_slice(), *old)
                || largest.as_slice().get(*old) != Some(&Some(*new));
            if let Some(slot) = waiting.get_mut(*new) {
                *slot = waits;
            }
        }
        self.sizes = sizes;
        self.waiting = waiting;
        Ok(())
    }

    /// Whether the letter of a column leads some but not all states of a block to these states.
    pub fn does_split(&mut self, blocks: &[usize], column: u16, states: &[u16]) -> bool {
        for state in states {
            self.count_sources(blocks, column, *state);
        }
        let mut split = false;
        for state in states {
            split |= self.compare_sources(blocks, column, *state);
        }
        split
    }

    /// Counts the sources of a state in their blocks.
    fn count_sources(&mut self, blocks: &[usize], column: u16, state: u16) {
        let mut at = self.inverse.first(state, column);
        for _ in 0..blocks.len() {
            let Some(source) = at else {
                return;
            };
            count(self.counts.as_mut_slice(), block_of(blocks, source));
            at = self.inverse.following(source, column);
        }
    }

    /// Whether the block of some source of a state has states that were not counted. The counts become 0.
    fn compare_sources(&mut self, blocks: &[usize], column: u16, state: u16) -> bool {
        let mut differ = false;
        let mut at = self.inverse.first(state, column);
        for _ in 0..blocks.len() {
            let Some(source) = at else {
                return differ;
            };
            differ |= self.compare(block_of(blocks, source));
            at = self.inverse.following(source, column);
        }
        differ
    }

    /// Whether some but not all states of a block were counted. The count becomes 0.
    fn compare(&mut self, block: usize) -> bool {
        match (self.counts.get_mut(block), self.sizes.get(block)) {
            (Some(count), Some(size)) => {
                let differs = *count != 0 && *count != *size;
                *count = 0;
                differs
            }
            _ => false,
        }
    }
}

/// The block of a state.
fn block_of(blocks: &[usize], state: u16) -> usize {
    match blocks.get(state as usize) {
        Some(block) => *block,
        None => usize::MAX,
    }
}

fn is_true(flags: &[bool], place: usize) -> bool {
    match flags.get(place) {
        Some(flag) => *flag,
        None => false,
    }
}

/// Counts one more at a place.
fn count(counts: &mut [u32], place: usize) {
    if let Some(count) = counts.get_mut(place) {
        *count = count.saturating_add(1);
    }
}

/// How many states each block has.
fn sizes_of(alloc: Global, blocks: &[usize]) -> Result<Vec<u32>, AllocError> {
    let mut sizes = vec![in alloc; 0; blocks.len()]?;
    for block in blocks {
        count(sizes.as_mut_slice(), *block);
    }
    Ok(sizes)
}

/// A largest of the new blocks that each old block was split into.
fn largest_parts(
    alloc: Global,
    old: &[usize],
    new: &[usize],
    sizes: &[u32],
) -> Result<Vec<Option<usize>>, AllocError> {
    let mut largest = vec![in alloc; None; old.len()]?;
    for (old, new) in old.iter().zip(new) {
        if let Some(part) = largest.get_mut(*old) {
            if is_larger(sizes, *new, *part) {
                *part = Some(*new);
            }
        }
    }
    Ok(largest)
}

/// Whether a block is larger than the other, if there is one.
fn is_larger(sizes: &[u32], block: usize, other: Option<usize>) -> bool {
    match other {
        Some(other) => sizes.get(block) > sizes.get(other),
        None => true,
    }
}
