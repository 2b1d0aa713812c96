//! The reduced machine of a finite machine, by partition refinement.
#![tactic(auto)]

ghost use Rattle.std.specs.Prelude.{IfOk};
ghost use Rattle.fsm_core.specs.Answers.{AllReached};
ghost use Rattle.fsm_core.specs.Reduction.{IsReductionOf};

mod blocks;
mod columns;
mod first_splits;
mod inverse;
mod quotient;
#[cfg(test)]
mod tests;
mod work_list;

use blocks::stable_blocks;
use fsm_core::Fsm;
use quotient::{replies_of, representatives_of, rows_of};
use std::alloc::{AllocError, Global};

/// A machine without two states that answer alike.
#[derive(Drop)]
pub struct Reduced {
    pub fsm: Fsm,
    /// The state of the reduced machine for each state of the machine that was reduced.
    pub image: Vec<usize>,
}

/// The reduced machine of a machine.
///
/// Its letters and the list of its replies are those of the machine. Blocks of states are split by the answers
/// to one letter and the blocks that it leads to, until no block is split (Moore 1956). A work list of blocks says
/// which letters split (Hopcroft 1971).
pub fn reduce(alloc: Global, fsm: &Fsm) -> Result<Reduced, AllocError>
    requires reached { AllReached fsm.now }
    ensures { IfOk result (λ r. IsReductionOf fsm.now r.fsm r.image.items) }
{
    let blocks = stable_blocks(alloc, fsm)?;
    let representatives = representatives_of(alloc, blocks.as_slice())?;
    let rows = rows_of(alloc, fsm, blocks.as_slice(), representatives.as_slice())?;
    let replies = replies_of(alloc, fsm)?;
    Ok(Reduced {
        fsm: Fsm::from_rows(fsm.letters(), rows, replies),
        image: blocks,
    })
}
