ghost use Rattle.std.specs.Prelude.{◌≡◌, length, IfOk};
ghost use Rattle.reduction.specs.Blocks.{AreInOrder};
ghost use Rattle.reduction.specs.Quotient.{AreRepresentatives, AreRowsOf};

use fsm_core::{Fsm, Rows};
use lin_form::Reply;
use std::alloc::{AllocError, Global};

/// The first state of each block.
pub fn representatives_of(alloc: Global, blocks: &[usize]) -> Result<Vec<usize>, AllocError>
    requires { AreInOrder blocks.now }
    ensures { IfOk result (λ v. AreRepresentatives blocks.now v.items) }
{
    let mut found = Vec::new(alloc);
    for (state, block) in blocks.iter().enumerate() {
        if *block == found.len() {
            found.push(state)?;
        }
    }
    Ok(found)
}

/// The rows of the machine whose states are the blocks.
pub fn rows_of(
    alloc: Global,
    fsm: &Fsm,
    blocks: &[usize],
    representatives: &[usize],
) -> Result<Rows, AllocError>
    requires size { length blocks.now ≡ fsm.now.states }
    requires representatives { AreRepresentatives blocks.now representatives.now }
    ensures { IfOk result (λ v. AreRowsOf fsm.now blocks.now representatives.now v) }
{
    let letters = fsm.letters();
    let mut rows = Rows::with_capacity(alloc, representatives.len() * letters)?;
    for place in 0..representatives.len() * letters {
        let state = representatives[place / letters];
        let (next, reply) = fsm.step(state, (place % letters) as u16);
        rows.push(blocks[next], reply)?;
    }
    Ok(rows)
}

/// The replies of a machine in the order of their numbers.
pub fn replies_of(alloc: Global, fsm: &Fsm) -> Result<Vec<Reply>, AllocError>
    ensures { IfOk result (λ v. v.items ≡ fsm.now.replies) }
{
    let mut replies = Vec::with_capacity(alloc, fsm.replies())?;
    for number in 0..fsm.replies() {
        replies.push(*fsm.reply(number))?;
    }
    Ok(replies)
}
