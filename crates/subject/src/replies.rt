ghost use Rattle.std.specs.Prelude.{◌≡◌, IfOk};
ghost use Rattle.std.specs.List.{All};
ghost use Rattle.lin_form.specs.Signature.{IsInInputRanges};
ghost use Rattle.subject.specs.Meaning.{answer};

use crate::Plan;
use lin_form::{Reply, Vector};
use std::alloc::{AllocError, Global};

/// The replies of a plan to a word from its start, one per vector. The error is want of memory.
pub fn answers<P: Plan>(alloc: Global, plan: &P, word: &[Vector]) -> Result<Vec<Reply>, AllocError>
    requires { All (IsInInputRanges (P.plan plan.now).signature.inputs) word.now }
    ensures { IfOk result (λ replies. replies.items ≡ answer (P.plan plan.now) word.now) }
{
    let mut replies = Vec::with_capacity(alloc, word.len())?;
    let mut state = plan.begin();
    for input in word {
        let step = plan.advance(&state, input);
        replies.push(step.reply)?;
        state = step.state;
    }
    Ok(replies)
}
