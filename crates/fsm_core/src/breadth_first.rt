ghost use Rattle.std.specs.Prelude.{◌≡◌, ◌+◌, ◌<◌, ◌↔◌, length, IfOk};
ghost use Rattle.fsm_core.specs.Answers.{AllReached};
ghost use Rattle.fsm_core.specs.Search.{IsSearched};
ghost use Rattle.fsm_core.specs.inside.Flags.{IsSearch};

use crate::Fsm;
use std::alloc::{AllocError, Global};

/// A state that a search found, by a letter from the state at an earlier place of its list. The start has no such
/// place: both numbers are 0.
#[derive(Clone, Copy, PartialEq, Eq, Debug)]
pub struct Found {
    pub state: usize,
    pub from: usize,
    pub letter: u16,
}

/// The states that are reached from the start, in the order in which a breadth-first search finds them, with letters
/// ascending.
pub fn search(alloc: Global, fsm: &Fsm) -> Result<Vec<Found>, AllocError>
    ensures searched { IfOk result (λ v. IsSearched fsm.now v.items) }
    ensures all { IfOk result (λ v. (length v.items ≡ fsm.now.states) ↔ AllReached fsm.now) }
{
    let mut flags = vec![in alloc; false; fsm.states()]?;
    let start = Found {
        state: 0,
        from: 0,
        letter: 0,
    };
    let mut found = vec![in alloc; start]?;
    flags[0] = true;
    let mut at = 0;
    while at < found.len() {
        visit(fsm, at, flags.as_mut_slice(), &mut found)?;
        at += 1;
    }
    Ok(found)
}

/// Finds the states to which the letters lead from the state at a place.
fn visit(fsm: &Fsm, at: usize, flags: &mut [bool], found: &mut Vec<Found>) -> Result<(), AllocError>
    requires search { IsSearch fsm.now flags.old found.old.items at 0 }
    requires at { at < length found.old.items }
    ensures search { IfOk result (λ _. IsSearch fsm.now flags.new found.new.items (at + 1) 0) }
{
    let state = found[at].state;
    for letter in 0..fsm.letters() as u16 {
        let next = fsm.step(state, letter).0;
        if !flags[next] {
            found.push(Found {
                state: next,
                from: at,
                letter,
            })?;
            flags[next] = true;
        }
    }
    Ok(())
}
