ghost use Rattle.std.specs.Prelude.{◌<◌};
ghost use Rattle.fsm_core.specs.Machine.{IsWord};

use fsm_core::Fsm;
use std::alloc::{AllocError, Global};

/// Stands for no state.
const NONE: u16 = u16::MAX;

/// The inverse of a machine's steps by some letters, each of which has a column: for each state and column the states
/// that the letter leads there, its sources.
///
/// They are a list: `first` has the first source of a state and a column, and `following` the source that comes after
/// a state in the list for the column. A place takes 4 bytes.
#[derive(Drop)]
pub struct Inverse {
    columns: u16,
    first: Vec<u16>,
    following: Vec<u16>,
}

impl Inverse {
    /// The inverse of the steps of a machine by these letters.
    pub fn new(alloc: Global, fsm: &Fsm, letters: &[u16]) -> Result<Inverse, AllocError>
        requires { IsWord fsm.now letters.now }
    {
        let columns = letters.len().min(4096) as u16;
        let size = fsm.states() * columns as usize;
        let mut inverse = Inverse {
            columns,
            first: vec![in alloc; NONE; size]?,
            following: vec![in alloc; NONE; size]?,
        };
        for state in 0..fsm.states() {
            inverse.add(fsm, letters, state as u16);
        }
        Ok(inverse)
    }

    /// Adds a state to the sources of the states that its letters lead to.
    fn add(&mut self, fsm: &Fsm, letters: &[u16], state: u16)
        requires state { state < fsm.now.states }
        requires letters { IsWord fsm.now letters.now }
    {
        let mut column: u16 = 0;
        for letter in letters {
            let target = fsm.step(state as usize, *letter).0 as u16;
            let to = self.place(target, column);
            let from = self.place(state, column);
            if let Some(first) = self.first.get_mut(to) {
                if let Some(following) = self.following.get_mut(from) {
                    *following = *first;
                    *first = state;
                }
            }
            column = column.wrapping_add(1);
        }
    }

    /// The first source of a state for a column.
    pub fn first(&self, state: u16, column: u16) -> Option<u16> {
        some_at(self.first.as_slice(), self.place(state, column))
    }

    /// The source that comes after one for a column.
    pub fn following(&self, source: u16, column: u16) -> Option<u16> {
        some_at(self.following.as_slice(), self.place(source, column))
    }

    /// Where the lists have a state and a column.
    fn place(&self, state: u16, column: u16) -> usize {
        state as usize * self.columns as usize + column as usize
    }
}

/// The state at a place, if there is one.
fn some_at(states: &[u16], place: usize) -> Option<u16> {
    match states.get(place) {
        Some(state) if *state != NONE => Some(*state),
        _ => None,
    }
}
