//! Complete deterministic finite machines with letters for inputs and replies for outputs (Mealy machines).
#![tactic(auto)]

ghost use Rattle.std.specs.Prelude.{◌≡◌, ◌<◌, ◌↔◌, length, Some, slice_get, IsTrue, All, IfOk};
ghost use Rattle.fsm_core.specs.Machine.{machine_of, row, AreDifferent, IsMachine, IsWord, state_after};
ghost use Rattle.fsm_core.specs.Answers.{AllReached};

mod breadth_first;
mod rows;

pub use breadth_first::{Found, search};
use lin_form::Reply;
pub use rows::Rows;
use std::alloc::{AllocError, Global};
use std::marker::Model;

#[cfg(test)]
mod tests;

/// A machine of 1 to 1,024 states and 1 to 4,096 letters, both counted from 0, with the start 0.
///
/// Each pair of a state and a letter has a next state and the number of a reply. No reply has two numbers.
/// A row takes 8 bytes, or 16 where the machine was made from pairs.
#[derive(Drop)]
pub struct Fsm {
    letters: usize,
    states: usize,
    rows: Rows,
    replies: Vec<Reply>,
}

impl Model for Fsm {
    ghost use Rattle.fsm_core.specs.Machine.{Machine, IsMachine};

    ghost Value = { Machine };

    ghost view = { λ m. record { letters = m.letters; states = m.states; rows = m.rows; replies = m.replies.items } };

    ghost invariant = { λ m. IsMachine (record { letters = m.letters; states = m.states; rows = m.rows; replies = m.replies.items }) };
}

impl Fsm {
    /// The machine whose row `s * letters + a` has the next state and the reply's number for the state `s` and
    /// the letter `a`. It takes no memory.
    pub fn new(letters: usize, rows: Vec<(usize, usize)>, replies: Vec<Reply>) -> Fsm
        requires { IsMachine (machine_of letters rows.items replies.items) }
        ensures made { result ≡ machine_of letters rows.items replies.items }
        ensures sound { IsMachine result }
    {
        Fsm::from_rows(letters, Rows::from_pairs(rows), replies)
    }

    /// The machine with these rows, as `new` makes it. It takes no memory.
    pub fn from_rows(letters: usize, rows: Rows, replies: Vec<Reply>) -> Fsm
        requires { IsMachine (machine_of letters rows replies.items) }
        ensures made { result ≡ machine_of letters rows replies.items }
        ensures sound { IsMachine result }
    {
        let states = rows.len() / letters;
        Fsm {
            letters,
            states,
            rows,
            replies,
        }
    }

    /// Whether rows and replies make a machine. It compares each two replies.
    pub fn is_machine(letters: usize, rows: &[(usize, usize)], replies: &[Reply]) -> bool
        ensures { IsTrue result ↔ IsMachine (machine_of letters rows.now replies.now) }
    {
        if letters == 0 || letters > 4096 {
            return false;
        }
        let states = rows.len() / letters;
        0 < states
            && states <= 1024
            && rows.len() == states * letters
            && are_in_range(rows, states, replies.len())
            && are_different(replies)
    }

    /// How many states there are.
    pub fn states(&self) -> usize
        ensures count { result ≡ self.now.states }
        ensures sound { IsMachine self.now }
    {
        self.states
    }

    /// How many letters there are.
    pub fn letters(&self) -> usize
        ensures count { result ≡ self.now.letters }
        ensures sound { IsMachine self.now }
    {
        self.letters
    }

    /// How many replies there are.
    pub fn replies(&self) -> usize
        ensures count { result ≡ length self.now.replies }
        ensures sound { IsMachine self.now }
    {
        self.replies.len()
    }

    /// The next state and the number of the reply.
    pub fn step(&self, state: usize, letter: u16) -> (usize, usize)
        requires state { state < self.now.states }
        requires letter { letter < self.now.letters }
        ensures row { result ≡ row self.now state letter }
        ensures next { result.0 < self.now.states }
        ensures number { result.1 < length self.now.replies }
        ensures sound { IsMachine self.now }
    {
        self.rows.at(state * self.letters + letter as usize)
    }

    /// The state that a word leads to.
    pub fn follow(&self, state: usize, word: &[u16]) -> usize
        requires state { state < self.now.states }
        requires word { IsWord self.now word.now }
        ensures state { result ≡ state_after self.now state word.now }
        ensures within { result < self.now.states }
    {
        let mut at = state;
        for letter in word {
            at = self.step(at, *letter).0;
        }
        at
    }

    /// Whether every state is reached from the start.
    pub fn all_reached(&self, alloc: Global) -> Result<bool, AllocError>
        ensures { IfOk result (λ b. IsTrue b ↔ AllReached self.now) }
    {
        Ok(search(alloc, self)?.len() == self.states())
    }

    /// The reply with a number.
    pub fn reply(&self, number: usize) -> &Reply
        requires { number < length self.now.replies }
        ensures { slice_get self.now.replies number ≡ Some result.now }
    {
        &self.replies[number]
    }
}

/// Whether each row has a next state below `states` and a number below `replies`.
fn are_in_range(rows: &[(usize, usize)], states: usize, replies: usize) -> bool
    ensures { IsTrue result ↔ All (λ r. (r.0 < states) × (r.1 < replies)) rows.now }
{
    rows.iter()
        .all(|(next, number)| *next < states && *number < replies)
}

/// Whether no reply stands twice.
fn are_different(replies: &[Reply]) -> bool
    ensures { IsTrue result ↔ AreDifferent replies.now }
{
    for (place, reply) in replies.iter().enumerate() {
        if replies[..place].contains(reply) {
            return false;
        }
    }
    true
}
