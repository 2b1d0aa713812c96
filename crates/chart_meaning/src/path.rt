ghost use Rattle.std.specs.Prelude.{◌≡◌, ◌<◌, ◌≤◌, ◌++◌, ◌∷◌, [], length, reverse};

use std::marker::Model;

/// At most eight states by their numbers, in an order.
#[derive(Drop)]
pub struct Path {
    states: [u8; 8],
    len: u8,
}

impl Model for Path {
    ghost use Rattle.std.specs.Prelude.{◌≡◌, ◌≤◌, ℕ, List, take, length};

    ghost Value = { List ℕ };

    ghost view = { λ p. take p.len p.states };

    ghost invariant = { λ p. (p.len ≤ 8) × (length p.states ≡ 8) };
}

impl Path {
    /// No states.
    pub fn new() -> Path
        ensures { result ≡ [] }
    {
        Path {
            states: [0; 8],
            len: 0,
        }
    }

    /// Adds a state at the end.
    pub fn push(&mut self, state: u8)
        requires { length self.old < 8 }
        ensures { self.new ≡ self.old ++ state ∷ [] }
    {
        self.states[self.len as usize] = state;
        self.len += 1;
    }

    /// Turns the order round.
    pub fn reverse(&mut self)
        ensures { self.new ≡ reverse self.old }
    {
        let len = self.len as usize;
        self.states[..len].reverse();
    }

    /// The states in order.
    pub fn as_slice(&self) -> &[u8]
        ensures value { result.now ≡ self.now }
        ensures short { length self.now ≤ 8 }
    {
        &self.states[..self.len as usize]
    }
}
