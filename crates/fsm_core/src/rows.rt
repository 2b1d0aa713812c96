ghost use Rattle.std.specs.Prelude.{◌≡◌, ◌<◌, [], ◌∷◌, ◌++◌, length, slice_index_or, IfOk, OnOk};

use std::alloc::{AllocError, Global};
use std::marker::Model;

/// A next state and the number of a reply, in 8 bytes.
#[derive(Clone, Copy)]
struct Row {
    next: u32,
    number: u32,
}

impl Model for Row {
    ghost use Rattle.std.specs.Prelude.{ℕ};

    ghost Value = { ℕ × ℕ };

    ghost view = { λ r. (r.next, r.number) };

    ghost inverse = { λ p. record { next = p.0; number = p.1 } };
}

impl Row {
    fn pair(self) -> (usize, usize)
        ensures { result ≡ self }
    {
        (self.next as usize, self.number as usize)
    }
}

/// Rows of a machine: for each state and letter the next state and the number of the reply.
///
/// A row takes 8 bytes while both numbers fit in 32 bits, and 16 bytes from the first row on where one does not.
#[derive(Drop)]
pub struct Rows {
    narrow: Vec<Row>,
    wide: Vec<(usize, usize)>,
}

impl Model for Rows {
    ghost use Rattle.std.specs.Prelude.{ℕ, List, ◌++◌};

    ghost Value = { List (ℕ × ℕ) };

    ghost view = { λ r. r.narrow.items ++ r.wide.items };
}

impl Rows {
    /// No rows, with room for `count` of 8 bytes.
    pub fn with_capacity(alloc: Global, count: usize) -> Result<Rows, AllocError>
        ensures { IfOk result (λ rows. rows ≡ []) }
    {
        Ok(Rows {
            narrow: Vec::with_capacity(alloc, count)?,
            wide: Vec::new(alloc),
        })
    }

    /// These rows, of 16 bytes. It takes no memory.
    pub fn from_pairs(pairs: Vec<(usize, usize)>) -> Rows
        ensures { result ≡ pairs.items }
    {
        Rows {
            narrow: Vec::new(*pairs.allocator()),
            wide: pairs,
        }
    }

    /// Adds a row.
    pub fn push(&mut self, next: usize, number: usize) -> Result<(), AllocError>
        ensures { OnOk result (self.new ≡ self.old ++ (next, number) ∷ []) }
    {
        if self.wide.is_empty() && next <= u32::MAX as usize && number <= u32::MAX as usize {
            self.narrow.push(Row {
                next: next as u32,
                number: number as u32,
            })?;
        } else {
            self.wide.push((next, number))?;
        }
        Ok(())
    }

    /// How many rows there are.
    pub fn len(&self) -> usize
        ensures { result ≡ length self.now }
    {
        self.narrow.len() + self.wide.len()
    }

    /// The row at a place.
    pub fn at(&self, place: usize) -> (usize, usize)
        requires { place < length self.now }
        ensures { result ≡ slice_index_or self.now place (0, 0) }
    {
        if place < self.narrow.len() {
            self.narrow[place].pair()
        } else {
            self.wide[place - self.narrow.len()]
        }
    }
}
