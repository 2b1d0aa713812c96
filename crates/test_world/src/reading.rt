//! Reading a whole text from a shelf.
ghost use Rattle.std.specs.Prelude.{◌≡◌, ◌≤◌, [], ◌∷◌};
ghost use Rattle.test_world.specs.Shelf.{Keeps, Visits, HasName, IsSound, held_of};
ghost use Rattle.test_world.specs.Load.{Loads, IsFault};

use crate::shelf::{Fault, Shelf};
use std::alloc::Global;
use std::marker::Model;
use thiserror::Error;

/// Why a text was not read in.
#[derive(Debug, Clone, Copy, PartialEq, Eq, Error)]
pub enum LoadError {
    /// A call of the shelf failed.
    #[error("the text cannot be read")]
    Fault,
    /// The text has more bytes than it may have.
    #[error("the text is too long")]
    TooLong,
    /// There was no memory for the text.
    #[error("out of memory")]
    Memory,
}

/// A text that was read in, seen as the list of its bytes.
#[derive(Debug, Drop)]
pub struct Text {
    bytes: Vec<u8>,
}

impl Model for Text {
    ghost use Rattle.std.specs.Prelude.{ℕ, List};

    ghost Value = { List ℕ };

    ghost view = { λ text. text.bytes.items };
}

impl Text {
    /// The text of these bytes.
    pub fn new(bytes: Vec<u8>) -> Text
        ensures { result ≡ bytes.items }
    {
        Text { bytes }
    }

    /// The bytes of the text.
    pub fn bytes(&self) -> &[u8]
        ensures { result.now ≡ self.now }
    {
        &self.bytes
    }
}

/// Takes up the text called `name`, and reads it to its end. A text of more than `most` bytes is
/// refused, and the rest of it is left unread.
pub fn load<F: Shelf>(
    alloc: Global,
    shelf: &mut F,
    name: &str,
    most: usize,
) -> Result<Text, LoadError>
    requires { most ≤ 16777216 }
    ensures loads { Loads (F.state shelf.old) (F.state shelf.new) name.now most result }
    ensures keeps { Keeps (F.state shelf.old) (F.state shelf.new) }
    ensures visits { Visits (F.state shelf.old) (F.state shelf.new) (name.now ∷ []) }
    ensures stays_sound { IsSound (F.state shelf.old) → HasName (held_of (F.state shelf.old)) name.now
        → IsSound (F.state shelf.new) }
    ensures no_fault { IsSound (F.state shelf.old) → HasName (held_of (F.state shelf.old)) name.now
        → IsFault result → ⊥ }
{
    if shelf.take_up(name).is_err() {
        return Err(LoadError::Fault);
    }
    let mut bytes = Vec::new(alloc);
    let mut buf = [0; 4096];
    loop {
        let Ok(count) = shelf.pull(&mut buf) else {
            return Err(LoadError::Fault);
        };
        if count == 0 {
            return Ok(Text::new(bytes));
        }
        if count > most - bytes.len() {
            return Err(LoadError::TooLong);
        }
        if bytes.extend_from_slice(&buf[..count]).is_err() {
            return Err(LoadError::Memory);
        }
    }
}
