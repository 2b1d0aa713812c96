ghost use Rattle.std.specs.Prelude.{◌≡◌};

use std::marker::Model;

/// The truth of each atom on a vector, in the order of the atoms.
#[derive(Drop)]
pub struct Pattern {
    truths: Vec<bool>,
}

impl Model for Pattern {
    ghost use Rattle.std.specs.Prelude.{Bool, List};

    ghost Value = { List Bool };

    ghost view = { λ pattern. pattern.truths.items };
}

impl Pattern {
    /// The pattern of these truths. It takes no memory.
    pub fn from_vec(truths: Vec<bool>) -> Pattern
        ensures { result ≡ truths.items }
    {
        Pattern { truths }
    }

    /// The truths in order.
    pub fn as_slice(&self) -> &[bool]
        ensures { result.now ≡ self.now }
    {
        self.truths.as_slice()
    }
}
