ghost use Rattle.std.specs.Prelude.{◌≡◌, option_copied};
ghost use Rattle.subject.specs.FiniteMap.{entry_of};

use crate::{Case, Plan, Step};
use lin_form::{Reply, Signature, Vector};
use std::marker::Model;

/// A finite map from pairs of a state and a vector to pairs of a next state and a reply, held with a signature. It is
/// a plan that starts in 0. The first entry for a state and vector counts; without an entry it stays and replies with
/// the empty list. Each step looks through the entries in order.
#[derive(Drop)]
pub struct Cases {
    signature: Signature,
    entries: Vec<Case>,
}

impl Model for Cases {
    ghost use Rattle.subject.specs.FiniteMap.{FiniteMap};

    ghost Value = { FiniteMap };

    ghost view = { λ cases. record { signature = cases.signature; entries = cases.entries.items } };
}

impl Cases {
    /// The map of these entries. It takes no memory.
    pub fn new(signature: Signature, entries: Vec<Case>) -> Cases
        ensures { result ≡ record { signature = signature; entries = entries.items } }
    {
        Cases { signature, entries }
    }
}

impl Plan for Cases {
    type State = u32;

    ghost use Rattle.std.proofs.lemmas.Bool.Decides.{Decides-eqb};
    ghost use Rattle.subject.specs.FiniteMap.{plan_of_map};

    ghost plan = { plan_of_map };

    fn signature(&self) -> &Signature {
        &self.signature
    }

    fn begin(&self) -> u32 {
        0
    }

    fn advance(&self, state: &u32, input: &Vector) -> Step<u32> {
        match first_entry(self.entries.as_slice(), *state, input) {
            Some(entry) => Step {
                state: entry.next,
                reply: entry.reply,
            },
            None => Step {
                state: *state,
                reply: Reply::from_slice(&[]),
            },
        }
    }

    ghost same = { λ x y e. (Decides-eqb x y).0 e };
}

/// The first entry for a state and a vector.
fn first_entry<'a>(entries: &'a [Case], state: u32, input: &Vector) -> Option<&'a Case>
    ensures { option_copied result ≡ entry_of entries.now state input.now }
{
    entries
        .iter()
        .find(|entry| entry.state == state && entry.input == *input)
}
