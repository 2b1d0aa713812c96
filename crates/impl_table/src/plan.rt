ghost use Rattle.std.specs.Prelude.{◌≡◌};
ghost use Rattle.impl_table.specs.Plan.{own_reply};

use crate::table::{Table, TableState};
use lin_form::{Reply, Signature, Vector};
use subject::{Plan, Step};

/// The reply of a state where no row fires, which is empty where there is no such state.
fn own_reply(states: &[TableState], state: usize) -> Reply
    ensures { result ≡ own_reply states.now state }
{
    match states.get(state) {
        Some(found) => found.reply,
        None => Reply::from_slice(&[]),
    }
}

impl Plan for Table {
    type State = u16;

    ghost use Rattle.std.proofs.lemmas.Bool.Decides.{Decides-eqb};
    ghost use Rattle.impl_table.specs.Plan.{plan_of_table};

    ghost plan = { plan_of_table };

    fn signature(&self) -> &Signature {
        &self.signature
    }

    fn begin(&self) -> u16 {
        0
    }

    fn advance(&self, state: &u16, input: &Vector) -> Step<u16> {
        match self.rows.first_enabled(*state as usize, input) {
            Some(row) => Step {
                state: row.to as u16,
                reply: row.reply,
            },
            None => Step {
                state: *state,
                reply: own_reply(self.states.as_slice(), *state as usize),
            },
        }
    }

    ghost same = { λ x y e. (Decides-eqb x y).0 e };
}
