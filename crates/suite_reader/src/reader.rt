//! What has been read of a suite's text.
ghost use Rattle.std.specs.Prelude.{◌≡◌, ◌≢◌, IfOk, MatchBool};
ghost use Rattle.suite_reading.specs.declared.place.Place.TheVariants as place;
ghost use Rattle.suite_reading.specs.State.{begun, whole};
ghost use Rattle.suite_reading.specs.inside.Kept.{Kept};

mod check;
mod take;

use lin_form::{Input, Inputs, Name, Names, Signature, Vector};
use std::alloc::{AllocError, Global};
use std::marker::Model;
use suite_model::Suite;
use suite_reading::Place;
use test_store::TestStore;

/// What has been read of a suite's text.
#[derive(Drop)]
pub(crate) struct Reader {
    place: Place,
    inputs: Vec<Input>,
    outputs: Vec<Name>,
    bound: usize,
    states: usize,
    classes: Vec<Vector>,
    cover: Vec<Vec<u16>>,
    marks: Vec<Vec<u16>>,
    store: TestStore,
    /// The letters of the test that is being read.
    letters: Vec<u16>,
}

impl Model for Reader {
    ghost use Rattle.std.specs.Prelude.{map};
    ghost use Rattle.suite_model.specs.Pooled.{lists};
    ghost use Rattle.suite_reading.specs.State.{State, row_of};
    ghost use Rattle.suite_reader.specs.inside.Reader.{IsFront};

    ghost Value = { State };

    ghost view = { λ r. record {
      place = r.place;
      inputs = map row_of r.inputs.items;
      outputs = r.outputs.items;
      bound = r.bound;
      states = r.states;
      classes = r.classes.items;
      cover = lists r.cover.items;
      marks = lists r.marks.items;
      tests = r.store.tests;
      now = record { letters = r.letters.items; replies = r.store.now.replies };
    } };

    ghost invariant = { λ r. IsFront r.store.now r.letters.items };
}

impl Reader {
    /// A reader of which nothing was read.
    pub(crate) fn new(alloc: Global) -> Result<Reader, AllocError>
        ensures { IfOk result (λ r. r ≡ begun) }
    {
        Ok(Reader {
            place: Place::Start,
            inputs: Vec::new(alloc),
            outputs: Vec::new(alloc),
            bound: 0,
            states: 0,
            classes: Vec::new(alloc),
            cover: Vec::new(alloc),
            marks: Vec::new(alloc),
            store: TestStore::new(alloc)?,
            letters: Vec::new(alloc),
        })
    }

    /// Whether the end line was read.
    pub(crate) fn is_ended(&self) -> bool
        ensures { MatchBool result (self.now.place ≡ place.End) (self.now.place ≢ place.End) }
    {
        match self.place {
            Place::End => true,
            _ => false,
        }
    }

    /// The suite that was read.
    pub(crate) fn into_suite(self) -> Suite
        requires kept { Kept self }
        requires ended { self.place ≡ place.End }
        ensures { whole result ≡ self }
    {
        let signature = Signature {
            inputs: Inputs::from_vec(self.inputs),
            outputs: Names::from_vec(self.outputs),
        };
        self.store.into_suite(
            signature,
            self.bound,
            self.states,
            self.classes,
            self.cover,
            self.marks,
        )
    }
}
