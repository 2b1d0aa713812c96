//! The suite of a speed alarm for two states, and plans that answer it.
ghost use Rattle.std.specs.Prelude.{◌≡◌, ◌↔◌, ◌<◌, length, IfOk, IsTrue, OnOk};
ghost use Rattle.std.specs.List.{All};
ghost use Rattle.lin_form.specs.Signature.{IsInInputRanges};
ghost use Rattle.suite_reading.specs.State.{AreRuled, no_test};
ghost use Rattle.running_tests.specs.Alarm.{IsAlarm};

mod charts;
mod running;
mod texts;

use lin_form::{Input, Inputs, Name, Names, Reply, Signature, Vector};
use std::alloc::{AllocError, Global};
use std::process::Abort;
use subject::{Case, Cases};
use suite_model::Suite;
use test_store::TestStore;

/// The letters of a test, and the reply that is expected to each.
type Test = (&'static [u16], &'static [i64]);

/// A state, an input, the next state and the reply.
type Row = (u32, i64, u32, i64);

/// The suite over the witnesses 0, 6 and 8.
const TESTS: [Test; 5] = [
    (&[0, 1], &[0, 0]),
    (&[1, 1], &[0, 0]),
    (&[2, 0, 1], &[1, 0, 0]),
    (&[2, 1, 1], &[1, 1, 1]),
    (&[2, 2, 1], &[1, 1, 1]),
];

/// The alarm itself.
const ALARM: [Row; 6] = [
    (0, 0, 0, 0),
    (0, 6, 0, 0),
    (0, 8, 1, 1),
    (1, 0, 0, 0),
    (1, 6, 1, 1),
    (1, 8, 1, 1),
];

/// One that replies 1 to the first input of all, and differs later too.
const FIRST_DIFFERS: [Row; 3] = [(0, 0, 0, 1), (0, 6, 0, 1), (0, 8, 1, 1)];

/// One that differs at the last step of the last test alone: it forgets the alarm after two inputs of 8.
const LAST_DIFFERS: [Row; 7] = [
    (0, 0, 0, 0),
    (0, 6, 0, 0),
    (0, 8, 1, 1),
    (1, 0, 0, 0),
    (1, 6, 1, 1),
    (1, 8, 2, 1),
    (2, 6, 2, 0),
];

fn name(rt: &impl Abort, text: &str) -> Name
    ensures { result ≡ text.now }
{
    assert!(rt; Name::is_name(text.as_bytes()));
    Name::from_bytes(text.as_bytes())
}

fn signature(rt: &impl Abort, alloc: Global) -> Result<Signature, AllocError>
    ensures { IfOk result IsAlarm }
{
    let speed = Input {
        name: name(rt, "v"),
        lo: 0,
        hi: 10,
    };
    let inputs = vec![in alloc; speed]?;
    let outputs = vec![in alloc; name(rt, "alarm")]?;
    Ok(Signature {
        inputs: Inputs::from_vec(inputs),
        outputs: Names::from_vec(outputs),
    })
}

/// Whether each vector is in the signature's ranges.
fn are_in_ranges(signature: &Signature, vectors: &[Vector]) -> bool
    ensures { IsTrue result ↔ All (IsInInputRanges signature.now.inputs) vectors.now }
{
    vectors
        .iter()
        .all(|vector| signature.inputs.contains(vector))
}

/// Enters a test.
fn enter(
    rt: &impl Abort,
    store: &mut TestStore,
    letters: &[u16],
    replies: &[i64],
) -> Result<(), AllocError>
    requires tests { All (AreRuled 3 1) store.old.tests }
    requires now { store.old.now ≡ no_test }
    ensures tests { OnOk result (All (AreRuled 3 1) store.new.tests) }
    ensures now { OnOk result (store.new.now ≡ no_test) }
{
    store.reserve()?;
    assert_eq!(rt; letters.len(), replies.len());
    for step in 0..letters.len() {
        assert!(rt; letters[step] < 3 && store.words() < 1_000);
        let entered = store.step(letters[step], Reply::from_slice(&[replies[step]]))?;
        assert!(rt; entered);
    }
    assert!(rt; store.steps() > 0);
    store.finish();
    Ok(())
}

/// The suite. It is made by hand, with no cover words and no marks, which are not run.
fn suite(rt: &impl Abort, alloc: Global) -> Result<Suite, AllocError>
    ensures { IfOk result (λ s. IsAlarm s.signature) }
{
    let mut store = TestStore::new(alloc)?;
    for (letters, replies) in &TESTS {
        enter(rt, &mut store, letters, replies)?;
    }
    assert!(rt; store.tests() > 0);
    let classes = vec![in alloc;
        Vector::from_slice(alloc, &[0]),
        Vector::from_slice(alloc, &[6]),
        Vector::from_slice(alloc, &[8]),
    ]?;
    let signature = signature(rt, alloc)?;
    assert!(rt; are_in_ranges(&signature, classes.as_slice()));
    Ok(store.into_suite(signature, 2, 2, classes, Vec::new(alloc), Vec::new(alloc)))
}

/// The plan of these rows.
fn plan(rt: &impl Abort, alloc: Global, rows: &[Row]) -> Result<Cases, AllocError>
    ensures { IfOk result (λ cases. IsAlarm cases.signature) }
{
    let mut entries = Vec::new(alloc);
    for (state, input, next, reply) in rows {
        entries.push(Case {
            state: *state,
            input: Vector::from_slice(alloc, &[*input]),
            next: *next,
            reply: Reply::from_slice(&[*reply]),
        })?;
    }
    Ok(Cases::new(signature(rt, alloc)?, entries))
}
