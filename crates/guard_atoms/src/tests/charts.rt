//! Charts with one state, inputs v, w and x, an output y and a memory z, whose guards are one comparison each.
ghost use Rattle.std.specs.Prelude.{◌≡◌, ◌↔◌, ◌∷◌, ◌<◌, ◌≤◌, [], IfOk, IsTrue, None, length, map, pos, true, unsigned_abs};
ghost use Rattle.std.specs.List.{All};
ghost use Rattle.lin_form.specs.declared.form.Relation.TheVariants.{GreaterOrEqual};
ghost use Rattle.chart_model.specs.Chart.{IsAssumption, IsFormOver, IsMemory, IsTransition, range_size};

use chart_model::{Chart, Condition, Cuts, Guard, Memory, State, Transition};
use lin_form::{Comparison, Form, Input, Inputs, Name, Names, Relation, Reply, Signature, Vector};
use sqlite_items::Items;
use std::alloc::{AllocError, Global};
use std::process::Abort;

/// A relation with 0, and a sum's coefficients of the inputs and of the memory, and its constant.
pub type Test = (Relation, [i64; 3], i64, i64);

fn is_moderate(number: i64) -> bool
    ensures { IsTrue result ↔ (unsigned_abs number ≤ 2000000) }
{
    -2_000_000 <= number && number <= 2_000_000
}

fn form(rt: &impl Abort, alloc: Global, inputs: [i64; 3], memory: i64, constant: i64) -> Form
    ensures over { IsFormOver 3 1 result }
    ensures inputs { result.inputs ≡ inputs }
    ensures memory { result.memory ≡ memory ∷ pos 0 ∷ pos 0 ∷ pos 0 ∷ [] }
{
    assert!(rt; is_moderate(inputs[0]));
    assert!(rt; is_moderate(inputs[1]));
    assert!(rt; is_moderate(inputs[2]));
    assert!(rt; is_moderate(memory));
    assert!(rt; is_moderate(constant));
    Form {
        inputs: Vector::from_slice(alloc, &inputs),
        memory: [memory, 0, 0, 0],
        constant,
    }
}

fn transition(rt: &impl Abort, alloc: Global, states: &[State], test: Test) -> Transition
    requires { 0 < length states.now }
    ensures { IsTransition 3 1 1 states.now result }
{
    let form = form(rt, alloc, test.1, test.2, test.3);
    let relation = test.0;
    Transition {
        source: 0,
        guard: Some(Condition::new(Guard::Test(Comparison { form, relation }))),
        effect: Items::new(alloc),
        target: None,
        history: false,
    }
}

fn transitions(
    rt: &impl Abort,
    alloc: Global,
    states: &[State],
    tests: &[Test],
) -> Result<Items<Transition>, AllocError>
    requires { 0 < length states.now }
    ensures moves { IfOk result (λ transitions. All (IsTransition 3 1 1 states.now) transitions) }
    ensures few { IfOk result (λ transitions. length transitions ≤ 256) }
{
    assert!(rt; tests.len() <= 256);
    let mut transitions = Items::new(alloc);
    for test in tests {
        transitions.push(transition(rt, alloc, states, *test))?;
    }
    Ok(transitions)
}

/// A name of one letter.
fn letter(rt: &impl Abort, byte: u8) -> Name
    ensures { result ≡ byte ∷ [] }
{
    let bytes = [byte];
    assert!(rt; Name::is_name(&bytes));
    Name::from_bytes(&bytes)
}

fn state_name(rt: &impl Abort) -> Name
    ensures { result ≡ 65 ∷ 65 ∷ [] }
{
    let bytes = [65, 65];
    assert!(rt; Name::is_name(&bytes));
    Name::from_bytes(&bytes)
}

fn input(rt: &impl Abort, byte: u8) -> Input
    ensures { result.name ≡ byte ∷ [] }
{
    Input {
        name: letter(rt, byte),
        lo: 0,
        hi: 4000,
    }
}

fn signature(rt: &impl Abort, alloc: Global) -> Result<Signature, AllocError>
    ensures inputs { IfOk result (λ signature. map (λ input. input.name) signature.inputs
        ≡ (118 ∷ []) ∷ (119 ∷ []) ∷ (120 ∷ []) ∷ []) }
    ensures outputs { IfOk result (λ signature. signature.outputs ≡ (121 ∷ []) ∷ []) }
{
    let inputs = Vec::from_slice(alloc, &[input(rt, b'v'), input(rt, b'w'), input(rt, b'x')])?;
    let outputs = Vec::from_slice(alloc, &[letter(rt, b'y')])?;
    Ok(Signature {
        inputs: Inputs::from_vec(inputs),
        outputs: Names::from_vec(outputs),
    })
}

/// The memory z, with its range.
fn memory(rt: &impl Abort, range: (i64, i64)) -> Memory
    ensures memory { IsMemory result }
    ensures name { result.name ≡ 122 ∷ [] }
    ensures size { range_size result ≤ 256 }
{
    let (lo, hi) = range;
    assert!(rt; -1000 <= lo && hi <= 1000);
    assert!(rt; lo <= hi && hi - lo < 256);
    Memory {
        name: letter(rt, b'z'),
        lo,
        hi,
        initial: lo,
    }
}

/// The assumption that v is at least a number, where there is one.
fn assumptions(
    rt: &impl Abort,
    alloc: Global,
    least: Option<i64>,
) -> Result<Items<Comparison>, AllocError>
    ensures assumptions { IfOk result (λ assumed. All (IsAssumption 3) assumed) }
    ensures few { IfOk result (λ assumed. length assumed ≤ 16) }
{
    let mut assumed = Items::new(alloc);
    if let Some(least) = least {
        assert!(rt; is_moderate(least));
        let form = form(rt, alloc, [1, 0, 0], 0, -least);
        let relation = Relation::GreaterOrEqual;
        assumed.push(Comparison { form, relation })?;
    }
    Ok(assumed)
}

/// The chart with this range of the memory, this assumption, and a transition for each test.
pub fn chart(
    rt: &impl Abort,
    alloc: Global,
    range: (i64, i64),
    least: Option<i64>,
    tests: &[Test],
) -> Result<Chart, AllocError>
    ensures { IfOk result (λ chart. length chart.signature.inputs ≡ 3) }
{
    let signature = signature(rt, alloc)?;
    let memories = Items::from_slice(alloc, &[memory(rt, range)])?;
    let mut states = Items::new(alloc);
    states.push(State {
        name: state_name(rt),
        parent: None,
        start: true,
        entry: Items::new(alloc),
        exit: Items::new(alloc),
    })?;
    let assumed = assumptions(rt, alloc, least)?;
    let transitions = transitions(rt, alloc, states.as_slice(), tests)?;
    Ok(Chart {
        signature,
        initial: Reply::from_slice(&[0]),
        assumed,
        memories,
        states,
        transitions,
    })
}

/// Cuts over the inputs v, w and x.
pub fn cuts(rt: &impl Abort, alloc: Global, rows: &[Test]) -> Result<Cuts, AllocError>
    ensures { IfOk result (λ cuts. All (λ cut. length cut.form.inputs ≡ 3) cuts) }
{
    let mut list = Vec::new(alloc);
    for row in rows {
        let form = form(rt, alloc, row.1, 0, row.3);
        let relation = row.0;
        list.push(Comparison { form, relation })?;
    }
    Ok(Cuts::from_vec(list))
}
