//! Charts that are made from rows of numbers, with inputs v and w, outputs x and y, and a memory z.
ghost use Rattle.std.specs.Prelude.{◌≡◌, ◌+◌, ◌<◌, ◌≤◌, ◌/◌, ◌%◌, ◌↔◌, ◌∷◌, ◌++◌, [], IfOk, IsTrue, ℕ};
ghost use Rattle.std.specs.Prelude.{count_by, length, map, max, slice_get, true, unsigned_abs};
ghost use Rattle.std.specs.List.{All, range_with_len};
ghost use Rattle.std.specs.Option.{ForSome, option_map_or};
ghost use Rattle.lin_form.specs.Range.{IsCount};
ghost use Rattle.chart_model.specs.Chart.{AreNames, IsAction, IsFormOver, IsGuard, IsMemory, IsState, IsTransition, is_declared, range_size};
ghost use Rattle.chart_model.specs.Guard.{plain, comparisons_of, depth_of_guard};
ghost use Rattle.chart_model.specs.States.{IsTree, is_start_child_of, is_top_start, is_within_depth, parent_of};
ghost use Rattle.chart_model.specs.declared.state.State.{State};

use crate::rows::has_children;
use crate::start::is_top_start;
use crate::tree::is_child_of;
use chart_model::{Action, Chart, Condition, Guard, Memory, Place, State, Transition};
use lin_form::{Comparison, Form, Input, Inputs, Name, Names, Relation, Reply, Signature, Vector};
use sqlite_items::Items;
use std::alloc::{AllocError, Global};
use std::process::Abort;

/// What is assigned, and a sum's coefficient of the memory and its constant.
pub type Assignment = (Place, i64, i64);

/// A state's parent, whether it is a start, and its entry and exit actions.
pub type StateRow<'a> = (Option<usize>, bool, &'a [Assignment], &'a [Assignment]);

/// A relation with 0, and a sum's coefficients of the inputs and of the memory, and its constant.
pub type Test = (Relation, [i64; 2], i64, i64);

/// A transition's source, the tests that must all hold, its effect, its target, and whether it has history.
pub type TransitionRow<'a> = (usize, &'a [Test], &'a [Assignment], Option<usize>, bool);

fn is_small(number: i64) -> bool
    ensures { IsTrue result ↔ (unsigned_abs number ≤ 1000) }
{
    -1000 <= number && number <= 1000
}

fn form(rt: &impl Abort, alloc: Global, inputs: [i64; 2], memory: i64, constant: i64) -> Form
    ensures over { IsFormOver 2 1 result }
    ensures inputs { result.inputs ≡ inputs }
{
    assert!(rt; is_small(inputs[0]));
    assert!(rt; is_small(inputs[1]));
    assert!(rt; is_small(memory));
    assert!(rt; is_small(constant));
    Form {
        inputs: Vector::from_slice(alloc, &inputs),
        memory: [memory, 0, 0, 0],
        constant,
    }
}

/// Whether there is such a memory or output.
fn is_declared(place: Place) -> bool
    ensures { result ≡ is_declared 1 2 place }
{
    match place {
        Place::Memory(number) => number < 1,
        Place::Output(number) => number < 2,
    }
}

fn action(rt: &impl Abort, alloc: Global, assignment: Assignment) -> Action
    ensures { IsAction 2 1 2 result }
{
    let place = assignment.0;
    assert!(rt; is_declared(place));
    let value = form(rt, alloc, [0, 0], assignment.1, assignment.2);
    Action { place, value }
}

fn actions(rt: &impl Abort, alloc: Global, rows: &[Assignment]) -> Result<Items<Action>, AllocError>
    ensures { IfOk result (λ actions. All (IsAction 2 1 2) actions) }
{
    let mut actions = Items::new(alloc);
    for row in rows {
        actions.push(action(rt, alloc, *row))?;
    }
    Ok(actions)
}

/// The guard that holds where the one before holds and one more test does.
fn and_test(alloc: Global, before: Option<Guard>, test: Comparison) -> Result<Guard, AllocError>
    ensures tests { IfOk result (λ guard. comparisons_of (plain guard) ≡ option_map_or (λ guard. comparisons_of (plain guard)) before [] ++ test ∷ []) }
    ensures depth { IfOk result (λ guard. depth_of_guard (plain guard) ≤ max (option_map_or (λ guard. depth_of_guard (plain guard)) before 0) 1 + 1) }
{
    match before {
        Some(before) => {
            let left = Box::new(alloc, before)?;
            Ok(Guard::And(left, Box::new(alloc, Guard::Test(test))?))
        }
        None => Ok(Guard::Test(test)),
    }
}

fn guard(rt: &impl Abort, alloc: Global, tests: &[Test]) -> Result<Option<Condition>, AllocError>
    ensures { IfOk result (λ guard. ForSome guard (IsGuard 2 1)) }
{
    assert!(rt; tests.len() <= 64);
    let mut all = None;
    for test in tests {
        let form = form(rt, alloc, test.1, test.2, test.3);
        let relation = test.0;
        all = Some(and_test(alloc, all, Comparison { form, relation })?);
    }
    match all {
        Some(all) => Ok(Some(Condition::new(all))),
        None => Ok(None),
    }
}

/// A name of one letter.
fn letter(rt: &impl Abort, byte: u8) -> Name
    ensures { result ≡ byte ∷ [] }
{
    let bytes = [byte];
    assert!(rt; Name::is_name(&bytes));
    Name::from_bytes(&bytes)
}

/// A state's name of two letters.
fn state_name(rt: &impl Abort, number: usize) -> Name
    requires { number < 64 }
    ensures { result ≡ (number / 8 + 65) ∷ (number % 8 + 65) ∷ [] }
{
    let bytes = [number as u8 / 8 + 65, number as u8 % 8 + 65];
    assert!(rt; Name::is_name(&bytes));
    Name::from_bytes(&bytes)
}

fn state(rt: &impl Abort, alloc: Global, number: usize, row: StateRow) -> Result<State, AllocError>
    requires { number < 64 }
    ensures state { IfOk result (λ state. IsState 2 1 2 state) }
    ensures name { IfOk result (λ state. state.name ≡ (number / 8 + 65) ∷ (number % 8 + 65) ∷ []) }
{
    let entry = actions(rt, alloc, row.2)?;
    let exit = actions(rt, alloc, row.3)?;
    Ok(State {
        name: state_name(rt, number),
        parent: row.0,
        start: row.1,
        entry,
        exit,
    })
}

/// States that are named AA, AB and so on.
fn states(rt: &impl Abort, alloc: Global, rows: &[StateRow]) -> Result<Items<State>, AllocError>
    ensures states { IfOk result (λ states. All (IsState 2 1 2) states) }
    ensures names { IfOk result (λ states. map (λ state. state.name) states
        ≡ map (λ number. (number / 8 + 65) ∷ (number % 8 + 65) ∷ []) (range_with_len 0 (length states))) }
    ensures few { IfOk result (λ states. length states ≤ 64) }
{
    assert!(rt; rows.len() <= 64);
    let mut states = Items::new(alloc);
    for (number, row) in rows.iter().enumerate() {
        states.push(state(rt, alloc, number, *row)?)?;
    }
    Ok(states)
}

/// Whether each parent has a smaller number.
fn are_parents_first(states: &[State]) -> bool
    ensures { IsTrue result → (s : ℕ) (state : State) → slice_get states.now s ≡ Some state → ForSome state.parent (λ parent. parent < s) }
{
    for (number, state) in states.iter().enumerate() {
        if let Some(parent) = state.parent {
            if number <= parent {
                return false;
            }
        }
    }
    true
}

/// Whether at most so many states are on the way from the top to this one. Past the end there is no parent.
fn is_within_depth(depth: usize, states: &[State], state: usize) -> bool
    ensures { result ≡ is_within_depth depth states.now state }
{
    if depth == 0 {
        return false;
    }
    match parent_of(states, state) {
        Some(parent) => is_within_depth(depth - 1, states, parent),
        None => true,
    }
}

/// The state that contains a state.
fn parent_of(states: &[State], state: usize) -> Option<usize>
    ensures { result ≡ parent_of states.now state }
{
    match states.get(state) {
        Some(found) => found.parent,
        None => None,
    }
}

/// Whether no state stands deeper than eight.
fn are_shallow(states: &[State]) -> bool
    ensures { IsTrue result → (s : ℕ) → s < length states.now → is_within_depth 8 states.now s ≡ true }
{
    for state in 0..states.len() {
        if !is_within_depth(8, states, state) {
            return false;
        }
    }
    true
}

fn count_start_children(states: &[State], state: usize) -> usize
    ensures { result ≡ count_by (is_start_child_of state) states.now }
{
    states
        .iter()
        .filter(|child| child.start && is_child_of(state, child))
        .count()
}

fn count_top_starts(states: &[State]) -> usize
    ensures { result ≡ count_by is_top_start states.now }
{
    let mut count = 0;
    for state in states {
        if is_top_start(state) {
            count += 1;
        }
    }
    count
}

/// Whether the state's parent, if it has one, has one start child.
fn has_start(states: &[State], child: &State) -> bool
    ensures { IsTrue result → ForSome child.now.parent (λ parent. count_by (is_start_child_of parent) states.now ≡ 1) }
{
    match child.parent {
        Some(parent) => count_start_children(states, parent) == 1,
        None => true,
    }
}

/// Whether each parent has one start child.
fn have_starts(states: &[State]) -> bool
    ensures { IsTrue result → All (λ (child : State). ForSome child.parent (λ parent. count_by (is_start_child_of parent) states.now ≡ 1)) states.now }
{
    for child in states {
        if !has_start(states, child) {
            return false;
        }
    }
    true
}

/// States that contain one another as a chart's states do.
fn tree(rt: &impl Abort, alloc: Global, rows: &[StateRow]) -> Result<Items<State>, AllocError>
    ensures states { IfOk result (λ states. All (IsState 2 1 2) states) }
    ensures names { IfOk result (λ states. AreNames (map (λ state. state.name) states)) }
    ensures tree { IfOk result IsTree }
    ensures count { IfOk result (λ states. IsCount 64 (length states)) }
{
    let states = states(rt, alloc, rows)?;
    let first = are_parents_first(states.as_slice());
    assert!(rt; first);
    let shallow = are_shallow(states.as_slice());
    assert!(rt; shallow);
    let started = have_starts(states.as_slice());
    assert!(rt; started);
    let tops = count_top_starts(states.as_slice());
    assert!(rt; tops == 1);
    Ok(states)
}

fn transition(
    rt: &impl Abort,
    alloc: Global,
    states: &[State],
    row: TransitionRow,
) -> Result<Transition, AllocError>
    ensures { IfOk result (λ transition. IsTransition 2 1 2 states.now transition) }
{
    assert!(rt; row.0 < states.len());
    match row.3 {
        Some(target) => {
            assert!(rt; target < states.len());
            assert!(rt; !row.4 || has_children(states, target));
        }
        None => assert!(rt; !row.4),
    }
    let guard = guard(rt, alloc, row.1)?;
    let effect = actions(rt, alloc, row.2)?;
    Ok(Transition {
        source: row.0,
        guard,
        effect,
        target: row.3,
        history: row.4,
    })
}

fn transitions(
    rt: &impl Abort,
    alloc: Global,
    states: &[State],
    rows: &[TransitionRow],
) -> Result<Items<Transition>, AllocError>
    ensures moves { IfOk result (λ transitions. All (IsTransition 2 1 2 states.now) transitions) }
    ensures few { IfOk result (λ transitions. length transitions ≤ 256) }
{
    assert!(rt; rows.len() <= 256);
    let mut transitions = Items::new(alloc);
    for row in rows {
        transitions.push(transition(rt, alloc, states, *row)?)?;
    }
    Ok(transitions)
}

fn input(rt: &impl Abort, byte: u8) -> Input
    ensures { result.name ≡ byte ∷ [] }
{
    Input {
        name: letter(rt, byte),
        lo: 0,
        hi: 4000,
    }
}

/// Inputs v and w from 0 to 4000, and outputs x and y.
fn signature(rt: &impl Abort, alloc: Global) -> Result<Signature, AllocError>
    ensures inputs { IfOk result (λ signature. map (λ input. input.name) signature.inputs ≡ (118 ∷ []) ∷ (119 ∷ []) ∷ []) }
    ensures outputs { IfOk result (λ signature. signature.outputs ≡ (120 ∷ []) ∷ (121 ∷ []) ∷ []) }
{
    let inputs = Vec::from_slice(alloc, &[input(rt, b'v'), input(rt, b'w')])?;
    let outputs = Vec::from_slice(alloc, &[letter(rt, b'x'), letter(rt, b'y')])?;
    Ok(Signature {
        inputs: Inputs::from_vec(inputs),
        outputs: Names::from_vec(outputs),
    })
}

/// A memory z.
fn memory(rt: &impl Abort, range: (i64, i64, i64)) -> Memory
    ensures memory { IsMemory result }
    ensures name { result.name ≡ 122 ∷ [] }
    ensures size { range_size result ≤ 256 }
{
    let (lo, hi, initial) = range;
    assert!(rt; is_small(lo));
    assert!(rt; is_small(hi));
    assert!(rt; lo <= initial);
    assert!(rt; initial <= hi);
    assert!(rt; hi - lo < 256);
    Memory {
        name: letter(rt, b'z'),
        lo,
        hi,
        initial,
    }
}

/// A chart whose outputs have one initial value.
pub fn chart(
    rt: &impl Abort,
    alloc: Global,
    initial: i64,
    range: (i64, i64, i64),
    state_rows: &[StateRow],
    transition_rows: &[TransitionRow],
) -> Result<Chart, AllocError> {
    assert!(rt; is_small(initial));
    let signature = signature(rt, alloc)?;
    let memories = Items::from_slice(alloc, &[memory(rt, range)])?;
    let states = tree(rt, alloc, state_rows)?;
    let transitions = transitions(rt, alloc, states.as_slice(), transition_rows)?;
    Ok(Chart {
        signature,
        initial: Reply::from_slice(&[initial, initial]),
        assumed: Items::new(alloc),
        memories,
        states,
        transitions,
    })
}
