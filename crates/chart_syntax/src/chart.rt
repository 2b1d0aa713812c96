ghost use Rattle.std.specs.Prelude.{◌≡◌, ◌≤◌, length, map, None, All, IfOk};
ghost use Rattle.line_forms.specs.Forms.{value_of};
ghost use Rattle.chart_syntax.specs.Checks.{end_check};
ghost use Rattle.chart_syntax.specs.inside.Promises.{IsPartial, HasRange};
ghost use Rattle.chart_syntax.specs.Reading.{IsContent, bounds_of_input, bounds_of_form, memory_of, states_of};
ghost use Rattle.chart_syntax.specs.Reading.{actions_of_line};

use crate::reader::{DeclaredState, Reader};
use crate::value::value;
use chart_model::{Action, Chart, Memory, State};
use lin_form::{Input, Inputs, Names, Reply, Signature};
use line_forms::{InputForm, MemoryForm, OutputForm};
use sqlite_items::Items;
use std::alloc::{AllocError, Global};

fn inputs(alloc: Global, forms: &[InputForm]) -> Result<Inputs, AllocError>
    requires { All HasRange forms.now }
    ensures { IfOk result (λ inputs. map bounds_of_input inputs ≡ map bounds_of_form forms.now) }
{
    let mut inputs = Vec::new(alloc);
    'inputs: for form in forms {
        let input = Input {
            name: form.name,
            lo: value(form.lo),
            hi: value(form.hi),
        };
        if inputs.push(input).is_err() {
            return Err(AllocError);
        }
    }
    Ok(Inputs::from_vec(inputs))
}

fn names(alloc: Global, forms: &[OutputForm]) -> Result<Names, AllocError>
    ensures { IfOk result (λ names. names ≡ map (λ form. form.name) forms.now) }
{
    let mut names = Vec::new(alloc);
    'names: for form in forms {
        if names.push(form.name).is_err() {
            return Err(AllocError);
        }
    }
    Ok(Names::from_vec(names))
}

fn initial(alloc: Global, forms: &[OutputForm]) -> Result<Reply, AllocError>
    requires { length forms.now ≤ 8 }
    ensures { IfOk result (λ values. values ≡ map (λ form. value_of form.value) forms.now) }
{
    let mut values = Vec::new(alloc);
    'values: for form in forms {
        if values.push(value(form.value)).is_err() {
            return Err(AllocError);
        }
    }
    Ok(Reply::from_slice(values.as_slice()))
}

fn memories(alloc: Global, forms: &[MemoryForm]) -> Result<Items<Memory>, AllocError>
    ensures { IfOk result (λ memories. memories ≡ map memory_of forms.now) }
{
    let mut memories = Items::new(alloc);
    'memories: for form in forms {
        let memory = Memory {
            name: form.name,
            lo: value(form.lo),
            hi: value(form.hi),
            initial: value(form.value),
        };
        if memories.push(memory).is_err() {
            return Err(AllocError);
        }
    }
    Ok(memories)
}

/// The actions of a line on entry or exit, none where there was no line.
fn line_actions(alloc: Global, line: Option<Items<Action>>) -> Items<Action>
    ensures { result ≡ actions_of_line line }
{
    match line {
        Some(actions) => actions,
        None => Items::new(alloc),
    }
}

/// The states with their actions, which stand in the lists of lines at the places of their states.
fn states(
    alloc: Global,
    declared: &[DeclaredState],
    entries: Items<Option<Items<Action>>>,
    exits: Items<Option<Items<Action>>>,
) -> Result<Items<State>, AllocError>
    requires entries { length entries ≡ length declared.now }
    requires exits { length exits ≡ length declared.now }
    ensures { IfOk result (λ states. states ≡ states_of declared.now entries exits) }
{
    let mut states = Items::new(alloc);
    let mut entries = entries;
    let mut exits = exits;
    'states: for state in declared {
        let entry = line_actions(alloc, entries.remove(0));
        let exit = line_actions(alloc, exits.remove(0));
        let state = State {
            name: state.name,
            parent: state.parent,
            start: state.start,
            entry,
            exit,
        };
        if states.push(state).is_err() {
            return Err(AllocError);
        }
    }
    Ok(states)
}

/// The chart of what was declared.
pub fn chart(alloc: Global, reader: Reader) -> Result<Chart, AllocError>
    requires partial { IsPartial reader }
    requires complete { end_check reader ≡ None }
    ensures { IfOk result (IsContent reader) }
{
    let Reader {
        version: _,
        group: _,
        inputs: input_forms,
        assumed,
        outputs: output_forms,
        memories: memory_forms,
        product: _,
        states: declared,
        entries,
        exits,
        transitions,
    } = reader;
    let inputs = inputs(alloc, input_forms.as_slice())?;
    let outputs = names(alloc, output_forms.as_slice())?;
    let initial = initial(alloc, output_forms.as_slice())?;
    let memories = memories(alloc, memory_forms.as_slice())?;
    let states = states(alloc, declared.as_slice(), entries, exits)?;
    Ok(Chart {
        signature: Signature { inputs, outputs },
        initial,
        assumed,
        memories,
        states,
        transitions,
    })
}
