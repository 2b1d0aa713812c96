ghost use Rattle.std.specs.Prelude.{◌≡◌, ◌≤◌, ◌<◌, length, false, map, None, OnOk};
ghost use Rattle.line_forms.specs.declared.statement.Statement.TheVariants as says;
ghost use Rattle.chart_syntax.specs.Checks.{is_variable, state_names, names_check, memory_size};
ghost use Rattle.chart_syntax.specs.Checks.{resolved_of, next_statement, with_assumption, with_state, with_entry};
ghost use Rattle.chart_syntax.specs.Checks.{with_exit, with_transition, declared_state, parent_number};
ghost use Rattle.line_checks.specs.Names.{has_name};
ghost use Rattle.chart_syntax.specs.inside.Promises.{HasFew, IsPartial};

use crate::check::range_size;
use crate::reader::{DeclaredState, Reader};
use crate::resolve::Resolved;
use crate::state::depth;
use chart_model::{Action, Transition};
use lin_form::Comparison;
use line_forms::{InputForm, MemoryForm, OutputForm, StateForm, Statement};
use sqlite_items::Items;
use std::alloc::AllocError;

fn declare_input(reader: &mut Reader, form: InputForm) -> Result<(), AllocError>
    requires { is_variable reader.old form.name ≡ false }
    ensures { OnOk result (reader.new ≡ next_statement reader.old (says.Input form)) }
{
    if reader.inputs.push(form).is_err() {
        return Err(AllocError);
    }
    reader.group = 1;
    Ok(())
}

fn declare_assumption(reader: &mut Reader, assumption: Comparison) -> Result<(), AllocError>
    ensures { OnOk result (reader.new ≡ with_assumption reader.old assumption) }
{
    if reader.assumed.push(assumption).is_err() {
        return Err(AllocError);
    }
    reader.group = 2;
    Ok(())
}

fn declare_output(reader: &mut Reader, form: OutputForm) -> Result<(), AllocError>
    requires { is_variable reader.old form.name ≡ false }
    ensures { OnOk result (reader.new ≡ next_statement reader.old (says.Output form)) }
{
    if reader.outputs.push(form).is_err() {
        return Err(AllocError);
    }
    reader.group = 3;
    Ok(())
}

fn declare_memory(reader: &mut Reader, form: MemoryForm) -> Result<(), AllocError>
    requires few { HasFew reader.old }
    requires new { is_variable reader.old form.name ≡ false }
    ensures { OnOk result (reader.new ≡ next_statement reader.old (says.Memory form)) }
{
    let product = reader.product * range_size(&form);
    if reader.memories.push(form).is_err() {
        return Err(AllocError);
    }
    reader.product = product;
    reader.group = 4;
    Ok(())
}

fn declare_state(reader: &mut Reader, state: DeclaredState) -> Result<(), AllocError>
    requires { has_name state.name (state_names reader.old) ≡ false }
    ensures { OnOk result (reader.new ≡ with_state reader.old state) }
{
    if reader.states.push(state).is_err()
        || reader.entries.push(None).is_err()
        || reader.exits.push(None).is_err()
    {
        return Err(AllocError);
    }
    reader.group = 5;
    Ok(())
}

fn declared_state(reader: &Reader, form: StateForm, parent: Option<usize>) -> DeclaredState
    requires partial { IsPartial reader.now }
    requires parent { parent ≡ parent_number reader.now form.parent }
    ensures { result ≡ declared_state reader.now form }
{
    DeclaredState {
        name: form.name,
        parent,
        start: form.start,
        depth: depth(reader, parent),
    }
}

fn declare_entry(reader: &mut Reader, number: usize, actions: Items<Action>)
    requires { number < length reader.old.entries }
    ensures { reader.new ≡ with_entry reader.old number actions }
{
    reader.entries.set(number, Some(actions));
    reader.group = 6;
}

fn declare_exit(reader: &mut Reader, number: usize, actions: Items<Action>)
    requires { number < length reader.old.exits }
    ensures { reader.new ≡ with_exit reader.old number actions }
{
    reader.exits.set(number, Some(actions));
    reader.group = 6;
}

fn declare_transition(reader: &mut Reader, transition: Transition) -> Result<(), AllocError>
    ensures { OnOk result (reader.new ≡ with_transition reader.old transition) }
{
    if reader.transitions.push(transition).is_err() {
        return Err(AllocError);
    }
    reader.group = 6;
    Ok(())
}

/// Declares what a line says whose names stand for this and pass.
pub fn declare(reader: &mut Reader, said: &Statement, resolved: Resolved) -> Result<(), AllocError>
    requires partial { IsPartial reader.old }
    requires names { names_check reader.old said.now ≡ None }
    requires resolved { resolved ≡ resolved_of reader.old said.now }
    ensures { OnOk result (reader.new ≡ next_statement reader.old said.now) }
{
    match (said, resolved) {
        (Statement::Chart(version), _) => {
            reader.version = *version;
            Ok(())
        }
        (Statement::Input(form), _) => declare_input(reader, *form),
        (Statement::Assume(_), Resolved::Assumption(assumption)) => {
            declare_assumption(reader, assumption)
        }
        (Statement::Output(form), _) => declare_output(reader, *form),
        (Statement::Memory(form), _) => declare_memory(reader, *form),
        (Statement::State(form), Resolved::Parent(parent)) => {
            let state = declared_state(reader, *form, parent);
            declare_state(reader, state)
        }
        (Statement::Entry(_), Resolved::Actions(number, actions)) => {
            declare_entry(reader, number, actions);
            Ok(())
        }
        (Statement::Exit(_), Resolved::Actions(number, actions)) => {
            declare_exit(reader, number, actions);
            Ok(())
        }
        (Statement::On(_), Resolved::Transition(transition)) => {
            declare_transition(reader, transition)
        }
        _ => unreachable!(),
    }
}
