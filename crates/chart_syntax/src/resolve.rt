ghost use Rattle.std.specs.Prelude.{◌≡◌};
ghost use Rattle.std.specs.List.{All};
ghost use Rattle.line_forms.specs.declared.statement.Statement.TheVariants as says;
ghost use Rattle.line_forms.specs.Limits.{IsSmallAction, IsSmallTest, IsSmallStatement};
ghost use Rattle.line_checks.specs.Answers.{Gives};
ghost use Rattle.chart_syntax.specs.inside.Answers.{Builds};
ghost use Rattle.chart_syntax.specs.Checks.{is_variable, double_check, names_check, resolved_of};
ghost use Rattle.chart_syntax.specs.inside.Promises.{HasFew};

use crate::action::actions;
use crate::error::{Kind, Refusal};
use crate::reader::Reader;
use crate::scope::{AssumptionScope, name_refusal};
use crate::state::{parent, state};
use crate::transition::transition;
use chart_model::{Action, Transition};
use lin_form::{Comparison, Name};
use line_checks::comparison;
use line_forms::{ActionsForm, StateForm, Statement, TestForm};
use sqlite_items::Items;
use std::alloc::Global;
use text_lines::LineError;

/// What the names of a line stand for, over what is declared.
#[derive(Drop)]
pub enum Resolved {
    /// The line names nothing that is declared.
    Nothing,
    Assumption(Comparison),
    /// The number of the state around a new one, if one is named.
    Parent(Option<usize>),
    /// The number of a state, and the actions of its line.
    Actions(usize, Items<Action>),
    Transition(Transition),
}

fn is_variable(reader: &Reader, name: Name) -> bool
    ensures { result ≡ is_variable reader.now name }
{
    reader.inputs.has(name) || reader.outputs.has(name) || reader.memories.has(name)
}

/// The answer to a new name, by whether it is declared.
fn new_name(declared: bool) -> Result<Resolved, Refusal>
    ensures { Gives (double_check declared) Resolved.Nothing result }
{
    if declared {
        return Err(Refusal::Fault(Kind::Double));
    }
    Ok(Resolved::Nothing)
}

fn resolve_state(reader: &Reader, form: StateForm) -> Result<Resolved, Refusal>
    ensures { Gives (names_check reader.now (says.State form)) (resolved_of reader.now (says.State form)) result }
{
    if reader.states.has(form.name) {
        return Err(Refusal::Fault(Kind::Double));
    }
    match parent(reader, form.parent) {
        Ok(parent) => Ok(Resolved::Parent(parent)),
        Err(error) => Err(error),
    }
}

/// The comparison of an assumption.
fn resolve_assumption(alloc: Global, reader: &Reader, form: &TestForm) -> Result<Resolved, Refusal>
    requires few { HasFew reader.now }
    requires small { IsSmallTest form.now }
    ensures { Gives (names_check reader.now (says.Assume form.now))
        (resolved_of reader.now (says.Assume form.now)) result }
{
    let scope = AssumptionScope { reader };
    match comparison(alloc, &scope, reader.inputs.len(), form) {
        Ok(comparison) => Ok(Resolved::Assumption(comparison)),
        Err(fault) => Err(name_refusal(fault)),
    }
}

/// What the names of a line on entry or exit stand for.
fn resolve_actions(
    alloc: Global,
    reader: &Reader,
    form: &ActionsForm,
) -> Result<Resolved, LineError<Refusal>>
    requires few { HasFew reader.now }
    requires small { All IsSmallAction form.now.actions }
    ensures { Builds (names_check reader.now (says.Entry form.now))
        (resolved_of reader.now (says.Entry form.now)) result }
{
    let number = match state(reader, form.state) {
        Ok(number) => number,
        Err(refusal) => return Err(LineError::Refused(refusal)),
    };
    match actions(alloc, reader, form.actions.as_slice()) {
        Ok(actions) => Ok(Resolved::Actions(number, actions)),
        Err(error) => Err(error),
    }
}

/// What the names of a line stand for, or the first name from the left that is declared twice, unknown or misused.
pub fn resolve(
    alloc: Global,
    reader: &Reader,
    said: &Statement,
) -> Result<Resolved, LineError<Refusal>>
    requires few { HasFew reader.now }
    requires small { IsSmallStatement said.now }
    ensures { Builds (names_check reader.now said.now) (resolved_of reader.now said.now) result }
{
    match said {
        Statement::Chart(_) => Ok(Resolved::Nothing),
        Statement::Input(form) => match new_name(is_variable(reader, form.name)) {
            Ok(resolved) => Ok(resolved),
            Err(refusal) => Err(LineError::Refused(refusal)),
        },
        Statement::Assume(form) => match resolve_assumption(alloc, reader, form) {
            Ok(resolved) => Ok(resolved),
            Err(refusal) => Err(LineError::Refused(refusal)),
        },
        Statement::Output(form) => match new_name(is_variable(reader, form.name)) {
            Ok(resolved) => Ok(resolved),
            Err(refusal) => Err(LineError::Refused(refusal)),
        },
        Statement::Memory(form) => match new_name(is_variable(reader, form.name)) {
            Ok(resolved) => Ok(resolved),
            Err(refusal) => Err(LineError::Refused(refusal)),
        },
        Statement::State(form) => match resolve_state(reader, *form) {
            Ok(resolved) => Ok(resolved),
            Err(refusal) => Err(LineError::Refused(refusal)),
        },
        Statement::Entry(form) => resolve_actions(alloc, reader, form),
        Statement::Exit(form) => resolve_actions(alloc, reader, form),
        Statement::On(form) => match transition(alloc, reader, form) {
            Ok(transition) => Ok(Resolved::Transition(transition)),
            Err(error) => Err(error),
        },
    }
}
