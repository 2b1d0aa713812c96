//! What a line says is checked and declared.
ghost use Rattle.std.specs.Prelude.{◌≡◌, ◌≤◌, length, true, Some, All, option_map, unwrap_or};
ghost use Rattle.std.specs.Option.{ForSome};
ghost use Rattle.line_forms.specs.Forms.{value_of};
ghost use Rattle.line_forms.specs.Limits.{IsSmallNumber, IsSmallGuard};
ghost use Rattle.line_checks.specs.Guards.{guard_of};
ghost use Rattle.text_lines.specs.declared.read.LineError.TheVariants as line_error;
ghost use Rattle.chart_syntax.specs.declared.error.Refusal.TheVariants as refusal;
ghost use Rattle.impl_table.specs.declared.form.TableForm.TheVariants as says;
ghost use Rattle.impl_table.specs.Forms.{IsSmallReplyNumber, IsSmallTableForm};
ghost use Rattle.impl_table.specs.Reading.{scope_of, when_check, state_check, state_of, is_formed, row_in};
ghost use Rattle.impl_table.specs.Reading.{said_check, front_check, line_check, next, some_next};
ghost use Rattle.impl_table.specs.Reading.{comparisons_check, names_check};
ghost use Rattle.line_checks.specs.Answers.{Gives, MakesCheck};
ghost use Rattle.impl_table.specs.inside.Lines.{AreFew, Declares, Resolves};

use crate::check::{check_form, check_order, check_version, check_word};
use crate::form::{RowForm, StateForm, TableForm};
use crate::reader::{Declared, InputNames, is_variable, state_number};
use crate::reply::reply;
use crate::table::{Row, TableState};
use chart_model::Condition;
use chart_syntax::{Kind, Refusal, Which};
use lin_form::Name;
use line_checks::{Unresolved, comparisons_left, resolved};
use line_forms::{GuardForm, InputForm, ParsedLine, Signed};
use std::alloc::Global;
use text_lines::LineError;

const MOST_COMPARISONS: usize = 64;

const MOST_INPUTS: usize = 6;

const MOST_OUTPUTS: usize = 8;

const MOST_STATES: usize = 1_024;

const MOST_ROWS: usize = 4_096;

fn fault(kind: Kind) -> LineError<Refusal>
    ensures { result ≡ line_error.Refused (refusal.Fault kind) }
{
    LineError::Refused(Refusal::Fault(kind))
}

fn limit(which: Which) -> LineError<Refusal>
    ensures { result ≡ line_error.Refused (refusal.Limit which) }
{
    LineError::Refused(Refusal::Limit(which))
}

fn value(number: Signed) -> i64
    requires { IsSmallNumber number }
    ensures { result ≡ value_of number }
{
    match number {
        Signed::Plain(value) => value as i64,
        Signed::Negated(value) => 0 - value as i64,
    }
}

fn take_input(declared: &mut Declared, form: &InputForm) -> Result<(), LineError<Refusal>>
    requires lo { IsSmallNumber form.now.lo }
    requires hi { IsSmallNumber form.now.hi }
    ensures { Declares (said_check declared.old (says.Input form.now))
        (next declared.old (says.Input form.now)) declared.new result }
{
    if is_variable(declared, form.name) {
        return Err(fault(Kind::Double));
    }
    if value(form.hi) < value(form.lo) {
        return Err(fault(Kind::Range));
    }
    if declared.inputs.len() >= MOST_INPUTS {
        return Err(limit(Which::Inputs));
    }
    if declared.inputs.push(*form).is_err() {
        return Err(LineError::Memory);
    }
    declared.group = 1;
    Ok(())
}

fn take_output(declared: &mut Declared, name: Name) -> Result<(), LineError<Refusal>>
    ensures { Declares (said_check declared.old (says.Output name))
        (next declared.old (says.Output name)) declared.new result }
{
    if is_variable(declared, name) {
        return Err(fault(Kind::Double));
    }
    if declared.outputs.len() >= MOST_OUTPUTS {
        return Err(limit(Which::Outputs));
    }
    if declared.outputs.push(name).is_err() {
        return Err(LineError::Memory);
    }
    declared.group = 2;
    Ok(())
}

fn take_state(declared: &mut Declared, form: &StateForm) -> Result<(), LineError<Refusal>>
    requires few { length form.now.reply ≤ 8 }
    requires small { All IsSmallReplyNumber form.now.reply }
    ensures { Declares (said_check declared.old (says.State form.now))
        (next declared.old (says.State form.now)) declared.new result }
{
    if state_number(declared, form.name).is_some() {
        return Err(fault(Kind::Double));
    }
    if declared.states.len() >= MOST_STATES {
        return Err(limit(Which::States));
    }
    let state = TableState {
        name: form.name,
        reply: reply(form.reply.as_slice()),
    };
    if declared.states.push(state).is_err() {
        return Err(LineError::Memory);
    }
    declared.group = 3;
    Ok(())
}

/// The number of the state that a row names.
fn state(declared: &Declared, name: Name) -> Result<usize, Refusal>
    ensures { Gives (state_check declared.now name) (unwrap_or (state_of declared.now name) 0) result }
{
    match state_number(declared, name) {
        Some(number) => Ok(number),
        None => Err(Refusal::Fault(Kind::Unknown)),
    }
}

/// The guard of a row over the inputs, if it has one.
fn condition(
    alloc: Global,
    declared: &Declared,
    guard: &Option<GuardForm>,
) -> Result<Option<Condition>, LineError<Refusal>>
    requires few { length declared.now.inputs ≤ 6 }
    requires small { ForSome guard.now IsSmallGuard }
    ensures { Resolves (when_check declared.now guard.now)
        (option_map (guard_of (scope_of declared.now) (length declared.now.inputs)) guard.now) result }
{
    let Some(guard) = guard else {
        return Ok(None);
    };
    let inputs = declared.inputs.as_slice();
    match resolved(alloc, &InputNames { inputs }, inputs.len(), guard.tree()) {
        Ok(guard) => Ok(Some(Condition::new(guard))),
        Err(Unresolved::Fault(_)) => Err(fault(Kind::Unknown)),
        Err(Unresolved::Memory) => Err(LineError::Memory),
    }
}

/// The row of a line, whose names are checked from left to right.
fn row(alloc: Global, declared: &Declared, form: &RowForm) -> Result<Row, LineError<Refusal>>
    requires inputs { length declared.now.inputs ≤ 6 }
    requires few { length form.now.reply ≤ 8 }
    requires small { IsSmallTableForm (says.Row form.now) }
    ensures { Resolves (names_check declared.now (says.Row form.now)) (row_in declared.now form.now) result }
{
    let from = match state(declared, form.from) {
        Ok(from) => from,
        Err(refusal) => return Err(LineError::Refused(refusal)),
    };
    let guard = match condition(alloc, declared, &form.guard) {
        Ok(guard) => guard,
        Err(error) => return Err(error),
    };
    let to = match state(declared, form.to) {
        Ok(to) => to,
        Err(refusal) => return Err(LineError::Refused(refusal)),
    };
    Ok(Row {
        from,
        guard,
        reply: reply(form.reply.as_slice()),
        to,
    })
}

/// Whether the line's guard has at most 64 comparisons.
fn check_comparisons(form: &RowForm) -> Result<(), Refusal>
    ensures { MakesCheck (comparisons_check (says.Row form.now)) result }
{
    let Some(guard) = &form.guard else {
        return Ok(());
    };
    match comparisons_left(guard.tree(), MOST_COMPARISONS) {
        Some(_) => Ok(()),
        None => Err(Refusal::Limit(Which::Comparisons)),
    }
}

fn take_row(
    alloc: Global,
    declared: &mut Declared,
    form: &RowForm,
) -> Result<(), LineError<Refusal>>
    requires inputs { length declared.old.inputs ≤ 6 }
    requires few { length form.now.reply ≤ 8 }
    requires small { IsSmallTableForm (says.Row form.now) }
    ensures { Declares (said_check declared.old (says.Row form.now))
        (next declared.old (says.Row form.now)) declared.new result }
{
    match check_comparisons(form) {
        Ok(()) => {}
        Err(refusal) => return Err(LineError::Refused(refusal)),
    }
    let row = match row(alloc, declared, form) {
        Ok(row) => row,
        Err(error) => return Err(error),
    };
    if declared.rows.len() >= MOST_ROWS {
        return Err(limit(Which::Rows));
    }
    if declared.rows.push(row).is_err() {
        return Err(LineError::Memory);
    }
    declared.group = 4;
    Ok(())
}

/// Checks what a line says, and takes what it declares.
fn take_said(
    alloc: Global,
    declared: &mut Declared,
    said: &TableForm,
) -> Result<(), LineError<Refusal>>
    requires few { AreFew declared.old }
    requires formed { is_formed (length declared.old.outputs) (Some said.now) ≡ true }
    requires small { IsSmallTableForm said.now }
    ensures { Declares (said_check declared.old said.now) (next declared.old said.now) declared.new result }
{
    match said {
        TableForm::Version(_) => {
            declared.begun = true;
            Ok(())
        }
        TableForm::Input(form) => take_input(declared, form),
        TableForm::Output(name) => take_output(declared, *name),
        TableForm::State(form) => take_state(declared, form),
        TableForm::Row(form) => take_row(alloc, declared, form),
    }
}

/// Makes the checks of a line that come before those of what it says.
fn check(declared: &Declared, parsed: &ParsedLine<TableForm>) -> Result<(), Refusal>
    ensures { MakesCheck (front_check declared.now parsed.now) result }
{
    match check_version(declared, parsed) {
        Ok(()) => {}
        Err(refusal) => return Err(refusal),
    }
    match check_word(declared, parsed) {
        Ok(()) => {}
        Err(refusal) => return Err(refusal),
    }
    match check_order(declared, parsed) {
        Ok(()) => {}
        Err(refusal) => return Err(refusal),
    }
    check_form(declared, parsed)
}

/// Makes the checks of a line in their order, and takes what it declares.
pub fn take(
    alloc: Global,
    declared: &mut Declared,
    parsed: &ParsedLine<TableForm>,
) -> Result<(), LineError<Refusal>>
    requires few { AreFew declared.old }
    requires small { ForSome parsed.now.form IsSmallTableForm }
    ensures { Declares (line_check declared.old parsed.now) (some_next declared.old parsed.now.form) declared.new result }
{
    match check(declared, parsed) {
        Ok(()) => {}
        Err(refusal) => return Err(LineError::Refused(refusal)),
    }
    match &parsed.form {
        Some(said) => take_said(alloc, declared, said),
        None => Ok(()),
    }
}
