//! The checks of a line that take no memory.
ghost use Rattle.std.specs.Prelude.{◌≡◌};
ghost use Rattle.chart_syntax.specs.Checks.{fault_check, limit_check};
ghost use Rattle.impl_table.specs.Reading.{is_version, group_of, is_formed};
ghost use Rattle.impl_table.specs.Reading.{version_check, word_check, order_check, form_check};
ghost use Rattle.line_checks.specs.Answers.{MakesCheck};

use crate::form::TableForm;
use crate::reader::Declared;
use chart_syntax::{Kind, Refusal, Which};
use line_forms::{Keyword, ParsedLine};

/// That a line is refused for a fault, where the check meets it.
pub fn fault_if(met: bool, kind: Kind) -> Result<(), Refusal>
    ensures { MakesCheck (fault_check met kind) result }
{
    if met {
        return Err(Refusal::Fault(kind));
    }
    Ok(())
}

/// That a line passes a limit, where it does.
pub fn limit_if(passed: bool, which: Which) -> Result<(), Refusal>
    ensures { MakesCheck (limit_check passed which) result }
{
    if passed {
        return Err(Refusal::Limit(which));
    }
    Ok(())
}

fn states_version(form: &Option<TableForm>) -> bool
    ensures { result ≡ is_version form.now }
{
    match form {
        Some(TableForm::Version(version)) => *version == 1,
        _ => false,
    }
}

fn group(head: Option<Keyword>) -> u8
    ensures { result ≡ group_of head }
{
    match head {
        Some(Keyword::Input) => 1,
        Some(Keyword::Output) => 2,
        Some(Keyword::State) => 3,
        Some(Keyword::Row) => 4,
        _ => 0,
    }
}

/// Whether the first line is `table 1`.
pub fn check_version(declared: &Declared, parsed: &ParsedLine<TableForm>) -> Result<(), Refusal>
    ensures { MakesCheck (version_check declared.now parsed.now) result }
{
    fault_if(
        !declared.begun && !states_version(&parsed.form),
        Kind::Version,
    )
}

/// Whether a later line begins with a word that begins lines.
pub fn check_word(declared: &Declared, parsed: &ParsedLine<TableForm>) -> Result<(), Refusal>
    ensures { MakesCheck (word_check declared.now parsed.now) result }
{
    fault_if(declared.begun && group(parsed.head) == 0, Kind::NoSuchLine)
}

/// Whether a later line stands after no line of a later group.
pub fn check_order(declared: &Declared, parsed: &ParsedLine<TableForm>) -> Result<(), Refusal>
    ensures { MakesCheck (order_check declared.now parsed.now) result }
{
    fault_if(
        declared.begun && group(parsed.head) < declared.group,
        Kind::Misplaced,
    )
}

/// Whether the line has a form, and its reply a number for each output.
fn is_formed(outputs: usize, form: &Option<TableForm>) -> bool
    ensures { result ≡ is_formed outputs form.now }
{
    match form {
        None => false,
        Some(TableForm::State(state)) => state.reply.len() == outputs,
        Some(TableForm::Row(row)) => row.reply.len() == outputs,
        Some(_) => true,
    }
}

/// Whether the line's tokens derive from a form.
pub fn check_form(declared: &Declared, parsed: &ParsedLine<TableForm>) -> Result<(), Refusal>
    ensures { MakesCheck (form_check declared.now parsed.now) result }
{
    fault_if(!is_formed(declared.outputs.len(), &parsed.form), Kind::Form)
}
