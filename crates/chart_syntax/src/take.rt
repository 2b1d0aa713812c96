ghost use Rattle.std.specs.Option.{ForSome};
ghost use Rattle.line_forms.specs.Limits.{IsSmallStatement};
ghost use Rattle.chart_syntax.specs.inside.Answers.{Takes};
ghost use Rattle.chart_syntax.specs.Checks.{checks, statement_checks, next, next_statement};
ghost use Rattle.chart_syntax.specs.inside.Promises.{IsPartial};

use crate::check::{
    check_comparisons, check_count, check_first_word, check_form, check_order, check_range,
    check_start,
};
use crate::declare::declare;
use crate::error::Refusal;
use crate::reader::Reader;
use crate::resolve::resolve;
use line_forms::{ParsedLine, Statement};
use std::alloc::Global;
use text_lines::LineError;

/// Makes the checks of what a line says, and declares it.
fn take_statement(
    alloc: Global,
    reader: &mut Reader,
    said: &Statement,
) -> Result<(), LineError<Refusal>>
    requires partial { IsPartial reader.old }
    requires small { IsSmallStatement said.now }
    ensures { Takes statement_checks next_statement reader.old reader.new said.now result }
{
    match check_comparisons(reader, said) {
        Ok(()) => {}
        Err(refusal) => return Err(LineError::Refused(refusal)),
    }
    let resolved = match resolve(alloc, reader, said) {
        Ok(resolved) => resolved,
        Err(error) => return Err(error),
    };
    match check_range(reader, said, &resolved) {
        Ok(()) => {}
        Err(refusal) => return Err(LineError::Refused(refusal)),
    }
    match check_start(reader, said, &resolved) {
        Ok(()) => {}
        Err(refusal) => return Err(LineError::Refused(refusal)),
    }
    match check_count(reader, said, &resolved) {
        Ok(()) => {}
        Err(refusal) => return Err(LineError::Refused(refusal)),
    }
    match declare(reader, said, resolved) {
        Ok(()) => Ok(()),
        Err(_) => Err(LineError::Memory),
    }
}

/// Makes the checks of a line in their order, and takes what it declares.
pub fn take(
    alloc: Global,
    reader: &mut Reader,
    parsed: &ParsedLine<Statement>,
) -> Result<(), LineError<Refusal>>
    requires partial { IsPartial reader.old }
    requires small { ForSome parsed.now.form IsSmallStatement }
    ensures { Takes checks next reader.old reader.new parsed.now result }
{
    match check_first_word(reader, parsed) {
        Ok(()) => {}
        Err(refusal) => return Err(LineError::Refused(refusal)),
    }
    match check_order(reader, parsed) {
        Ok(()) => {}
        Err(refusal) => return Err(LineError::Refused(refusal)),
    }
    match check_form(reader, parsed) {
        Ok(()) => {}
        Err(refusal) => return Err(LineError::Refused(refusal)),
    }
    match &parsed.form {
        Some(said) => take_statement(alloc, reader, said),
        None => Ok(()),
    }
}
