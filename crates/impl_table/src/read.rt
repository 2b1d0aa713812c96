ghost use Rattle.std.specs.Prelude.{◌≡◌, ◌≤◌, length, map, None, All, IfOk, IfErr};
ghost use Rattle.chart_syntax.specs.Reading.{IsRefusedBy, bounds_of_input, bounds_of_form};
ghost use Rattle.line_forms.specs.Forms.{value_of};
ghost use Rattle.impl_table.specs.Reading.{ReadsTable, RefusesTable, IsContent, end_check};
ghost use Rattle.impl_table.specs.inside.Lines.{HasRange, IsPartial};

use crate::form::TableForm;
use crate::reader::{Declared, begin};
use crate::table::Table;
use crate::table_rows::TableRows;
use crate::take::take;
use chart_syntax::{ChartError, Kind, Refusal, at_line, token_error};
use lin_form::{Input, Inputs, Name, Names, Signature};
use line_checks::guards_fit;
use line_forms::{InputForm, LineParser, Signed, small_parse};
use std::alloc::{AllocError, Global};
use text_lines::{LineError, TextError, TextReader, read_text};

fn value(number: Signed) -> i64
    ensures { result ≡ value_of number }
{
    match number {
        Signed::Plain(value) => value as i64,
        Signed::Negated(value) => 0 - value as i64,
    }
}

fn inputs(alloc: Global, forms: &[InputForm]) -> Result<Inputs, AllocError>
    requires { All HasRange forms.now }
    ensures { IfOk result (λ inputs. map bounds_of_input inputs ≡ map bounds_of_form forms.now) }
{
    let mut inputs = Vec::new(alloc);
    'inputs: for form in forms {
        let input = Input {
            name: form.name,
            lo: value(form.lo),
            hi: value(form.hi),
        };
        if inputs.push(input).is_err() {
            return Err(AllocError);
        }
    }
    Ok(Inputs::from_vec(inputs))
}

fn names(alloc: Global, outputs: &[Name]) -> Result<Names, AllocError>
    ensures { IfOk result (λ names. names ≡ outputs.now) }
{
    let names = Vec::from_slice(alloc, outputs)?;
    Ok(Names::from_vec(names))
}

/// The table of what was declared.
fn table(alloc: Global, declared: Declared) -> Result<Table, AllocError>
    requires partial { IsPartial declared }
    requires complete { end_check declared ≡ None }
    ensures { IfOk result (IsContent declared) }
{
    let Declared {
        begun: _,
        group: _,
        inputs: forms,
        outputs,
        states,
        rows,
    } = declared;
    let inputs = inputs(alloc, forms.as_slice())?;
    let outputs = names(alloc, outputs.as_slice())?;
    let rows = TableRows::new(alloc, rows, states.len())?;
    Ok(Table {
        signature: Signature { inputs, outputs },
        states,
        rows,
    })
}

/// Reads a table.
#[derive(Drop)]
struct TableReader {
    parser: LineParser,
    declared: Declared,
}

impl TextReader for TableReader {
    type Refusal = Refusal;

    ghost use Rattle.impl_table.specs.declared.reader.Declared.{Declared};
    ghost use Rattle.impl_table.specs.Reading.{TakesRow, end_check};
    ghost use Rattle.impl_table.specs.inside.Lines.{IsPartial};

    ghost State = { Declared };

    ghost state = { λ r. r.declared };

    ghost Kept = { IsPartial };

    ghost Step = { TakesRow };

    ghost end = { end_check };

    fn take(&mut self, alloc: Global, line: &[u8]) -> Result<(), LineError<Refusal>> {
        small_parse::<TableForm>();
        guards_fit();
        let parsed = match self.parser.parse::<TableForm>(alloc, line) {
            Ok(Some(parsed)) => parsed,
            Ok(None) => return Ok(()),
            Err(error) => return Err(token_error(error)),
        };
        take(alloc, &mut self.declared, &parsed)
    }

    fn end(&self) -> Option<Refusal> {
        if !self.declared.begun {
            return Some(Refusal::Fault(Kind::Version));
        }
        if self.declared.inputs.len() == 0
            || self.declared.outputs.len() == 0
            || self.declared.states.len() == 0
        {
            return Some(Refusal::Fault(Kind::Missing));
        }
        None
    }
}

/// The table that a text reads as.
///
/// A text that is none is refused with the number of the first line that a check meets, from 1, and what the first such
/// check on it tells; what is missing at the end has the number after the last line's.
pub fn read_table(alloc: Global, text: &[u8]) -> Result<Table, ChartError>
    ensures read { IfOk result (ReadsTable text.now) }
    ensures refused { IfErr result (IsRefusedBy (RefusesTable text.now)) }
{
    let mut reader = TableReader {
        parser: LineParser::new(alloc),
        declared: begin(alloc),
    };
    match read_text(alloc, text, &mut reader) {
        Ok(()) => {}
        Err(TextError::Refused(line, refusal)) => {
            return Err(at_line(line, LineError::Refused(refusal)));
        }
        Err(TextError::Memory) => return Err(ChartError::Memory),
    }
    let TableReader {
        parser: _,
        declared,
    } = reader;
    match table(alloc, declared) {
        Ok(table) => Ok(table),
        Err(_) => Err(ChartError::Memory),
    }
}
