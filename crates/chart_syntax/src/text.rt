ghost use Rattle.std.specs.Prelude.{◌≡◌, IfOk, IfErr};
ghost use Rattle.std.specs.List.{list_any};
ghost use Rattle.chart_syntax.specs.Checks.{end_check, lacks_start, lacks_start_child};
ghost use Rattle.chart_syntax.specs.Reading.{Reads, Refuses, IsRefusedBy};

use crate::chart::chart;
use crate::error::{ChartError, Kind, Refusal, at_line};
use crate::reader::{DeclaredState, Reader, begin};
use crate::scan::token_error;
use crate::state::has_start;
use crate::take::take;
use chart_model::Chart;
use line_forms::{LineParser, Statement, small_parse};
use std::alloc::Global;
use text_lines::{LineError, TextError, TextReader, read_text};

/// Whether the parent of a state has no start child.
fn lacks_start(states: &[DeclaredState], state: &DeclaredState) -> bool
    ensures { result ≡ lacks_start states.now state.now }
{
    state.parent.is_some() && !has_start(states, state.parent)
}

fn lacks_start_child(reader: &Reader) -> bool
    ensures { result ≡ lacks_start_child reader.now }
{
    let states = reader.states.as_slice();
    states.iter().any(|state| lacks_start(states, state))
}

/// What is missing at the end, if anything is.
fn missing(reader: &Reader) -> Option<Refusal>
    ensures { result ≡ end_check reader.now }
{
    if reader.version == 0 {
        return Some(Refusal::Fault(Kind::Version));
    }
    if reader.inputs.len() == 0
        || reader.outputs.len() == 0
        || reader.states.len() == 0
        || !has_start(reader.states.as_slice(), None)
        || lacks_start_child(reader)
    {
        return Some(Refusal::Fault(Kind::Missing));
    }
    None
}

/// Reads a chart.
#[derive(Drop)]
struct ChartReader {
    parser: LineParser,
    reader: Reader,
}

impl TextReader for ChartReader {
    type Refusal = Refusal;

    ghost use Rattle.chart_syntax.specs.declared.reader.Reader.{Reader};
    ghost use Rattle.chart_syntax.specs.Checks.{end_check};
    ghost use Rattle.chart_syntax.specs.inside.Promises.{IsPartial};
    ghost use Rattle.chart_syntax.specs.Reading.{TakesLine};

    ghost State = { Reader };

    ghost state = { λ r. r.reader };

    ghost Kept = { IsPartial };

    ghost Step = { TakesLine };

    ghost end = { end_check };

    fn take(&mut self, alloc: Global, line: &[u8]) -> Result<(), LineError<Refusal>> {
        small_parse::<Statement>();
        let parsed = match self.parser.parse::<Statement>(alloc, line) {
            Ok(Some(parsed)) => parsed,
            Ok(None) => return Ok(()),
            Err(error) => return Err(token_error(error)),
        };
        take(alloc, &mut self.reader, &parsed)
    }

    fn end(&self) -> Option<Refusal> {
        missing(&self.reader)
    }
}

/// The chart that a text reads as, of version 1, 2 or 3.
///
/// A text that is none is refused with the number of the first line that a check meets, from 1, and what the first such
/// check on it tells; what is missing at the end has the number after the last line's.
pub fn read_chart(alloc: Global, text: &[u8]) -> Result<Chart, ChartError>
    ensures read { IfOk result (λ chart. Reads text.now chart) }
    ensures refused { IfErr result (IsRefusedBy (Refuses text.now)) }
{
    let mut reader = ChartReader {
        parser: LineParser::new(alloc),
        reader: begin(alloc),
    };
    match read_text(alloc, text, &mut reader) {
        Ok(()) => {}
        Err(TextError::Refused(line, refusal)) => {
            return Err(at_line(line, LineError::Refused(refusal)));
        }
        Err(TextError::Memory) => return Err(ChartError::Memory),
    }
    let ChartReader { parser: _, reader } = reader;
    match chart(alloc, reader) {
        Ok(chart) => Ok(chart),
        Err(_) => Err(ChartError::Memory),
    }
}
