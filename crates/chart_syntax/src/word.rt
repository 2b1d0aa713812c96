ghost use Rattle.std.specs.Prelude.{◌≡◌, ◌≤◌, length, take, map, All, IfOk, IfErr};
ghost use Rattle.chart_model.specs.Box.{meets};
ghost use Rattle.chart_model.specs.Guard.{IsReadable};
ghost use Rattle.chart_syntax.specs.Reading.{IsRefusedBy};
ghost use Rattle.chart_syntax.specs.Words.{IsInBox, vector_of, GivesVector, ReadsWord, RefusesWord};

use crate::error::{ChartError, Kind, Refusal, at_line};
use crate::scan::token_error;
use crate::value::value;
use chart_model::Chart;
use lin_form::{Comparison, Vector, holds};
use line_forms::{LineParser, Numbers, ParsedLine, Signed};
use std::alloc::Global;
use text_lines::{LineError, TextError, TextReader, read_text};

/// Whether every assumption holds for the vector.
fn meets(assumed: &[Comparison], vector: &Vector) -> bool
    requires { All (IsReadable (length vector.now)) assumed.now }
    ensures { result ≡ meets assumed.now vector.now }
{
    'assumed: for comparison in assumed {
        if !holds(comparison, vector, &[0; 4]) {
            return false;
        }
    }
    true
}

/// The values of a line's numbers, at the front.
fn values(numbers: &[Signed]) -> [i64; 6]
    requires { length numbers.now ≤ 6 }
    ensures { take (length numbers.now) result ≡ vector_of numbers.now }
{
    let mut values = [0; 6];
    'numbers: for (index, number) in numbers.iter().enumerate() {
        values[index] = value(*number);
    }
    values
}

/// The vector of a line of a word.
fn vector(alloc: Global, chart: &Chart, line: &ParsedLine<Numbers>) -> Result<Vector, Refusal>
    ensures { GivesVector chart.now line.now.form result }
{
    let Some(numbers) = &line.form else {
        return Err(Refusal::Fault(Kind::Form));
    };
    let count = numbers.as_slice().len();
    if count != chart.signature.inputs.as_slice().len() {
        return Err(Refusal::Fault(Kind::Form));
    }
    let vector = Vector::from_slice(alloc, &values(numbers.as_slice())[..count]);
    if !chart.signature.inputs.contains(&vector) || !meets(chart.assumed.as_slice(), &vector) {
        return Err(Refusal::Fault(Kind::OutOfBox));
    }
    Ok(vector)
}

/// Reads a word over a chart.
#[derive(Drop)]
struct WordReader<'a> {
    parser: LineParser,
    chart: &'a Chart,
    vectors: Vec<Vector>,
}

impl<'a> TextReader for WordReader<'a> {
    type Refusal = Refusal;

    ghost use Rattle.std.specs.Prelude.{None};
    ghost use Rattle.chart_syntax.specs.Words.{WordState, TakesVector, nothing_missing};

    ghost State = { WordState };

    ghost state = { λ r. record { chart = r.chart.now; vectors = r.vectors.items } };

    ghost Kept = { λ s. Unit {0} };

    ghost Step = { TakesVector };

    ghost end = { nothing_missing };

    fn take(&mut self, alloc: Global, line: &[u8]) -> Result<(), LineError<Refusal>> {
        let parsed = match self.parser.parse::<Numbers>(alloc, line) {
            Ok(Some(parsed)) => parsed,
            Ok(None) => return Ok(()),
            Err(error) => return Err(token_error(error)),
        };
        let vector = match vector(alloc, self.chart, &parsed) {
            Ok(vector) => vector,
            Err(refusal) => return Err(LineError::Refused(refusal)),
        };
        if self.vectors.push(vector).is_err() {
            return Err(LineError::Memory);
        }
        Ok(())
    }

    fn end(&self) -> Option<Refusal> {
        None
    }
}

/// The word over the chart that a text reads as: a vector for each line that is not blank.
///
/// A text that is none is refused with the number of the first line that a check meets, from 1, and what the first such
/// check on it tells: `Form` where the line has not one number per input, `OutOfBox` where a number is outside its
/// input's range or an assumption of the chart does not hold.
pub fn read_word(alloc: Global, text: &[u8], chart: &Chart) -> Result<Vec<Vector>, ChartError>
    ensures read { IfOk result (λ vectors. ReadsWord chart.now text.now vectors.items) }
    ensures inside { IfOk result (λ vectors. All (IsInBox chart.now) vectors.items) }
    ensures refused { IfErr result (IsRefusedBy (RefusesWord chart.now text.now)) }
{
    let mut reader = WordReader {
        parser: LineParser::new(alloc),
        chart,
        vectors: Vec::new(alloc),
    };
    match read_text(alloc, text, &mut reader) {
        Ok(()) => {}
        Err(TextError::Refused(line, refusal)) => {
            return Err(at_line(line, LineError::Refused(refusal)));
        }
        Err(TextError::Memory) => return Err(ChartError::Memory),
    }
    let WordReader {
        parser: _,
        chart: _,
        vectors,
    } = reader;
    Ok(vectors)
}
