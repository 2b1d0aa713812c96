ghost use Rattle.std.specs.Prelude.{◌≡◌, All, IfOk, map, string_bytes};
ghost use Rattle.chart_syntax.specs.Words.{IsInBox};
ghost use Rattle.command_stages.specs.Stage.{Made};
ghost use Rattle.command_stages.specs.Texts.{ChartAt, WordOver};

use crate::stop::Stop;
use crate::text::{refused, text_at};
use chart_syntax::{Chart, read_chart, read_word};
use lin_form::Vector;
use std::alloc::Global;
use std::marker::Model;
use test_world::Shelf;

/// How many bytes a text may have.
const MOST_BYTES: usize = 262_144;

/// A word of input vectors, seen as the list of them.
#[derive(Drop)]
pub struct Word {
    vectors: Vec<Vector>,
}

impl Model for Word {
    ghost use Rattle.std.specs.Prelude.{List, ℤ};

    ghost Value = { List (List ℤ) };

    ghost view = { λ word. word.vectors.items };
}

impl Word {
    /// The vectors, in order.
    pub fn as_slice(&self) -> &[Vector]
        ensures { result.now ≡ self.now }
    {
        &self.vectors
    }
}

/// The chart that the word with this number names.
pub fn chart_at<F: Shelf>(
    alloc: Global,
    words: &[String],
    number: usize,
    shelf: &mut F,
) -> Result<Chart, Stop>
    ensures { Made (ChartAt number) (map string_bytes words.now) (F.state shelf.old) (F.state shelf.new) result }
{
    let text = match text_at(alloc, words, number, MOST_BYTES, shelf) {
        Ok(text) => text,
        Err(stop) => return Err(stop),
    };
    match read_chart(alloc, text.bytes()) {
        Ok(chart) => Ok(chart),
        Err(error) => Err(refused(number, error)),
    }
}

/// The word over the chart that the word with this number names.
pub fn word_over<F: Shelf>(
    alloc: Global,
    words: &[String],
    number: usize,
    chart: &Chart,
    shelf: &mut F,
) -> Result<Word, Stop>
    ensures made { Made (WordOver number chart.now) (map string_bytes words.now) (F.state shelf.old) (F.state shelf.new)
        result }
    ensures inside { IfOk result (λ word. All (IsInBox chart.now) word) }
{
    let text = match text_at(alloc, words, number, MOST_BYTES, shelf) {
        Ok(text) => text,
        Err(stop) => return Err(stop),
    };
    match read_word(alloc, text.bytes(), chart) {
        Ok(vectors) => Ok(Word { vectors }),
        Err(error) => Err(refused(number, error)),
    }
}
