ghost use Rattle.std.specs.Prelude.{◌≡◌, ◌≤◌, map, string_bytes};
ghost use Rattle.command_stages.specs.Report.{word_at};
ghost use Rattle.command_stages.specs.Stage.{Made, TextAt};
ghost use Rattle.command_stages.specs.Text.{stop_of_load, stop_of_chart};

use crate::stop::{Departure, Refusal, Source, Stop};
use chart_syntax::ChartError;
use std::alloc::Global;
use test_world::{LoadError, Shelf, Text, load};

/// The word with this number, counted from 0, or an empty one.
pub fn word_at(words: &[String], number: usize) -> &str
    ensures { result.now ≡ word_at (map string_bytes words.now) number }
{
    match words.get(number) {
        Some(word) => word.as_str(),
        None => "",
    }
}

fn stop_of_load(number: usize, error: LoadError) -> Stop
    ensures { result ≡ stop_of_load number error }
{
    match error {
        LoadError::Fault => Stop::Departed(Departure::Unread(Source::Word(number))),
        LoadError::TooLong => Stop::Refused(Refusal::TooLong { name: number }),
        LoadError::Memory => Stop::Departed(Departure::NoMemory),
    }
}

/// The stop for a text that a reader refuses.
pub fn refused(name: usize, error: ChartError) -> Stop
    ensures { result ≡ stop_of_chart name error }
{
    match error {
        ChartError::Fault { line, kind } => Stop::Refused(Refusal::Fault { name, line, kind }),
        ChartError::Limit { line, which } => Stop::Refused(Refusal::Limit { name, line, which }),
        ChartError::Memory => Stop::Departed(Departure::NoMemory),
    }
}

/// The text that the word with this number names, of at most so many bytes.
pub fn text_at<F: Shelf>(
    alloc: Global,
    words: &[String],
    number: usize,
    most: usize,
    shelf: &mut F,
) -> Result<Text, Stop>
    requires { most ≤ 16777216 }
    ensures { Made (TextAt number most) (map string_bytes words.now) (F.state shelf.old) (F.state shelf.new) result }
{
    match load(alloc, shelf, word_at(words, number), most) {
        Ok(text) => Ok(text),
        Err(error) => Err(stop_of_load(number, error)),
    }
}
