ghost use Rattle.std.specs.Prelude.{map, string_bytes};
ghost use Rattle.command_stages.specs.Stage.{Made};
ghost use Rattle.run_stages.specs.Stages.{ImplementationAt};

use crate::first_line::is_table;
use crate::implementation::Implementation;
use chart_syntax::read_chart;
use command_stages::{Stop, refused, text_at};
use impl_table::read_table;
use std::alloc::Global;
use test_world::Shelf;

/// How many bytes a text may have.
const MOST_BYTES: usize = 262_144;

/// The implementation that the word with this number names.
pub fn implementation_at<F: Shelf>(
    alloc: Global,
    words: &[String],
    number: usize,
    shelf: &mut F,
) -> Result<Implementation, Stop>
    ensures { Made (ImplementationAt number) (map string_bytes words.now) (F.state shelf.old) (F.state shelf.new) result }
{
    let text = match text_at(alloc, words, number, MOST_BYTES, shelf) {
        Ok(text) => text,
        Err(stop) => return Err(stop),
    };
    let bytes = text.bytes();
    if is_table(bytes) {
        match read_table(alloc, bytes) {
            Ok(table) => return Ok(Implementation::Table(table)),
            Err(error) => return Err(refused(number, error)),
        }
    }
    match read_chart(alloc, bytes) {
        Ok(chart) => Ok(Implementation::Chart(chart)),
        Err(error) => Err(refused(number, error)),
    }
}
