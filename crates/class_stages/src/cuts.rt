ghost use Rattle.std.specs.Prelude.{IfOk, map, string_bytes, true};
ghost use Rattle.cut_syntax.specs.Cuts.{AreOver};
ghost use Rattle.command_stages.specs.Stage.{Made};
ghost use Rattle.class_stages.specs.Cutting.{CutsAt};

use chart_model::{Chart, Cuts};
use command_stages::{Stop, refused, text_at};
use cut_syntax::read_cuts;
use std::alloc::Global;
use test_world::Shelf;

/// How many bytes a text may have.
const MOST_BYTES: usize = 262_144;

/// The cuts over a chart's inputs that the word with this number names.
fn named_cuts<F: Shelf>(
    alloc: Global,
    words: &[String],
    number: usize,
    chart: &Chart,
    shelf: &mut F,
) -> Result<Cuts, Stop>
    ensures made { Made (CutsAt true number chart.now.signature) (map string_bytes words.now)
        (F.state shelf.old) (F.state shelf.new) result }
    ensures width { IfOk result (AreOver chart.now.signature) }
{
    let text = match text_at(alloc, words, number, MOST_BYTES, shelf) {
        Ok(text) => text,
        Err(stop) => return Err(stop),
    };
    match read_cuts(alloc, text.bytes(), &chart.signature) {
        Ok(cuts) => Ok(cuts),
        Err(error) => Err(refused(number, error)),
    }
}

/// The cuts over a chart's inputs that the word with this number names, or none where it names no text.
pub fn cuts_at<F: Shelf>(
    alloc: Global,
    words: &[String],
    named: bool,
    number: usize,
    chart: &Chart,
    shelf: &mut F,
) -> Result<Cuts, Stop>
    ensures made { Made (CutsAt named number chart.now.signature) (map string_bytes words.now)
        (F.state shelf.old) (F.state shelf.new) result }
    ensures width { IfOk result (AreOver chart.now.signature) }
{
    if named {
        return named_cuts(alloc, words, number, chart, shelf);
    }
    Ok(Cuts::none(alloc))
}
