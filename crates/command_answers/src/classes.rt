ghost use Rattle.std.specs.Prelude.{map, string_bytes};
ghost use Rattle.command_stages.specs.Stage.{Made};
ghost use Rattle.command_answers.specs.Ends.{ClassesEnds};

use class_stages::{ClassLines, classes_over, cuts_at};
use command_stages::{Stop, chart_at};
use std::alloc::Global;
use test_world::Shelf;

/// `classes CHART CUTS`, with a text of cuts or without.
pub fn classes<F: Shelf>(
    alloc: Global,
    words: &[String],
    cuts: bool,
    shelf: &mut F,
) -> Result<ClassLines, Stop>
    ensures { Made (ClassesEnds cuts) (map string_bytes words.now) (F.state shelf.old) (F.state shelf.new) result }
{
    let chart = chart_at(alloc, words, 1, shelf)?;
    let cuts = cuts_at(alloc, words, cuts, 2, &chart, shelf)?;
    let partition = classes_over(alloc, 1, &chart, &cuts)?;
    Ok(ClassLines::new(partition))
}
