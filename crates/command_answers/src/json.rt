ghost use Rattle.std.specs.Prelude.{◌≤◌, map, string_bytes};
ghost use Rattle.command_stages.specs.Stage.{Made};
ghost use Rattle.verdict_report.specs.Json.{json_text};
ghost use Rattle.command_answers.specs.Ends.{RunEnds};

use command_stages::{Departure, Stop};
use judge_stages::{JsonLine, judge_at};
use std::alloc::Global;
use test_world::Shelf;

/// `json CHART M CUTS IMPL` for this bound, with a text of cuts or without.
pub fn json<F: Shelf>(
    alloc: Global,
    words: &[String],
    bound: usize,
    cuts: bool,
    shelf: &mut F,
) -> Result<JsonLine, Stop>
    requires { bound ≤ 1024 }
    ensures { Made (RunEnds json_text bound cuts) (map string_bytes words.now) (F.state shelf.old)
        (F.state shelf.new) result }
{
    let judged = judge_at(alloc, words, bound, cuts, shelf)?;
    match JsonLine::new(alloc, &judged) {
        Ok(line) => Ok(line),
        Err(_) => Err(Stop::Departed(Departure::NoMemory)),
    }
}
