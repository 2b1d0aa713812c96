ghost use Rattle.std.specs.Prelude.{◌≤◌, map, string_bytes};
ghost use Rattle.command_stages.specs.Stage.{Made};
ghost use Rattle.judge_stages.specs.Verdicts.{verdict_lines};
ghost use Rattle.command_answers.specs.Ends.{RunEnds};

use command_stages::Stop;
use judge_stages::{VerdictLines, judge_at};
use std::alloc::Global;
use test_world::Shelf;

/// `run CHART M CUTS IMPL` for this bound, with a text of cuts or without.
pub fn run<F: Shelf>(
    alloc: Global,
    words: &[String],
    bound: usize,
    cuts: bool,
    shelf: &mut F,
) -> Result<VerdictLines, Stop>
    requires { bound ≤ 1024 }
    ensures { Made (RunEnds verdict_lines bound cuts) (map string_bytes words.now) (F.state shelf.old)
        (F.state shelf.new) result }
{
    let judged = judge_at(alloc, words, bound, cuts, shelf)?;
    Ok(VerdictLines::new(judged))
}
