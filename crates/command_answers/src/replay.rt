ghost use Rattle.std.specs.Prelude.{map, string_bytes};
ghost use Rattle.command_stages.specs.Stage.{Made};
ghost use Rattle.command_answers.specs.Ends.{ReplayEnds};

use command_stages::Stop;
use judge_stages::{VerdictLines, judge_by};
use replay_stages::suite_at;
use run_stages::{fits_over, implementation_at};
use std::alloc::Global;
use test_world::Shelf;

/// `replay SUITE IMPL`.
pub fn replay<F: Shelf>(
    alloc: Global,
    words: &[String],
    shelf: &mut F,
) -> Result<VerdictLines, Stop>
    ensures { Made ReplayEnds (map string_bytes words.now) (F.state shelf.old) (F.state shelf.new) result }
{
    let suite = suite_at(alloc, words, 1, shelf)?;
    let implementation = implementation_at(alloc, words, 2, shelf)?;
    match fits_over(2, suite.signature(), &implementation) {
        Ok(()) => {}
        Err(stop) => return Err(stop),
    }
    let judged = judge_by(alloc, suite, implementation)?;
    Ok(VerdictLines::new(judged))
}
