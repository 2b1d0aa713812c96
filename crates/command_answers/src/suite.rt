ghost use Rattle.std.specs.Prelude.{◌≤◌, map, string_bytes};
ghost use Rattle.command_stages.specs.Stage.{Made};
ghost use Rattle.command_answers.specs.Ends.{SuiteEnds};

use chart_meaning::ChartPlan;
use class_stages::{classes_over, cuts_at};
use command_stages::{Departure, Stop, chart_at};
use std::alloc::Global;
use suite_stages::{SuiteLines, suite_over};
use test_world::Shelf;

/// `suite CHART M CUTS` for this bound, with a text of cuts or without.
pub fn suite<F: Shelf>(
    alloc: Global,
    words: &[String],
    bound: usize,
    cuts: bool,
    shelf: &mut F,
) -> Result<SuiteLines, Stop>
    requires { bound ≤ 1024 }
    ensures { Made (SuiteEnds bound cuts) (map string_bytes words.now) (F.state shelf.old) (F.state shelf.new) result }
{
    let chart = chart_at(alloc, words, 1, shelf)?;
    let cuts = cuts_at(alloc, words, cuts, 3, &chart, shelf)?;
    let partition = classes_over(alloc, 1, &chart, &cuts)?;
    let plan = match ChartPlan::new(alloc, chart) {
        Ok(plan) => plan,
        Err(_) => return Err(Stop::Departed(Departure::NoMemory)),
    };
    let suite = suite_over(alloc, bound, &plan, &partition)?;
    match SuiteLines::new(alloc, suite) {
        Ok(lines) => Ok(lines),
        Err(_) => Err(Stop::Departed(Departure::NoMemory)),
    }
}
