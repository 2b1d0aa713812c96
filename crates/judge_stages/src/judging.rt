ghost use Rattle.std.specs.Prelude.{◌≤◌, List, map, string_bytes};
ghost use Rattle.lin_form.specs.declared.form.Comparison.{Comparison};
ghost use Rattle.subject.specs.Domain.{IsFitting};
ghost use Rattle.command_stages.specs.Stage.{Made, Makes};
ghost use Rattle.class_stages.specs.Classes.{IsChartPartition};
ghost use Rattle.run_stages.specs.Implementations.{signature_of};
ghost use Rattle.judge_stages.specs.Verdicts.{JudgeAt, JudgeBy, JudgeOver};

use crate::judgement::Judged;
use chart_meaning::ChartPlan;
use class_split::Partition;
use class_stages::{classes_over, cuts_at};
use command_stages::{Departure, Stop, chart_at};
use run_stages::{Implementation, fits_over, implementation_at, verdict_over};
use std::alloc::Global;
use suite_model::{Scratch, Suite};
use suite_stages::suite_over;
use test_world::Shelf;

/// The verdict by a suite on an implementation that fits it.
pub fn judge_by(alloc: Global, suite: Suite, implementation: Implementation) -> Result<Judged, Stop>
    requires { IsFitting suite.signature (signature_of implementation) }
    ensures { Makes (JudgeBy suite implementation) result }
{
    let mut scratch = match Scratch::for_suite(alloc, &suite) {
        Ok(scratch) => scratch,
        Err(_) => return Err(Stop::Departed(Departure::NoMemory)),
    };
    let verdict = verdict_over(alloc, &suite, implementation, &mut scratch)?;
    Ok(Judged::new(suite, verdict, scratch))
}

/// The verdict by the suite of a chart's plan for this bound on an implementation that fits the chart.
pub fn judge_over(
    alloc: Global,
    bound: usize,
    plan: &ChartPlan,
    partition: &Partition,
    implementation: Implementation,
) -> Result<Judged, Stop>
    requires bound { bound ≤ 1024 }
    requires partition { (cuts : List Comparison) × IsChartPartition plan.now cuts partition.now }
    requires fits { IsFitting plan.now.signature (signature_of implementation) }
    ensures { Makes (JudgeOver bound plan.now partition.now implementation) result }
{
    let suite = suite_over(alloc, bound, plan, partition)?;
    judge_by(alloc, suite, implementation)
}

/// The verdict by the suite of the chart that the words name for this bound, with a text of cuts or without, on the
/// implementation that they name.
pub fn judge_at<F: Shelf>(
    alloc: Global,
    words: &[String],
    bound: usize,
    cuts: bool,
    shelf: &mut F,
) -> Result<Judged, Stop>
    requires { bound ≤ 1024 }
    ensures { Made (JudgeAt bound cuts) (map string_bytes words.now) (F.state shelf.old) (F.state shelf.new) result }
{
    let chart = chart_at(alloc, words, 1, shelf)?;
    let cuts = cuts_at(alloc, words, cuts, 3, &chart, shelf)?;
    let implementation = implementation_at(alloc, words, 4, shelf)?;
    match fits_over(4, &chart.signature, &implementation) {
        Ok(()) => {}
        Err(stop) => return Err(stop),
    }
    let partition = classes_over(alloc, 1, &chart, &cuts)?;
    match ChartPlan::new(alloc, chart) {
        Ok(plan) => judge_over(alloc, bound, &plan, &partition, implementation),
        Err(_) => Err(Stop::Departed(Departure::NoMemory)),
    }
}
