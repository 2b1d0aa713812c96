ghost use Rattle.command_stages.specs.Stage.{Makes};
ghost use Rattle.gen_stages.specs.Summary.{SummaryOf};

use crate::charts::{chart_of, fitting_chart};
use crate::printing::SummaryLines;
use chart_meaning::ChartPlan;
use chart_model::Cuts;
use class_stages::classes_over;
use command_stages::{Departure, Stop};
use judge_stages::judge_by;
use run_stages::Implementation;
use std::alloc::Global;
use suite_stages::least_suite_over;

/// What `gen S` prints for this number.
pub fn summary_of(alloc: Global, number: u32) -> Result<SummaryLines, Stop>
    ensures { Makes (SummaryOf number) result }
{
    let chart = chart_of(alloc, number)?;
    let cuts = Cuts::none(alloc);
    let partition = classes_over(alloc, 1, &chart, &cuts)?;
    let plan = match ChartPlan::new(alloc, chart) {
        Ok(plan) => plan,
        Err(_) => return Err(Stop::Departed(Departure::NoMemory)),
    };
    let least = least_suite_over(alloc, &plan, &partition)?;
    let other = fitting_chart(alloc, number % 38, least.suite.signature())?;
    let judged = judge_by(alloc, least.suite, Implementation::Chart(other))?;
    match SummaryLines::new(alloc, number, least.configurations, judged) {
        Ok(lines) => Ok(lines),
        Err(_) => Err(Stop::Departed(Departure::NoMemory)),
    }
}
