ghost use Rattle.std.specs.Prelude.{IfOk};
ghost use Rattle.subject.specs.Domain.{IsFitting};
ghost use Rattle.chart_gen.specs.Generated.{IsGenerated};
ghost use Rattle.command_stages.specs.Stage.{Is, Makes};

use chart_gen::generate;
use chart_model::Chart;
use command_stages::{Departure, Stop};
use impl_table::fits;
use lin_form::Signature;
use std::alloc::Global;

/// The chart of a number.
pub fn chart_of(alloc: Global, number: u32) -> Result<Chart, Stop>
    ensures { Makes (Is (IsGenerated number)) result }
{
    match generate(alloc, number) {
        Ok(chart) => Ok(chart),
        Err(_) => Err(Stop::Departed(Departure::NoMemory)),
    }
}

/// The chart of a number as an implementation of a chart with this signature.
///
/// A chart that does not fit is answered as want of memory. That the chart of each number is fitted by that of the
/// number's remainder by 38 is tested for all charts, and not proved.
pub fn fitting_chart(alloc: Global, number: u32, model: &Signature) -> Result<Chart, Stop>
    ensures made { Makes (Is (IsGenerated number)) result }
    ensures fits { IfOk result (λ chart. IsFitting model.now chart.signature) }
{
    let chart = match generate(alloc, number) {
        Ok(chart) => chart,
        Err(_) => return Err(Stop::Departed(Departure::NoMemory)),
    };
    match fits(model, &chart.signature) {
        Ok(()) => Ok(chart),
        Err(_) => Err(Stop::Departed(Departure::NoMemory)),
    }
}
