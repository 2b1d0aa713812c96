ghost use Rattle.std.specs.Prelude.{◌≡◌, length, slice_get};
ghost use Rattle.lin_form.specs.Range.{AreWithin};
ghost use Rattle.lin_form.specs.Signature.{IsInInputRanges};
ghost use Rattle.chart_model.specs.Chart.{IsTransition};
ghost use Rattle.chart_meaning.specs.IsConfiguration.{AreValues};
ghost use Rattle.chart_meaning.specs.Step.{active_states, firing, is_guard_true};
ghost use Rattle.chart_meaning.specs.Plan.{branch_of};
ghost use Rattle.chart_meaning.specs.Rows.{AreRows, IsRowThatFires};

use crate::config::Config;
use crate::rows::Row;
use chart_model::{Chart, Transition};
use lin_form::Vector;

/// The place of the row of the transition that fires; where none fires, the number of rows.
pub fn firing(chart: &Chart, rows: &[Row], config: &Config, input: &Vector) -> usize
    requires rows { AreRows chart.now config.now.leaf rows.now }
    requires input { IsInInputRanges chart.now.signature.inputs input.now }
    requires values { AreValues chart.now config.now }
    ensures branch { result ≡ branch_of chart.now config.now input.now }
    ensures row { IsRowThatFires chart.now config.now.leaf
        (firing chart.now.transitions input.now config.now.memory (active_states chart.now.states config.now))
        (slice_get rows.now result) }
{
    let memory = config.memory();
    for (place, row) in rows.iter().enumerate() {
        let transition = &chart.transitions.as_slice()[row.transition as usize];
        if is_guard_true(chart, transition, input, &memory) {
            return place;
        }
    }
    rows.len()
}

/// Whether a transition's guard holds for an input vector and the memories' values, or it has none.
fn is_guard_true(chart: &Chart, transition: &Transition, input: &Vector, memory: &[i64; 4]) -> bool
    requires transition { IsTransition (length chart.now.signature.inputs) (length chart.now.memories)
        (length chart.now.signature.outputs) chart.now.states transition.now }
    requires input { IsInInputRanges chart.now.signature.inputs input.now }
    requires values { AreWithin 1000 memory.now }
    ensures { result ≡ is_guard_true input.now memory.now transition.now }
{
    match &transition.guard {
        Some(condition) => condition.is_true_within(input, memory),
        None => true,
    }
}
