ghost use Rattle.std.specs.Prelude.{◌≡◌, ◌≤◌, length, unsigned_abs};
ghost use Rattle.std.specs.List.{All};
ghost use Rattle.lin_form.specs.Form.{IsModerate, size_of, sum_of_products};
ghost use Rattle.lin_form.specs.Range.{AreWithin};
ghost use Rattle.chart_model.specs.Chart.{IsAction, IsMemory};
ghost use Rattle.chart_meaning.specs.Actions.{act, nearest, run, sum_of};
ghost use Rattle.chart_meaning.specs.IsConfiguration.{AreValues};

use crate::config::Config;
use chart_model::{Action, Chart, Memory, Place};
use lin_form::Form;

/// Runs actions one after another.
pub fn run(chart: &Chart, actions: &[Action], config: &mut Config)
    requires actions { All (IsAction (length chart.now.signature.inputs) (length chart.now.memories) (length chart.now.signature.outputs)) actions.now }
    requires values { AreValues chart.now config.old }
    ensures run { config.new ≡ run chart.now.memories actions.now config.old }
    ensures values { AreValues chart.now config.new }
{
    for action in actions {
        act(chart, action, config);
    }
}

/// Runs one action.
fn act(chart: &Chart, action: &Action, config: &mut Config)
    requires action { IsAction (length chart.now.signature.inputs) (length chart.now.memories) (length chart.now.signature.outputs) action.now }
    requires values { AreValues chart.now config.old }
    ensures act { config.new ≡ act chart.now.memories action.now config.old }
    ensures values { AreValues chart.now config.new }
{
    let value = sum(&action.value, &config.memory());
    match action.place {
        Place::Memory(number) => {
            let memory = &chart.memories.as_slice()[number];
            config.set_memory(number, nearest(memory, value));
        }
        Place::Output(number) => config.set_output(number, value),
    }
}

/// The value nearest to a number within a memory's range.
fn nearest(memory: &Memory, value: i64) -> i64
    requires { IsMemory memory.now }
    ensures value { result ≡ nearest memory.now value }
    ensures small { unsigned_abs result ≤ 1000 }
{
    if value < memory.lo {
        memory.lo
    } else if memory.hi < value {
        memory.hi
    } else {
        value
    }
}

/// The value of a sum over memories.
fn sum(form: &Form, memory: &[i64; 4]) -> i64
    requires moderate { IsModerate form.now }
    requires small { AreWithin 1000 memory.now }
    ensures value { result ≡ sum_of form.now memory.now }
    ensures bound { unsigned_abs result ≤ 901000000000 }
{
    products(&form.memory, memory) + form.constant
}

/// The sum of the products of coefficients and values.
fn products(coefficients: &[i64; 4], values: &[i64; 4]) -> i64
    requires moderate { size_of coefficients.now ≤ 900000000 }
    requires small { AreWithin 1000 values.now }
    ensures value { result ≡ sum_of_products coefficients.now values.now }
    ensures bound { unsigned_abs result ≤ 900000000000 }
{
    let mut total = 0;
    for (index, coefficient) in coefficients.iter().enumerate() {
        total += *coefficient * values[index];
    }
    total
}
