ghost use Rattle.std.specs.Prelude.{◌≡◌, ◌≤◌, List};
ghost use Rattle.lin_form.specs.declared.form.Comparison.{Comparison};
ghost use Rattle.command_stages.specs.Stage.{Makes};
ghost use Rattle.class_stages.specs.Classes.{IsChartPartition};
ghost use Rattle.suite_stages.specs.Suites.{SuiteOver, LeastSuiteOver};
ghost use Rattle.suite_stages.specs.inside.Stops.{stop_of_make};

use chart_meaning::{ChartPlan, configurations_go_on};
use class_split::Partition;
use command_stages::{Departure, Quantity, Refusal, Stop};
use guard_atoms::members_act_alike;
use std::alloc::Global;
use suite_making::{LeastSuite, MakeError, make_least_suite, make_suite};
use suite_model::Suite;

fn stop_of_make(bound: usize, error: MakeError) -> Stop
    ensures { result ≡ stop_of_make bound error }
{
    match error {
        MakeError::TooManyConfigurations => {
            Stop::Refused(Refusal::Beyond(Quantity::Configurations))
        }
        MakeError::BoundBelow { states } => Stop::Refused(Refusal::BoundBelow { bound, states }),
        MakeError::TooManySteps => Stop::Refused(Refusal::Beyond(Quantity::Steps)),
        MakeError::Memory => Stop::Departed(Departure::NoMemory),
    }
}

/// The suite of a chart's plan, the classes of the chart and cuts, and a bound.
pub fn suite_over(
    alloc: Global,
    bound: usize,
    plan: &ChartPlan,
    partition: &Partition,
) -> Result<Suite, Stop>
    requires bound { bound ≤ 1024 }
    requires partition { (cuts : List Comparison) × IsChartPartition plan.now cuts partition.now }
    ensures { Makes (SuiteOver bound plan.now partition.now) result }
{
    configurations_go_on();
    members_act_alike();
    match make_suite(alloc, plan, partition, bound) {
        Ok(suite) => Ok(suite),
        Err(error) => Err(stop_of_make(bound, error)),
    }
}

/// The suite of a chart's plan and its classes for the least bound, and how many configurations the plan reaches.
pub fn least_suite_over(
    alloc: Global,
    plan: &ChartPlan,
    partition: &Partition,
) -> Result<LeastSuite, Stop>
    requires { (cuts : List Comparison) × IsChartPartition plan.now cuts partition.now }
    ensures { Makes (LeastSuiteOver plan.now partition.now) result }
{
    configurations_go_on();
    members_act_alike();
    match make_least_suite(alloc, plan, partition) {
        Ok(least) => Ok(least),
        Err(error) => Err(stop_of_make(0, error)),
    }
}
