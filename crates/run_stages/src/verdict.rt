ghost use Rattle.std.specs.Prelude.{IfOk};
ghost use Rattle.subject.specs.Domain.{IsFitting};
ghost use Rattle.subject.specs.Suite.{tests_of};
ghost use Rattle.suite_model.specs.Scratch.{IsMadeFor};
ghost use Rattle.test_subject.specs.Verdict.{NamesStep};
ghost use Rattle.command_stages.specs.Stage.{Makes};
ghost use Rattle.run_stages.specs.Implementations.{signature_of};
ghost use Rattle.run_stages.specs.Stages.{VerdictOver};

use crate::implementation::Implementation;
use chart_meaning::ChartPlan;
use command_stages::{Departure, Stop};
use std::alloc::Global;
use suite_model::{Scratch, Suite};
use suite_run::verdict_by_words;
use test_subject::Verdict;

/// The verdict on an implementation. The memory that may be wanting is that of a chart's plan.
pub fn verdict_over(
    alloc: Global,
    suite: &Suite,
    implementation: Implementation,
    scratch: &mut Scratch,
) -> Result<Verdict, Stop>
    requires made { IsMadeFor suite.now scratch.old }
    requires fits { IsFitting suite.now.signature (signature_of implementation) }
    ensures made { Makes (VerdictOver suite.now implementation) result }
    ensures names { IfOk result (NamesStep (tests_of suite.now)) }
    ensures scratch { IsMadeFor suite.now scratch.new }
{
    match implementation {
        Implementation::Chart(chart) => match ChartPlan::new(alloc, chart) {
            Ok(plan) => Ok(verdict_by_words(alloc, suite, plan, scratch)),
            Err(_) => Err(Stop::Departed(Departure::NoMemory)),
        },
        Implementation::Table(table) => Ok(verdict_by_words(alloc, suite, table, scratch)),
    }
}
