//! Laws of printed suites. Each is a function's contract; the function does nothing.
ghost use Rattle.std.specs.Prelude.{ℕ, List};
ghost use Rattle.lin_form.specs.declared.form.Comparison.{Comparison};
ghost use Rattle.input_classes.specs.Partition.{Partition};
ghost use Rattle.chart_model.specs.declared.chart.Chart.{Chart};
ghost use Rattle.subject.specs.Suite.{SuiteParts};
ghost use Rattle.suite_reading.specs.Printable.{IsPrintable};
ghost use Rattle.replay_meaning.specs.Printed.{IsPrintedFor};

use chart_meaning::configurations_go_on;
use guard_atoms::members_act_alike;

/// Every suite that is printed for a chart can be read back.
pub fn printed_suites_are_printable()
    ensures { (chart : Chart) (cuts : List Comparison) (r : Partition) (bound : ℕ) (s : SuiteParts)
        → IsPrintedFor chart cuts r bound s → IsPrintable s }
{
    configurations_go_on();
    members_act_alike();
}
