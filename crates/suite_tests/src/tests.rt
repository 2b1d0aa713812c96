//! Charts as texts, their plans and their classes.
ghost use Rattle.std.specs.Prelude.{IfOk};
ghost use Rattle.suite_tests.specs.Divided.{IsDivided};

mod exploring;
mod limits;
mod suites;

use chart_meaning::ChartPlan;
use chart_model::{Chart, Cuts};
use chart_syntax::read_chart;
use class_split::{Partition, split};
use guard_atoms::{assumed, atoms_of};
use lin_form::Bounds;
use std::alloc::{AllocError, Global};
use std::process::Abort;

/// A speed alarm: on at 8 and above, off at 5 and below.
const ALARM: &str =
    "chart 1\ninput v 0 10\noutput alarm 0\nstate Low start\nstate High\non Low when v >= 8 do alarm = 1 go High\non High when v <= 5 do alarm = 0 go Low\n";

/// The alarm where something is assumed of its input.
const ALARM_FROM_6: &str =
    "chart 2\ninput v 0 10\nassume v >= 6\noutput alarm 0\nstate Low start\nstate High\non Low when v >= 8 do alarm = 1 go High\non High when v <= 5 do alarm = 0 go Low\n";

/// A speed monitor, of whose states Normal and Over act alike.
const MONITOR: &str =
    "chart 1\ninput v 0 4000\ninput lim 0 4000\noutput warn 0\noutput brake 0\nstate Normal start\nstate Over\nstate Warning\nstate Braking\non Normal when v > lim + 100 do warn = 1, brake = 1 go Braking\non Normal when v > lim + 50 do warn = 1 go Warning\non Normal when v > lim go Over\non Over when v > lim + 100 do warn = 1, brake = 1 go Braking\non Over when v > lim + 50 do warn = 1 go Warning\non Over when v <= lim go Normal\non Warning when v > lim + 100 do brake = 1 go Braking\non Warning when v <= lim do warn = 0 go Normal\non Braking when v = 0 do warn = 0, brake = 0 go Normal\n";

/// A chart with shallow history.
const HISTORY: &str =
    "chart 3\ninput x 0 2\noutput o 0\nstate P start\nstate A in P start\nstate B in P\nstate Q\nentry A do o = 1\nentry B do o = 2\nentry Q do o = 9\non A when x = 1 go B\non P when x = 2 go Q\non Q when x = 1 go P history\non Q when x = 2 go P\n";

/// One state, one class and no transition.
const ONE: &str = "chart 1\ninput v -2 3\noutput o 5\nstate S start\n";

/// A ring of 5 states, with 256 values of a memory in each.
const RING_OF_5: &str =
    "chart 1\ninput x 0 1\noutput o 0\nmemory n 0 255 0\nstate S0 start\nstate S1\nstate S2\nstate S3\nstate S4\non S0 when x = 1 go S1\non S0 do n = n + 1\non S1 when x = 1 go S2\non S1 do n = n + 1\non S2 when x = 1 go S3\non S2 do n = n + 1\non S3 when x = 1 go S4\non S3 do n = n + 1\non S4 when x = 1 go S0\non S4 do n = n + 1\n";

/// The same of 4 states.
const RING_OF_4: &str =
    "chart 1\ninput x 0 1\noutput o 0\nmemory n 0 255 0\nstate S0 start\nstate S1\nstate S2\nstate S3\non S0 when x = 1 go S1\non S0 do n = n + 1\non S1 when x = 1 go S2\non S1 do n = n + 1\non S2 when x = 1 go S3\non S2 do n = n + 1\non S3 when x = 1 go S0\non S3 do n = n + 1\n";

/// The plan of a chart's text.
fn plan_of(rt: &impl Abort, alloc: Global, text: &str) -> Result<ChartPlan, AllocError> {
    match read_chart(alloc, text.as_bytes()) {
        Ok(chart) => ChartPlan::new(alloc, chart),
        Err(error) => panic!(rt; "{error:?}"),
    }
}

/// The classes of a chart without cuts.
fn classes_of(rt: &impl Abort, alloc: Global, chart: &Chart) -> Result<Partition, AllocError>
    ensures { IfOk result (IsDivided chart.now) }
{
    let cuts = Cuts::none(alloc);
    let atoms = match atoms_of(alloc, chart, &cuts) {
        Ok(atoms) => atoms,
        Err(error) => panic!(rt; "{error:?}"),
    };
    let literals = match assumed(alloc, chart) {
        Ok(literals) => literals,
        Err(error) => panic!(rt; "{error:?}"),
    };
    let bounds = Bounds::of(alloc, &chart.signature)?;
    match split(alloc, atoms, bounds, literals) {
        Ok(partition) => Ok(partition),
        Err(_) => panic!(rt; "no classes"),
    }
}
