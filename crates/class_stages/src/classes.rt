ghost use Rattle.std.specs.Prelude.{◌≡◌, IfOk, length};
ghost use Rattle.std.specs.List.{All};
ghost use Rattle.command_stages.specs.Stage.{Makes};
ghost use Rattle.class_stages.specs.Classes.{ClassesOver, IsChartPartition};
ghost use Rattle.class_stages.specs.inside.Stops.{stop_of_atoms, stop_of_split};

use chart_model::{Chart, Cuts};
use class_split::{Partition, SplitError, split};
use command_stages::{Departure, Quantity, Refusal, Stop};
use guard_atoms::{AtomError, assumed, atoms_of};
use lin_form::Bounds;
use std::alloc::Global;

fn stop_of_atoms(error: AtomError) -> Stop
    ensures { result ≡ stop_of_atoms error }
{
    match error {
        AtomError::Coefficient => Stop::Refused(Refusal::Beyond(Quantity::Coefficient)),
        AtomError::TooMany => Stop::Refused(Refusal::Beyond(Quantity::Atoms)),
        AtomError::Memory => Stop::Departed(Departure::NoMemory),
    }
}

fn stop_of_split(name: usize, error: SplitError) -> Stop
    ensures { result ≡ stop_of_split name error }
{
    match error {
        SplitError::NoInput(_) => Stop::Refused(Refusal::NoInput { name }),
        SplitError::TooMany => Stop::Refused(Refusal::Beyond(Quantity::Classes)),
        SplitError::Memory => Stop::Departed(Departure::NoMemory),
    }
}

/// The classes of a chart, which the word with this number names, and cuts.
pub fn classes_over(
    alloc: Global,
    name: usize,
    chart: &Chart,
    cuts: &Cuts,
) -> Result<Partition, Stop>
    requires { All (λ cut. length cut.form.inputs ≡ length chart.now.signature.inputs) cuts.now }
    ensures made { Makes (ClassesOver name chart.now cuts.now) result }
    ensures partition { IfOk result (IsChartPartition chart.now cuts.now) }
{
    let atoms = match atoms_of(alloc, chart, cuts) {
        Ok(atoms) => atoms,
        Err(error) => return Err(stop_of_atoms(error)),
    };
    let literals = match assumed(alloc, chart) {
        Ok(literals) => literals,
        Err(error) => return Err(stop_of_atoms(error)),
    };
    let bounds = match Bounds::of(alloc, &chart.signature) {
        Ok(bounds) => bounds,
        Err(_) => return Err(Stop::Departed(Departure::NoMemory)),
    };
    match split(alloc, atoms, bounds, literals) {
        Ok(partition) => Ok(partition),
        Err(error) => Err(stop_of_split(name, error)),
    }
}
