ghost use Rattle.std.specs.Prelude.{◌≡◌, MatchResult, length};
ghost use Rattle.std.specs.List.{All};
ghost use Rattle.guard_atoms.specs.Answers.{AreAtomsOf, IsAtomFault};

use crate::AtomError;
use crate::adding::add_comparisons;
use crate::comparisons::comparisons_of;
use crate::found::Found;
use crate::large::has_large;
use chart_model::{Chart, Cuts};
use lin_form::Atoms;
use std::alloc::Global;

/// The atoms of a chart's guards in written order, then those of the cuts: for each comparison, with all values of the
/// memories that it names put in, low values first. There are at most 128.
///
/// A large coefficient of an assumption, a guard or a cut is told before too many atoms.
pub fn atoms_of(alloc: Global, chart: &Chart, cuts: &Cuts) -> Result<Atoms, AtomError>
    requires width { All (λ cut. length cut.form.inputs ≡ length chart.now.signature.inputs) cuts.now }
    ensures { MatchResult result (AreAtomsOf chart.now cuts.now) (IsAtomFault chart.now cuts.now) }
{
    let comparisons = comparisons_of(alloc, chart, cuts.as_slice())?;
    if has_large(chart, comparisons.as_slice()) {
        return Err(AtomError::Coefficient);
    }
    let memories = chart.memories.as_slice();
    let mut found = Found::new(alloc);
    add_comparisons(alloc, memories, comparisons.as_slice(), &mut found)?;
    Ok(found.into_atoms(alloc)?)
}
