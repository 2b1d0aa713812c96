ghost use Rattle.std.specs.Prelude.{◌≡◌, ◌≤◌, [], flat_map, length, map};
ghost use Rattle.std.specs.List.{All, cons_option};
ghost use Rattle.lin_form.specs.Atom.{inequality_of};
ghost use Rattle.lin_form.specs.Normal.{are_zero};
ghost use Rattle.lin_form.specs.Range.{AreWithin};
ghost use Rattle.chart_model.specs.Chart.{IsMemory};
ghost use Rattle.guard_atoms.specs.Atoms.{atoms_over};
ghost use Rattle.guard_atoms.specs.inside.Adding.{Adds, IsFormOfAtoms, atoms_with};

use crate::AtomError;
use crate::constants::constants_of;
use crate::found::Found;
use chart_model::Memory;
use lin_form::{Comparison, Direction, Pair, Relation};
use std::alloc::Global;

/// Adds the atoms of comparisons, for all values of the memories that each names.
pub(crate) fn add_comparisons(
    alloc: Global,
    memories: &[Memory],
    comparisons: &[&Comparison],
    found: &mut Found,
) -> Result<(), AtomError>
    requires few { length memories.now ≤ 4 }
    requires ranges { All IsMemory memories.now }
    requires forms { All IsFormOfAtoms (map (λ comparison. comparison.now) comparisons.now) }
    ensures { Adds found.old (flat_map (atoms_over memories.now) (map (λ comparison. comparison.now) comparisons.now))
        found.new result }
{
    for comparison in comparisons {
        add_comparison(alloc, memories, comparison, found)?;
    }
    Ok(())
}

/// Adds the atoms of a comparison, for all values of the memories that it names.
fn add_comparison(
    alloc: Global,
    memories: &[Memory],
    comparison: &Comparison,
    found: &mut Found,
) -> Result<(), AtomError>
    requires few { length memories.now ≤ 4 }
    requires ranges { All IsMemory memories.now }
    requires form { IsFormOfAtoms comparison.now }
    ensures { Adds found.old (atoms_over memories.now comparison.now) found.new result }
{
    let form = &comparison.form;
    if are_zero(form.inputs.as_slice()) {
        return Ok(());
    }
    let direction = Direction::of(alloc, &form.inputs);
    let constants = constants_of(alloc, &form.memory, memories, form.constant)?;
    add_pairs(
        alloc,
        &direction,
        comparison.relation,
        constants.as_slice(),
        found,
    )
}

/// Adds the atoms of a relation with 0 of the sum over the inputs and each of the constants.
fn add_pairs(
    alloc: Global,
    direction: &Direction,
    relation: Relation,
    constants: &[i64],
    found: &mut Found,
) -> Result<(), AtomError>
    requires small { AreWithin 901000000000 constants.now }
    ensures { Adds found.old (flat_map (atoms_with relation direction.now) constants.now) found.new result }
{
    for constant in constants {
        add_pair(direction.pair(alloc, *constant, relation), found)?;
    }
    Ok(())
}

/// Adds the atoms of a pair.
fn add_pair(pair: Pair, found: &mut Found) -> Result<(), AtomError>
    ensures { Adds found.old (map inequality_of (cons_option pair.first (cons_option pair.second [])))
        found.new result }
{
    let Pair { first, second } = pair;
    if let Some(atom) = first {
        found.add(atom)?;
    }
    if let Some(atom) = second {
        found.add(atom)?;
    }
    Ok(())
}

/// Whether all numbers are 0.
fn are_zero(numbers: &[i64]) -> bool
    ensures { result ≡ are_zero numbers.now }
{
    numbers.iter().all(|number| *number == 0)
}
