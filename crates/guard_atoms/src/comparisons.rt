ghost use Rattle.std.specs.Prelude.{◌≡◌, ◌++◌, IfOk, OnOk, flat_map, map};
ghost use Rattle.guard_atoms.specs.Atoms.{comparisons_on, guard_comparisons};

use chart_model::{Chart, Transition};
use lin_form::Comparison;
use std::alloc::{AllocError, Global};

/// The comparisons of all guards in written order, then the cuts.
pub(crate) fn comparisons_of<'a>(
    alloc: Global,
    chart: &'a Chart,
    cuts: &'a [Comparison],
) -> Result<Vec<&'a Comparison>, AllocError>
    ensures { IfOk result (λ found. map (λ comparison. comparison.now) found.items
        ≡ guard_comparisons chart.now ++ cuts.now) }
{
    let mut found = Vec::new(alloc);
    add_guards(chart.transitions.as_slice(), &mut found)?;
    add_cuts(cuts, &mut found)?;
    Ok(found)
}

/// Puts the comparisons of the transitions' guards behind others.
fn add_guards<'a>(
    transitions: &'a [Transition],
    found: &mut Vec<&'a Comparison>,
) -> Result<(), AllocError>
    ensures { OnOk result (map (λ comparison. comparison.now) found.new.items
        ≡ map (λ comparison. comparison.now) found.old.items ++ flat_map comparisons_on transitions.now) }
{
    for transition in transitions {
        add_guard(transition, found)?;
    }
    Ok(())
}

/// Puts the comparisons of a transition's guard behind others.
fn add_guard<'a>(
    transition: &'a Transition,
    found: &mut Vec<&'a Comparison>,
) -> Result<(), AllocError>
    ensures { OnOk result (map (λ comparison. comparison.now) found.new.items
        ≡ map (λ comparison. comparison.now) found.old.items ++ comparisons_on transition.now) }
{
    match &transition.guard {
        Some(guard) => guard.add_comparisons(found),
        None => Ok(()),
    }
}

/// Puts the cuts behind others.
fn add_cuts<'a>(cuts: &'a [Comparison], found: &mut Vec<&'a Comparison>) -> Result<(), AllocError>
    ensures { OnOk result (map (λ comparison. comparison.now) found.new.items
        ≡ map (λ comparison. comparison.now) found.old.items ++ cuts.now) }
{
    for cut in cuts {
        found.push(cut)?;
    }
    Ok(())
}
