ghost use Rattle.std.specs.Prelude.{◌≡◌, ◌++◌, ◌∷◌, [], MatchResult, OnOk, length};
ghost use Rattle.std.specs.List.{cons_option};
ghost use Rattle.chart_model.specs.Chart.{IsAssumption};
ghost use Rattle.lin_form.specs.Range.{AreWithin};
ghost use Rattle.guard_atoms.specs.Answers.{AreAssumedOf, IsAssumedFault};
ghost use Rattle.guard_atoms.specs.inside.Claims.{AddsClaim};

use crate::AtomError;
use crate::comparisons::comparisons_of;
use crate::large::has_large;
use chart_model::Chart;
use lin_form::{Claim, Comparison, Literal, as_literals};
use std::alloc::{AllocError, Global};

/// The literals of a chart's assumptions: the vectors of its ranges on which each is as it says are its box.
pub fn assumed(alloc: Global, chart: &Chart) -> Result<Vec<Literal>, AtomError>
    ensures { MatchResult result (λ literals. AreAssumedOf chart.now literals.items) (IsAssumedFault chart.now) }
{
    let comparisons = comparisons_of(alloc, chart, &[])?;
    if has_large(chart, comparisons.as_slice()) {
        return Err(AtomError::Coefficient);
    }
    let mut literals = Vec::new(alloc);
    let assumptions = chart.assumed.as_slice();
    for assumption in assumptions {
        add_claim(alloc, assumption, &mut literals)?;
    }
    Ok(literals)
}

/// Puts the literals of an assumption behind others.
fn add_claim(
    alloc: Global,
    assumption: &Comparison,
    literals: &mut Vec<Literal>,
) -> Result<(), AllocError>
    requires assumption { IsAssumption (length assumption.now.form.inputs) assumption.now }
    requires small { AreWithin 1000000 assumption.now.form.inputs }
    ensures { OnOk result (AddsClaim assumption.now literals.old.items literals.new.items) }
{
    let Ok(claim) = as_literals(alloc, assumption) else {
        return Err(AllocError);
    };
    push_claim(claim, literals)
}

/// Puts the literals of a claim behind others.
fn push_claim(claim: Claim, literals: &mut Vec<Literal>) -> Result<(), AllocError>
    ensures { OnOk result (literals.new.items ≡ literals.old.items ++ claim.first ∷ cons_option claim.second []) }
{
    let Claim { first, second } = claim;
    literals.push(first)?;
    if let Some(second) = second {
        literals.push(second)?;
    }
    Ok(())
}
