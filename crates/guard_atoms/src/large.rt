ghost use Rattle.std.specs.Prelude.{◌≡◌, ◌++◌, map};
ghost use Rattle.std.specs.List.{list_any};
ghost use Rattle.guard_atoms.specs.Atoms.{is_large};

use chart_model::Chart;
use lin_form::{Comparison, is_small};

/// Whether an input's coefficient of some assumption, or of one of these, is above 1,000,000 in absolute value.
pub(crate) fn has_large(chart: &Chart, comparisons: &[&Comparison]) -> bool
    ensures { result ≡ list_any is_large (chart.now.assumed ++ map (λ comparison. comparison.now) comparisons.now) }
{
    has_large_assumption(chart.assumed.as_slice()) || any_large(comparisons)
}

fn has_large_assumption(assumed: &[Comparison]) -> bool
    ensures { result ≡ list_any is_large assumed.now }
{
    for assumption in assumed {
        if is_large(assumption) {
            return true;
        }
    }
    false
}

fn any_large(comparisons: &[&Comparison]) -> bool
    ensures { result ≡ list_any is_large (map (λ comparison. comparison.now) comparisons.now) }
{
    for comparison in comparisons {
        if is_large(comparison) {
            return true;
        }
    }
    false
}

/// Whether an input's coefficient is above 1,000,000 in absolute value.
fn is_large(comparison: &Comparison) -> bool
    ensures { result ≡ is_large comparison.now }
{
    !is_small(&comparison.form)
}
