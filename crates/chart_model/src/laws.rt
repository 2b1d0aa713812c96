//! Laws of the definitions.
ghost use Rattle.std.specs.Prelude.{◌≡◌, ℤ, List};
ghost use Rattle.std.specs.List.{All};
ghost use Rattle.chart_model.specs.Guard.{comparisons_of, truth_of_guard};
ghost use Rattle.lin_form.specs.Form.{truth_of};
ghost use Rattle.lin_form.specs.Trees.{Tree};
ghost use Rattle.lin_form.specs.declared.form.Comparison.{Comparison};

/// A guard depends on a vector only through the truths of its comparisons.
pub fn comparisons_decide_guards()
    ensures { (guard : Tree Comparison) (x y memory : List ℤ)
        → All (λ comparison. truth_of comparison x memory ≡ truth_of comparison y memory) (comparisons_of guard)
        → truth_of_guard guard x memory ≡ truth_of_guard guard y memory }
{}
