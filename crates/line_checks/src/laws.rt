//! What holds of sums and guards. Each law is a function's contract; the function does nothing.
ghost use Rattle.std.specs.Prelude.{ℕ, List, ◌≤◌, length};
ghost use Rattle.line_forms.specs.declared.statement.SignedTerm.{SignedTerm};
ghost use Rattle.line_forms.specs.declared.statement.TestForm.{TestForm};
ghost use Rattle.line_forms.specs.Limits.{IsSmallGuard};
ghost use Rattle.line_forms.specs.Trees.{Tree, tests_of};
ghost use Rattle.chart_model.specs.Chart.{IsGuard};
ghost use Rattle.line_checks.specs.Guards.{guard_of};
ghost use Rattle.line_checks.specs.Names.{Names};
ghost use Rattle.line_checks.specs.Sums.{IsAddedUp, IsValueAddedUp};

/// In the form of a comparison, and in that of a value, the number of each name is what the factors of the terms with
/// this name add up to, each with its sign, and the constant is what those of the terms without a name add up to.
pub fn sums_add_up()
    ensures comparisons { (s : Names) (width : ℕ) (t : TestForm) → width ≤ 6 → IsAddedUp s width t }
    ensures values { (s : Names) (width : ℕ) (terms : List SignedTerm) → width ≤ 6 → IsValueAddedUp s width terms }
{}

/// A guard of a line with at most 64 comparisons is small once its sums are collected, and its forms are over the
/// inputs and memories in scope.
pub fn guards_fit()
    ensures { (s : Names) (width : ℕ) (guard : Tree) → width ≤ 6 → IsSmallGuard guard → tests_of guard ≤ 64
        → IsGuard width (length s.memories) (guard_of s width guard) }
{}
