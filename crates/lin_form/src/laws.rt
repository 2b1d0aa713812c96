//! Laws of the definitions.
ghost use Rattle.std.specs.Prelude.{◌≡◌, ◌↔◌, ◌++◌, ℤ, List, [], map};
ghost use Rattle.std.specs.List.{All, cons_option};
ghost use Rattle.lin_form.specs.Atom.{AgreeOnPair, IsPairOf, inequality_of};
ghost use Rattle.lin_form.specs.Form.{truth_of};
ghost use Rattle.lin_form.specs.Inequality.{AreZero, Inequality, IsNormalForm, says};
ghost use Rattle.lin_form.specs.Normal.{atoms_of_comparison, normal_of};
ghost use Rattle.lin_form.specs.declared.form.Comparison.{Comparison};
ghost use Rattle.lin_form.specs.declared.literal.Pair.{Pair};

/// An inequality over some input has one normal form, the one that is computed.
pub fn normal_forms_are_computed()
    ensures { (whole normal : Inequality) → (AreZero whole.coefficients → ⊥)
        → IsNormalForm whole normal ↔ (normal ≡ normal_of whole) }
{}

/// Vectors on which the atoms of a comparison have the same truths give the comparison the same truth.
pub fn atoms_decide_comparisons()
    ensures { (comparison : Comparison) (memory x y : List ℤ)
        → All (λ atom. says atom x ≡ says atom y) (atoms_of_comparison comparison memory)
        → truth_of comparison x memory ≡ truth_of comparison y memory }
{}

/// The pair of a comparison is one, it holds the comparison's atoms, and its truths decide the comparison's.
pub fn pairs_decide_comparisons()
    ensures one { (comparison : Comparison) (memory : List ℤ) (a b : Pair)
        → IsPairOf comparison memory a → IsPairOf comparison memory b → a ≡ b }
    ensures atoms { (comparison : Comparison) (memory : List ℤ) (pair : Pair) → IsPairOf comparison memory pair
        → map inequality_of (cons_option pair.first (cons_option pair.second [])) ≡ atoms_of_comparison comparison memory }
    ensures decided { (comparison : Comparison) (memory x y : List ℤ) (pair : Pair)
        → IsPairOf comparison memory pair → AgreeOnPair pair x y
        → truth_of comparison x memory ≡ truth_of comparison y memory }
{}
