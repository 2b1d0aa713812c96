//! The definitions, tried on a lamp and on a button that does nothing.
ghost use Rattle.std.specs.Prelude.{◌≡◌, ℕ, pos, negsuc, [], ◌∷◌};
ghost use Rattle.lin_form.specs.declared.atom.Atom.{Atom};
ghost use Rattle.lin_form.specs.Signature.{ranges_of};
ghost use Rattle.input_classes.specs.Partition.{Covers, IsPartition, box_of_partition};
ghost use Rattle.input_classes.specs.VectorSet.{box_of};
ghost use Rattle.subject.specs.Alike.{ActsLike, HasAtMost, HasRank};
ghost use Rattle.subject.specs.Domain.{Complete, Inside};
ghost use Rattle.subject.specs.FiniteMap.{plan_of_map};
ghost use Rattle.subject.specs.Meaning.{answer};
ghost use Rattle.subject.specs.Method.{IsTested};
ghost use Rattle.subject.specs.Shape.{HasShape, HasWpShape};
ghost use Rattle.subject.specs.Tests.{IsFirstFailure};
ghost use Rattle.subject.specs.inside.Examples.{lamp, telling, pressed, two_classes, one_assumed, corner_witness};
ghost use Rattle.subject.specs.inside.Examples.{one_class, one_press, silent_suite, loud_press};

use crate::Cases;

/// The positions in two classes are a partition, so is the second class where its atom is assumed, and a corner of the
/// ranges outside its class is no witness.
pub fn classes_are_as_defined()
    ensures two { (a : Atom) → a.coefficients ≡ pos 1 ∷ [] → a.constant ≡ negsuc 0 → IsPartition (two_classes a) }
    ensures assumed { (a : Atom) → a.coefficients ≡ pos 1 ∷ [] → a.constant ≡ negsuc 0 → IsPartition (one_assumed a) }
    ensures corner { (a : Atom) → a.coefficients ≡ pos 1 ∷ [] → a.constant ≡ negsuc 0
        → Covers (box_of_partition (corner_witness a)) (corner_witness a) → ⊥ }
{}

/// The two positions act alike, the position 0 does not act like them, there are two states and not one, and the lamp
/// is tested by the empty word and a press, which a press tells apart.
pub fn lamp_is_as_defined(plan: &Cases)
    requires entries { plan.now.entries ≡ lamp }
    requires ranges { ranges_of plan.now.signature.inputs ≡ (pos 0, pos 2) ∷ [] }
    ensures alike { ActsLike (box_of plan.now.signature []) (plan_of_map plan.now) (pressed 1) (pressed 2) }
    ensures apart { ActsLike (box_of plan.now.signature []) (plan_of_map plan.now) (pressed 0) (pressed 1) → ⊥ }
    ensures two { HasRank (box_of plan.now.signature []) (plan_of_map plan.now) 2 }
    ensures not_one { HasAtMost (box_of plan.now.signature []) (plan_of_map plan.now) 1 → ⊥ }
    ensures tested { let m = plan_of_map plan.now in
        (d : ℕ) → IsTested (box_of plan.now.signature []) m m ([] ∷ (pressed 1 ∷ []) ∷ []) ((pressed 1 ∷ []) ∷ []) d }
{}

/// The lamp lies inside its fault domain at the bound 2, outside at 1 by its states, and a lamp that tells two
/// positions of one class apart lies outside by an input.
pub fn domain_is_as_defined(plan: &Cases)
    requires entries { plan.now.entries ≡ lamp }
    requires ranges { ranges_of plan.now.signature.inputs ≡ (pos 0, pos 2) ∷ [] }
    ensures inside { let m = plan_of_map plan.now in
        (a : Atom) → a.coefficients ≡ pos 1 ∷ [] → a.constant ≡ negsuc 0 → Inside m (two_classes a) 2 m }
    ensures by_states { let m = plan_of_map plan.now in
        (a : Atom) → a.coefficients ≡ pos 1 ∷ [] → a.constant ≡ negsuc 0 → Inside m (two_classes a) 1 m → ⊥ }
    ensures by_input { let m = plan_of_map plan.now in
        let i = plan_of_map (record { signature = plan.now.signature; entries = telling }) in
        (a : Atom) → a.coefficients ≡ pos 1 ∷ [] → a.constant ≡ negsuc 0 → Inside m (two_classes a) 2 i → ⊥ }
{}

/// One press is a complete test at the bound 1, and no test at all is not. It makes the suite of either shape. Where a
/// reply to it is expected, its first step is the first failure.
pub fn button_is_as_defined(plan: &Cases)
    requires entries { plan.now.entries ≡ [] }
    requires ranges { ranges_of plan.now.signature.inputs ≡ (pos 0, pos 0) ∷ [] }
    ensures enough { Complete (plan_of_map plan.now) one_class 1 one_press }
    ensures too_few { Complete (plan_of_map plan.now) one_class 1 [] → ⊥ }
    ensures shape { HasShape (plan_of_map plan.now) one_class 1 (silent_suite plan.now.signature) }
    ensures wp_shape { HasWpShape (plan_of_map plan.now) one_class 1 (silent_suite plan.now.signature) }
    ensures failure { let answers = answer (plan_of_map plan.now) in
        IsFirstFailure answers loud_press (record { test = 1; step = 1; given = [] }) }
{}
