//! A law of characterisation sets. The function does nothing.

ghost use Rattle.std.specs.Prelude.{ℕ, ◌-◌, ◌≤◌, List, length, max, All};
ghost use Rattle.fsm_core.specs.Machine.{Machine, IsMachine};
ghost use Rattle.state_cover.specs.Cover.{IsCover};
ghost use Rattle.charset.specs.Marks.{AreMarks};

/// The marks of the cover of a machine of n states: there are at most n - 1, or one where n is 1, and each has at most
/// n - 1 letters. A machine whose cover has marks is reduced, so no premise says so.
pub fn marks_are_few_and_short()
    ensures count { (m : Machine) (cover marks : List (List ℕ)) → IsMachine m → IsCover m cover →
        AreMarks m cover marks → length marks ≤ max 1 (m.states - 1) }
    ensures short { (m : Machine) (cover marks : List (List ℕ)) → IsMachine m → IsCover m cover →
        AreMarks m cover marks → All (λ w. length w ≤ m.states - 1) marks }
{}
