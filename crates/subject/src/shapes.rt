//! What holds of the suites of both methods. Each law is a function's contract; the function does nothing. All but the
//! first and the last ask that the classes cover the model's box (`Covers`), as those of its partition do.
ghost use Rattle.std.specs.Prelude.{◌≡◌, ◌↔◌, ℕ, List, length};
ghost use Rattle.std.specs.List.{All};
ghost use Rattle.input_classes.specs.Partition.{Covers, Partition, witnesses};
ghost use Rattle.input_classes.specs.VectorSet.{IsWordOf, Members, Word};
ghost use Rattle.suite_words.specs.Cover.{AreLetters, IsCoverBy};
ghost use Rattle.suite_words.specs.Marks.{AreMarksBy};
ghost use Rattle.subject.specs.Alike.{Equal, HasRank, MembersActAlike};
ghost use Rattle.subject.specs.Domain.{Complete, Inside, box};
ghost use Rattle.subject.specs.Meaning.{answer};
ghost use Rattle.subject.specs.Method.{IsAnswered};
ghost use Rattle.subject.specs.Shape.{HasShape, HasWpShape, LeadAlikeBy, answer_after};
ghost use Rattle.subject.specs.Suite.{SuiteParts, in_vectors, tests_of};
ghost use Rattle.subject.specs.Tests.{Passes};

use crate::Plan;

/// Words of letters stand for words of witnesses, and each word of witnesses has letters.
pub fn letters_stand_for_witnesses()
    ensures words { (r : Partition) (w : List ℕ) → AreLetters (length r.classes) w
        → IsWordOf (Members (witnesses r)) (in_vectors (witnesses r) w) }
    ensures letters { (r : Partition) (w : Word) → IsWordOf (Members (witnesses r)) w
        → (letters : List ℕ) × (AreLetters (length r.classes) letters × (in_vectors (witnesses r) letters ≡ w)) }
{}

/// Where members of a class act alike, the cover that a characterisation set tells apart has as many words as the rank.
pub fn cover_words_are_the_rank<P: Plan>(model: &P)
    ensures { let m = P.plan model.now in
        (r : Partition) (cover marks : List (List ℕ)) → Covers (box m r) r → MembersActAlike (box m r) r m
        → IsCoverBy (length r.classes) (LeadAlikeBy m r) cover
        → AreMarksBy (answer_after m r cover) (length cover) (length r.classes) marks
        → HasRank (box m r) m (length cover) }
{}

/// The tests of a suite of either shape are words of the box with the model's replies.
pub fn suites_are_answered<P: Plan>(model: &P)
    ensures shape { let m = P.plan model.now in
        (r : Partition) (n : ℕ) (s : SuiteParts) → Covers (box m r) r → HasShape m r n s
        → All (IsAnswered (box m r) m) (tests_of s) }
    ensures wp_shape { let m = P.plan model.now in
        (r : Partition) (n : ℕ) (s : SuiteParts) → Covers (box m r) r → HasWpShape m r n s
        → All (IsAnswered (box m r) m) (tests_of s) }
{}

/// A plan inside the fault domain passes a suite of either shape exactly where it is equal to the model.
pub fn suites_decide<P: Plan, Q: Plan>(model: &P, other: &Q)
    ensures shape { let m = P.plan model.now in let i = Q.plan other.now in
        (r : Partition) (n : ℕ) (s : SuiteParts) → Covers (box m r) r → HasShape m r n s → Inside m r n i
        → (Passes (answer i) (tests_of s) ↔ Equal (box m r) i m) }
    ensures wp_shape { let m = P.plan model.now in let i = Q.plan other.now in
        (r : Partition) (n : ℕ) (s : SuiteParts) → Covers (box m r) r → HasWpShape m r n s → Inside m r n i
        → (Passes (answer i) (tests_of s) ↔ Equal (box m r) i m) }
{}

/// A suite of either shape is complete.
pub fn suites_are_complete<P: Plan>(model: &P)
    ensures shape { let m = P.plan model.now in
        (r : Partition) (n : ℕ) (s : SuiteParts) → Covers (box m r) r → HasShape m r n s → Complete m r n (tests_of s) }
    ensures wp_shape { let m = P.plan model.now in
        (r : Partition) (n : ℕ) (s : SuiteParts) → Covers (box m r) r → HasWpShape m r n s
        → Complete m r n (tests_of s) }
{}

/// At most one suite has the shape.
pub fn suite_is_one<P: Plan>(model: &P)
    ensures shape { let m = P.plan model.now in
        (r : Partition) (n : ℕ) (s t : SuiteParts) → HasShape m r n s → HasShape m r n t → s ≡ t }
    ensures wp_shape { let m = P.plan model.now in
        (r : Partition) (n : ℕ) (s t : SuiteParts) → HasWpShape m r n s → HasWpShape m r n t → s ≡ t }
{}
