//! What holds of every plan, of answers and of words. Each law is a function's contract; the function does nothing. Where
//! a law speaks of classes or witnesses, the classes cover the set (`Covers`): each vector of it is in one, and each
//! witness is a member of its class.
ghost use Rattle.std.specs.Prelude.{◌≡◌, ◌⊎◌, ◌↔◌, ℕ, ℤ, ◌+◌, ◌-◌, ◌≤◌, ◌++◌, [], ◌∷◌, List, length};
ghost use Rattle.std.specs.List.{All, AllPairs};
ghost use Rattle.lin_form.specs.declared.literal.Literal.{Literal};
ghost use Rattle.lin_form.specs.Signature.{IsInInputRanges, ranges_of};
ghost use Rattle.input_classes.specs.Partition.{Covers, IsPartition, Partition, in_witnesses, witness_of, witnesses};
ghost use Rattle.input_classes.specs.VectorSet.{IsIn, IsWordOf, Members, VectorSet, Word, box_of};
ghost use Rattle.subject.specs.Alike.{ActsLike, Equal, HasAtMost, HasRank, LeadAlike, LeadDifferently, MembersActAlike};
ghost use Rattle.subject.specs.Domain.{ActByClasses, Complete, Inside, IsFitting, box};
ghost use Rattle.subject.specs.Meaning.{IsReached, IsReachedOn, after, answer, answer_from, state_after};
ghost use Rattle.subject.specs.Method.{AreCoverAndMarks, AreMethodTests, HaveProducts, IsAnswered, IsTested};
ghost use Rattle.subject.specs.Tests.{Answers, Failure, IsFirstFailure, PartAtLast, Passes, TestCase, failed_word};

use crate::Plan;
use lin_form::Signature;

/// Every word of a box is a word of the ranges, also of a signature that fits.
pub fn box_lies_in_ranges(signature: &Signature)
    ensures own { (assumed : List Literal) (w : Word) → IsWordOf (box_of signature.now assumed) w
        → All (IsInInputRanges signature.now.inputs) w }
    ensures fitting { (other : Signature) (assumed : List Literal) (w : Word) → IsFitting signature.now other
        → IsWordOf (box_of signature.now assumed) w → All (IsInInputRanges other.inputs) w }
{}

/// A partition whose ranges are a plan's covers the plan's box.
pub fn partition_covers_the_box<P: Plan>(plan: &P)
    ensures { let m = P.plan plan.now in
        (r : Partition) → IsPartition r → r.ranges ≡ ranges_of m.signature.inputs → Covers (box m r) r }
{}

/// The start is reached, and so are the state after a step from a state that is reached and that after a word. What is
/// reached on a set is reached on a larger one.
pub fn reaching<P: Plan>(plan: &P)
    ensures start { let m = P.plan plan.now in (s : VectorSet) → IsReachedOn s m m.start }
    ensures step { let m = P.plan plan.now in
        (s : VectorSet) (t : P.State) (x : List ℤ) → IsReachedOn s m t → IsIn s x → IsReachedOn s m (m.next t x) }
    ensures word { let m = P.plan plan.now in
        (s : VectorSet) (w : Word) → IsWordOf s w → IsReachedOn s m (state_after m m.start w) }
    ensures more { let m = P.plan plan.now in
        (s larger : VectorSet) (t : P.State) → ((x : List ℤ) → IsIn s x → IsIn larger x)
        → IsReachedOn s m t → IsReachedOn larger m t }
    ensures in_ranges { let m = P.plan plan.now in
        (t : P.State) (x : List ℤ) → IsReached m t → IsInInputRanges m.signature.inputs x → IsReached m (m.next t x) }
{}

/// The replies to `u` and then `v` are those to `u` and then those after `u`, one for each vector of `v`: the replies
/// from the state to which `u` leads.
pub fn replies_after<P: Plan>(plan: &P)
    ensures joined { let m = P.plan plan.now in (u v : Word) → answer m (u ++ v) ≡ answer m u ++ after m u v }
    ensures one_each { let m = P.plan plan.now in (u v : Word) → length (after m u v) ≡ length v }
    ensures state { let m = P.plan plan.now in (u v : Word) → after m u v ≡ answer_from m (state_after m m.start u) v }
{}

/// A plan is equal to itself, equality is symmetric, and it passes on.
pub fn equality_of_plans<P: Plan, Q: Plan, R: Plan>(first: &P, second: &Q, third: &R)
    ensures itself { let a = P.plan first.now in (s : VectorSet) → Equal s a a }
    ensures turned { let a = P.plan first.now in let b = Q.plan second.now in
        (s : VectorSet) → Equal s a b → Equal s b a }
    ensures passed_on { let a = P.plan first.now in let b = Q.plan second.now in let c = R.plan third.now in
        (s : VectorSet) → Equal s a b → Equal s b c → Equal s a c }
{}

/// A word leads alike with itself, leading alike is symmetric, it passes on, and it goes on with one more vector. Where
/// members of a class act alike, words of witnesses show it.
pub fn leading_alike<P: Plan>(plan: &P)
    ensures itself { let m = P.plan plan.now in (s : VectorSet) (u : Word) → LeadAlike s m u u }
    ensures turned { let m = P.plan plan.now in (s : VectorSet) (u w : Word) → LeadAlike s m u w → LeadAlike s m w u }
    ensures passed_on { let m = P.plan plan.now in
        (s : VectorSet) (u v w : Word) → LeadAlike s m u v → LeadAlike s m v w → LeadAlike s m u w }
    ensures goes_on { let m = P.plan plan.now in
        (s : VectorSet) (u w : Word) (x : List ℤ) → IsIn s x → LeadAlike s m u w
        → LeadAlike s m (u ++ x ∷ []) (w ++ x ∷ []) }
    ensures over_witnesses { let m = P.plan plan.now in
        (s : VectorSet) (r : Partition) (u w : Word) → Covers s r → MembersActAlike s r m → IsWordOf s u → IsWordOf s w
        → (LeadAlike s m u w ↔ LeadAlike (Members (witnesses r)) m u w) }
{}

/// Two vectors with the same next state and the same reply in every state that is reached act alike.
pub fn same_steps_act_alike<P: Plan>(plan: &P)
    ensures { let m = P.plan plan.now in
        (s : VectorSet) (x y : List ℤ)
        → ((t : P.State) → IsReachedOn s m t → (m.next t x ≡ m.next t y) × (m.reply t x ≡ m.reply t y))
        → ActsLike s m x y }
{}

/// A vector acts like itself, acting alike is symmetric, and it passes on. Two vectors act alike exactly where after each
/// word they get the same reply and lead alike, and, where members of a class act alike, exactly where their witnesses do
/// over words of witnesses.
pub fn acting_alike<P: Plan>(plan: &P)
    ensures itself { let m = P.plan plan.now in (s : VectorSet) (x : List ℤ) → ActsLike s m x x }
    ensures turned { let m = P.plan plan.now in (s : VectorSet) (x y : List ℤ) → ActsLike s m x y → ActsLike s m y x }
    ensures passed_on { let m = P.plan plan.now in
        (s : VectorSet) (x y z : List ℤ) → ActsLike s m x y → ActsLike s m y z → ActsLike s m x z }
    ensures witnesses { let m = P.plan plan.now in
        (s : VectorSet) (r : Partition) (x y : List ℤ) → Covers s r → MembersActAlike s r m → IsIn s x → IsIn s y
        → (ActsLike s m x y ↔ ActsLike (Members (witnesses r)) m (witness_of r x) (witness_of r y)) }
    ensures after_words { let m = P.plan plan.now in
        (s : VectorSet) (x y : List ℤ) → (ActsLike s m x y ↔ ((u : Word) → IsWordOf s u
        → (after m u (x ∷ []) ≡ after m u (y ∷ [])) × LeadAlike s m (u ++ x ∷ []) (u ++ y ∷ []))) }
{}

/// Words that cannot lead differently lead alike, and plans that cannot but be equal are equal.
pub fn what_cannot_differ_is_the_same<P: Plan, Q: Plan>(plan: &P, other: &Q)
    ensures alike { let m = P.plan plan.now in
        (s : VectorSet) (u w : Word) → (LeadDifferently s m u w → ⊥) → LeadAlike s m u w }
    ensures equal { let a = P.plan plan.now in let b = Q.plan other.now in
        (s : VectorSet) → ((Equal s a b → ⊥) → ⊥) → Equal s a b }
{}

/// A plan has at most one rank, which is the least number of states that it has at most. Over fewer vectors the rank is
/// no greater, and no more words lead pairwise differently.
pub fn rank_is_least<P: Plan>(plan: &P)
    ensures least { let m = P.plan plan.now in (s : VectorSet) (k n : ℕ) → HasRank s m k → HasAtMost s m n → k ≤ n }
    ensures one { let m = P.plan plan.now in (s : VectorSet) (k n : ℕ) → HasRank s m k → HasRank s m n → k ≡ n }
    ensures more { let m = P.plan plan.now in (s : VectorSet) (k n : ℕ) → HasAtMost s m k → k ≤ n → HasAtMost s m n }
    ensures within { let m = P.plan plan.now in
        (s t : VectorSet) (k n : ℕ) → ((x : List ℤ) → IsIn t x → IsIn s x) → HasRank t m k → HasAtMost s m n → k ≤ n }
    ensures apart { let m = P.plan plan.now in
        (s t : VectorSet) (words : List Word) (n : ℕ) → ((x : List ℤ) → IsIn t x → IsIn s x) → All (IsWordOf t) words
        → AllPairs (LeadDifferently t m) words → HasAtMost s m n → length words ≤ n }
{}

/// Where members of a class act alike, a word and its word of witnesses have equal answers. The vectors of a word of
/// witnesses are witnesses, and lie in the set.
pub fn witnesses_stand_in<P: Plan>(plan: &P)
    ensures answers { let m = P.plan plan.now in
        (s : VectorSet) (r : Partition) → Covers s r → MembersActAlike s r m
        → (w : Word) → IsWordOf s w → answer m w ≡ answer m (in_witnesses r w) }
    ensures members { (s : VectorSet) (r : Partition) → Covers s r
        → (w : Word) → IsWordOf s w → IsWordOf (Members (witnesses r)) (in_witnesses r w) }
    ensures within { (s : VectorSet) (r : Partition) → Covers s r
        → (w : Word) → IsWordOf (Members (witnesses r)) w → IsWordOf s w }
{}

/// Where members of a class act alike, words of witnesses need as many states as all words, and the rank over them is
/// the rank.
pub fn states_over_witnesses<P: Plan>(plan: &P)
    ensures over { let m = P.plan plan.now in
        (s : VectorSet) (r : Partition) (n : ℕ) → Covers s r → MembersActAlike s r m
        → HasAtMost s m n → HasAtMost (Members (witnesses r)) m n }
    ensures from { let m = P.plan plan.now in
        (s : VectorSet) (r : Partition) (n : ℕ) → Covers s r → MembersActAlike s r m
        → HasAtMost (Members (witnesses r)) m n → HasAtMost s m n }
    ensures rank_over { let m = P.plan plan.now in
        (s : VectorSet) (r : Partition) (n : ℕ) → Covers s r → MembersActAlike s r m
        → HasRank s m n → HasRank (Members (witnesses r)) m n }
    ensures rank_from { let m = P.plan plan.now in
        (s : VectorSet) (r : Partition) (n : ℕ) → Covers s r → MembersActAlike s r m
        → HasRank (Members (witnesses r)) m n → HasRank s m n }
{}

/// Where every vector has a class that acts like it in both plans: plans that answer words of witnesses alike are
/// equal, and words that lead alike over words of witnesses lead alike.
pub fn witnesses_show_all_words<P: Plan, Q: Plan>(model: &P, other: &Q)
    ensures equal { let m = P.plan model.now in let i = Q.plan other.now in
        (s : VectorSet) (r : Partition) → Covers s r → ActByClasses s r m i
        → Equal (Members (witnesses r)) i m → Equal s i m }
    ensures alike { let m = P.plan model.now in let i = Q.plan other.now in
        (s : VectorSet) (r : Partition) → Covers s r → ActByClasses s r m i
        → (u w : Word) → IsWordOf s u → IsWordOf s w → LeadAlike (Members (witnesses r)) i u w → LeadAlike s i u w }
{}

/// A model in which members of a class act alike lies inside its own fault domain at every bound from its number of
/// states on.
pub fn model_is_inside<P: Plan>(model: &P)
    ensures { let m = P.plan model.now in
        (r : Partition) (n : ℕ) → Covers (box m r) r → MembersActAlike (box m r) r m → HasAtMost (box m r) m n
        → Inside m r n m }
{}

/// The theorem of the W-method (Chow 1978): a plan with at most `d` states more than the cover has words, counted over
/// words of these or more vectors, that answers as the model does each product of a word of the cover, a word of at most
/// `d + 1` vectors and a mark is equal to the model.
pub fn tested_plan_is_equal<P: Plan, Q: Plan>(model: &P, other: &Q)
    ensures { let m = P.plan model.now in let i = Q.plan other.now in
        (s t : VectorSet) (cover marks : List Word) (d : ℕ) → ((x : List ℤ) → IsIn t x → IsIn s x)
        → IsTested t m i cover marks d → HasAtMost s i (length cover + d) → Equal t i m }
{}

/// The same on words of witnesses (Huang and Peleska): a plan inside the fault domain that is so tested is equal to the
/// model on every word of the box.
pub fn tested_plan_inside_is_equal<P: Plan, Q: Plan>(model: &P, other: &Q)
    ensures { let m = P.plan model.now in let i = Q.plan other.now in
        (r : Partition) (n : ℕ) (cover marks : List Word) → Covers (box m r) r → length cover ≤ n → Inside m r n i
        → IsTested (Members (witnesses r)) m i cover marks (n - length cover) → Equal (box m r) i m }
{}

/// The words of a state cover with a characterisation set are as many as the rank.
pub fn cover_is_rank<P: Plan>(plan: &P)
    ensures { let m = P.plan plan.now in
        (s : VectorSet) (cover marks : List Word) → AreCoverAndMarks s m cover marks → HasRank s m (length cover) }
{}

/// Tests that have all products of the W-method are tests of either method: with all marks as the own marks of each word
/// of the cover they have those of the Wp-method.
pub fn all_marks_are_own<P: Plan>(model: &P)
    ensures { let m = P.plan model.now in
        (r : Partition) (n : ℕ) (cover marks : List Word) (tests : List TestCase) → Covers (box m r) r
        → length cover ≤ n → AreCoverAndMarks (Members (witnesses r)) m cover marks
        → HaveProducts (Members (witnesses r)) cover marks (n - length cover) tests
        → All (IsAnswered (box m r) m) tests → AreMethodTests m r n tests }
{}

/// A plan inside the fault domain passes the tests of the method exactly where it is equal to the model.
pub fn tests_decide<P: Plan, Q: Plan>(model: &P, other: &Q)
    ensures { let m = P.plan model.now in let i = Q.plan other.now in
        (r : Partition) (n : ℕ) (tests : List TestCase) → AreMethodTests m r n tests → Inside m r n i
        → (Passes (answer i) tests ↔ Equal (box m r) i m) }
{}

/// The tests of the method are complete.
pub fn tests_are_complete<P: Plan>(model: &P)
    ensures { let m = P.plan model.now in
        (r : Partition) (n : ℕ) (tests : List TestCase) → AreMethodTests m r n tests → Complete m r n tests }
{}

/// Answers with one reply per vector pass all tests that expect one reply per vector, or have one first failure, and not
/// both.
pub fn verdict_is_one()
    ensures either { (answers : Answers) (tests : List TestCase) → ((w : Word) → length (answers w) ≡ length w)
        → All (λ test. length test.replies ≡ length test.word) tests
        → Passes answers tests ⊎ ((failure : Failure) × IsFirstFailure answers tests failure) }
    ensures not_both { (answers : Answers) (tests : List TestCase) (failure : Failure)
        → IsFirstFailure answers tests failure → Passes answers tests → ⊥ }
    ensures one { (answers : Answers) (tests : List TestCase) (f g : Failure) → IsFirstFailure answers tests f
        → IsFirstFailure answers tests g → f ≡ g }
{}

/// A first failure of a plan on tests with the model's replies shows a word of their set to which the two answers
/// differ at the last vector and at no earlier one, so the plans are not equal.
pub fn failure_shows_a_difference<P: Plan, Q: Plan>(model: &P, other: &Q)
    ensures word { let m = P.plan model.now in let i = Q.plan other.now in
        (s : VectorSet) (tests : List TestCase) (failure : Failure) → All (IsAnswered s m) tests
        → IsFirstFailure (answer i) tests failure → IsWordOf s (failed_word tests failure) }
    ensures parts { let m = P.plan model.now in let i = Q.plan other.now in
        (s : VectorSet) (tests : List TestCase) (failure : Failure) → All (IsAnswered s m) tests
        → IsFirstFailure (answer i) tests failure → PartAtLast (answer i) (answer m) (failed_word tests failure) }
    ensures unequal { let m = P.plan model.now in let i = Q.plan other.now in
        (s : VectorSet) (tests : List TestCase) (failure : Failure) → All (IsAnswered s m) tests
        → IsFirstFailure (answer i) tests failure → Equal s i m → ⊥ }
{}
