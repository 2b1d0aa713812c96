//! What the machine of a plan says of the plan. Each law is a function's contract; the function does nothing.
ghost use Rattle.std.specs.Prelude.{◌≡◌, ℕ, ◌↔◌, List, length};
ghost use Rattle.std.specs.List.{All};
ghost use Rattle.fsm_core.specs.Answers.{answer_from};
ghost use Rattle.fsm_core.specs.Machine.{IsWord, Machine, state_after};
ghost use Rattle.input_classes.specs.Partition.{Covers, Partition, witnesses};
ghost use Rattle.input_classes.specs.VectorSet.{Members, VectorSet};
ghost use Rattle.subject.specs.Alike.{HasRank, MembersActAlike};
ghost use Rattle.subject.specs.Domain.{box};
ghost use Rattle.subject.specs.Shape.{LeadAlikeBy, answer_after};
ghost use Rattle.suite_words.specs.Cover.{IsCoverBy};
ghost use Rattle.suite_words.specs.Marks.{AreMarksBy};
ghost use Rattle.word_pool.specs.Words.{word};
ghost use Rattle.abstract_machine.specs.Abstraction.{IsAbstractionOf};
ghost use Rattle.abstract_machine.specs.Reached.{AreAllReached, MembersAdvanceAlike, ReachesMore};

use subject::Plan;

/// The reduced machine has as many states as the plan has rank, over words of the witnesses and, where members of a
/// class act alike, over words of the box.
pub fn reduced_machine_has_the_rank<P: Plan>(plan: &P)
    ensures over_witnesses { let m = P.plan plan.now in
        (r : Partition) (g : Machine) → IsAbstractionOf r m g → HasRank (Members (witnesses r)) m g.states }
    ensures over_box { let m = P.plan plan.now in
        (r : Partition) (g : Machine) → Covers (box m r) r → MembersActAlike (box m r) r m → IsAbstractionOf r m g
        → HasRank (box m r) m g.states }
{}

/// A state cover of the reduced machine is, where members of a class act alike, the state cover of the plan, and marks
/// of the machine are marks of the plan.
pub fn reduced_machine_has_the_words<P: Plan>(plan: &P)
    ensures cover { let m = P.plan plan.now in
        (r : Partition) (g : Machine) (cover : List (List ℕ)) → Covers (box m r) r → MembersActAlike (box m r) r m
        → IsAbstractionOf r m g → IsCoverBy g.letters (λ u w. state_after g 0 u ≡ state_after g 0 w) cover
        → IsCoverBy (length r.classes) (LeadAlikeBy m r) cover }
    ensures marks { let m = P.plan plan.now in
        (r : Partition) (g : Machine) (cover marks : List (List ℕ)) → IsAbstractionOf r m g → All (IsWord g) cover
        → AreMarksBy (λ i w. answer_from g (state_after g 0 (word cover i)) w) (length cover) g.letters marks
        → AreMarksBy (answer_after m r cover) (length cover) (length r.classes) marks }
{}

/// Where members of a class advance alike, the states that a plan reaches are those that it reaches on witnesses.
pub fn witnesses_reach_all<P: Plan>(plan: &P)
    ensures states { let m = P.plan plan.now in
        (s : VectorSet) (r : Partition) (states : List P.State) → Covers s r → MembersAdvanceAlike s r m
        → AreAllReached (Members (witnesses r)) m states → AreAllReached s m states }
    ensures more { let m = P.plan plan.now in
        (s : VectorSet) (r : Partition) (n : ℕ) → Covers s r → MembersAdvanceAlike s r m
        → ReachesMore n (Members (witnesses r)) m ↔ ReachesMore n s m }
{}
