//! Systems under test.
ghost use Rattle.std.specs.Prelude.{◌≡◌, [], ◌∷◌, IfOk, IsSome, OnErr, OnOk};
ghost use Rattle.test_world.specs.Count.{Rose};
ghost use Rattle.test_subject.specs.Subject.{SubjectState, Keeps, AnswersEach, IsAtStart, MayTake, Moves, Gives, SendsBy};
ghost use Rattle.test_subject.specs.Subject.{reset_line, in_line};

use lin_form::{Reply, Vector};
use test_world::Fault;

/// A system under test is brought to its start, and then replies to one input vector after another.
pub trait Subject {
    // What it tells, and its faults.
    ghost state: { Self → SubjectState };

    // The second is the first as it is now or later.
    ghost follows: { Self → Self → Type 0 };

    /// Brings the subject to its start, also after a fault.
    fn reset(&mut self) -> Result<(), Fault>
        ensures keeps { Keeps (state self.old) (state self.new) }
        ensures start { OnOk result (IsAtStart (state self.new)) }
        ensures coming { OnOk result (Gives (state self.old) (state self.new) []) }
        ensures sent { SendsBy (state self.old) (state self.new) reset_line result }
        ensures fault { OnErr result (Rose (state self.old).faults (state self.new).faults) }
        ensures follows { follows self.old self.new };

    /// Takes an input vector, with one number per input, each in its input's range where a plan is told, and replies.
    fn step(&mut self, input: &Vector) -> Result<Reply, Fault>
        requires { MayTake (state self.old) input.now }
        ensures keeps { Keeps (state self.old) (state self.new) }
        ensures moves { IfOk result (λ reply. Moves (state self.old) (state self.new) input.now reply) }
        ensures coming { IfOk result (λ reply. Gives (state self.old) (state self.new) (reply ∷ [])) }
        ensures sent { SendsBy (state self.old) (state self.new) (in_line input.now) result }
        ensures fault { OnErr result (Rose (state self.old).faults (state self.new).faults) }
        ensures follows { follows self.old self.new };

    ghost one_each: { (s : Self) → IsSome (state s).plan → AnswersEach (state s).here };

    ghost follows_itself: { (s : Self) → follows s s };

    ghost follows_along: { (a b c : Self) → follows a b → follows b c → follows a c };
}
