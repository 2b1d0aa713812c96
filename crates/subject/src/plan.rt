ghost use Rattle.std.specs.Prelude.{◌≡◌, true, IfSome, Some};
ghost use Rattle.lin_form.specs.Signature.{IsInInputRanges};
ghost use Rattle.subject.specs.Meaning.{Branches, IsBranchOf, IsReached, Meaning, no_branches};

use crate::Step;
use lin_form::{Signature, Vector};
use std::hash::Hash;

/// A deterministic input-output system: a signature, a start, and for each state and each vector of the signature's
/// ranges a next state and a reply. None of its calls takes memory or fails.
pub trait Plan {
    type State: Copy + Eq + Hash;

    ghost plan: { Self → Meaning Self.State };

    ghost branches: { Self → Branches Self.State } = { λ _. no_branches };

    /// The inputs with their ranges, and the outputs.
    fn signature(&self) -> &Signature
        ensures { result.now ≡ (plan self.now).signature };

    /// The start.
    fn begin(&self) -> Self::State
        ensures { result ≡ (plan self.now).start };

    /// One step from a state that is reached from the start, for a vector with one number per input, each in its
    /// input's range.
    fn advance(&self, state: &Self::State, input: &Vector) -> Step<Self::State>
        requires fits { IsInInputRanges (plan self.now).signature.inputs input.now }
        requires reached { IsReached (plan self.now) state.now }
        ensures state { result.state ≡ (plan self.now).next state.now input.now }
        ensures reply { result.reply ≡ (plan self.now).reply state.now input.now };

    /// The number of the branch that a step takes, if it is told: inputs on which a state's steps take the same branch
    /// lead from it to the same state with the same reply. So one step tells them all.
    fn branch(&self, state: &Self::State, input: &Vector) -> Option<usize>
        requires fits { IsInInputRanges (plan self.now).signature.inputs input.now }
        requires reached { IsReached (plan self.now) state.now }
        ensures told { IfSome result (λ k. branches self.now state.now input.now ≡ Some k) }
        ensures alike { IfSome result (λ k. IsBranchOf (plan self.now) (branches self.now) state.now k) }
    {
        None
    }

    ghost same: { (x y : Self.State) → Self.State.eq x y ≡ true → x ≡ y };
}
