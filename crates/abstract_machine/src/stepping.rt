ghost use Rattle.std.specs.Prelude.{◌≡◌, ◌≤◌, length, IfOk, IfErr, OnOk};
ghost use Rattle.lin_form.specs.Signature.{IsInInputRanges};
ghost use Rattle.subject.specs.Meaning.{IsReached};
ghost use Rattle.abstract_machine.specs.inside.Branches.{AreStepsOn, IsPast, IsStep};

use crate::ExploreError;
use crate::branches::Branches;
use crate::numbering::{Recent, number_of};
use indexmap::IndexSet;
use lin_form::{Reply, Vector};
use subject::Plan;

/// The places of states and of replies that were found lately.
#[derive(Clone, Copy)]
pub struct Lately {
    pub states: Recent,
    pub replies: Recent,
}

/// The numbers of the state to which a step leads and of its reply. Where a step of its branch is noted, no step is made.
pub fn step_numbers<P: Plan>(
    plan: &P,
    state: &P::State,
    input: &Vector,
    states: &mut IndexSet<P::State>,
    replies: &mut IndexSet<Reply>,
    branches: &mut Branches,
    lately: &mut Lately,
) -> Result<(usize, usize), ExploreError>
    requires fits { IsInInputRanges (P.plan plan.now).signature.inputs input.now }
    requires reached { IsReached (P.plan plan.now) state.now }
    requires few { length states.old.keys ≤ 1024 }
    requires noted { AreStepsOn (P.plan plan.now) (P.branches plan.now) states.old.keys replies.old.keys state.now branches.old }
    ensures step { IfOk result (IsStep (P.plan plan.now) states.old.keys replies.old.keys state.now input.now
        states.new.keys replies.new.keys) }
    ensures noted { OnOk result (AreStepsOn (P.plan plan.now) (P.branches plan.now) states.new.keys replies.new.keys
        state.now branches.new) }
    ensures many { IfErr result (λ e. e ≡ ExploreError.TooManyConfigurations
        → IsPast P.State.eq states.old.keys ((P.plan plan.now).next state.now input.now) states.new.keys) }
{
    let branch = plan.branch(state, input);
    let Some(number) = branch else {
        return made_step(plan, state, input, states, replies, lately);
    };
    if let Some(step) = branches.step(number) {
        return Ok(step);
    }
    let step = made_step(plan, state, input, states, replies, lately)?;
    branches.note(number, step)?;
    Ok(step)
}

/// The numbers of the state to which a step leads and of its reply, by the step itself.
fn made_step<P: Plan>(
    plan: &P,
    state: &P::State,
    input: &Vector,
    states: &mut IndexSet<P::State>,
    replies: &mut IndexSet<Reply>,
    lately: &mut Lately,
) -> Result<(usize, usize), ExploreError>
    requires fits { IsInInputRanges (P.plan plan.now).signature.inputs input.now }
    requires reached { IsReached (P.plan plan.now) state.now }
    ensures step { IfOk result (IsStep (P.plan plan.now) states.old.keys replies.old.keys state.now input.now
        states.new.keys replies.new.keys) }
    ensures many { IfErr result (λ e. e ≡ ExploreError.TooManyConfigurations
        → IsPast P.State.eq states.old.keys ((P.plan plan.now).next state.now input.now) states.new.keys) }
{
    let step = plan.advance(state, input);
    let next = number_of(states, &step.state, &mut lately.states)?;
    if next >= 1024 {
        return Err(ExploreError::TooManyConfigurations);
    }
    let reply = number_of(replies, &step.reply, &mut lately.replies)?;
    Ok((next, reply))
}
