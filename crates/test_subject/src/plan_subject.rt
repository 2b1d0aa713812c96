//! A plan as a system under test.
ghost use Rattle.std.specs.Prelude.{◌≡◌};
ghost use Rattle.subject.specs.Meaning.{IsReached};
ghost use Rattle.test_subject.specs.Subject.{plan_in};

use crate::Subject;
use lin_form::{Reply, Vector};
use subject::{Plan, reaching};
use test_world::Fault;

/// A plan that is run. It tells its plan, and neither what comes nor what was sent. None of its calls fails or takes memory.
#[derive(Drop)]
pub struct PlanSubject<P: Plan> {
    plan: P,
    state: P::State,
    ghost reached: { IsReached (P.plan plan) state },
}

impl<P: Plan> PlanSubject<P> {
    /// The plan in its start.
    pub fn new(plan: P) -> PlanSubject<P>
        ensures { ⟦<PlanSubject<P> as Subject>⟧.state result ≡ plan_in (P.plan plan) (P.plan plan).start }
    {
        let state = plan.begin();
        PlanSubject { plan, state }
    }
}

impl<P: Plan> Subject for PlanSubject<P> {
    ghost use Rattle.subject.proofs.CallerLemmas.{length-answer_from};

    ghost state = { λ s. plan_in (P.plan s.plan) s.state };

    ghost follows = { λ a b. Unit {0} };

    fn reset(&mut self) -> Result<(), Fault> {
        self.state = self.plan.begin();
        Ok(())
    }

    fn step(&mut self, input: &Vector) -> Result<Reply, Fault> {
        reaching(&self.plan);
        let step = self.plan.advance(&self.state, input);
        self.state = step.state;
        Ok(step.reply)
    }

    ghost one_each = { λ s told. length-answer_from (P.plan s.plan) s.state };

    ghost follows_itself = { λ s. tt };

    ghost follows_along = { λ a b c p q. tt };
}
