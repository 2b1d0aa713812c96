ghost use Rattle.std.specs.Prelude.{◌≡◌, ◌≤◌, IfOk, IfErr, OnOk};
ghost use Rattle.input_classes.specs.Partition.{witnesses};
ghost use Rattle.input_classes.specs.VectorSet.{Members};
ghost use Rattle.lin_form.specs.Signature.{ranges_of};
ghost use Rattle.subject.specs.Alike.{MembersActAlike};
ghost use Rattle.subject.specs.Domain.{Complete, box};
ghost use Rattle.subject.specs.Meaning.{RepliesFit};
ghost use Rattle.subject.specs.Shape.{HasShape};
ghost use Rattle.subject.specs.Suite.{tests_of};
ghost use Rattle.abstract_machine.specs.Abstraction.{IsAbstractionOf};
ghost use Rattle.abstract_machine.specs.Reached.{ReachesExactly, ReachesMore};
ghost use Rattle.suite_making.specs.Making.{IsAllowed, IsRefused, IsLeastAllowed, IsLeastRefused};

use crate::MakeError;
use crate::machine::machine_of;
use crate::words::words_of;
use class_split::Partition;
use concretise::concrete;
use fsm_core::Fsm;
use std::alloc::Global;
use subject::Plan;
use suite_model::Suite;
use word_pool::Pool;

/// The suite of the W-method (Chow 1978) for a plan, a partition of its inputs and a bound of at most 1,024 states: a
/// test's letters stand for the witnesses of the classes, and its replies are the plan's (Huang and Peleska).
///
/// Where members of a class act alike in the plan, its tests are complete for the plan, the partition and the bound.
/// Of the errors the first stands whose cause is there: too many states, a bound below the plan's number of states,
/// which counts states that answer alike as one, or too many steps.
pub fn make_suite<P: Plan>(
    alloc: Global,
    plan: &P,
    partition: &Partition,
    bound: usize,
) -> Result<Suite, MakeError>
    requires ranges { partition.now.ranges ≡ ranges_of (P.plan plan.now).signature.inputs }
    requires bound { bound ≤ 1024 }
    requires replies { RepliesFit (P.plan plan.now) }
    requires alike { MembersActAlike (box (P.plan plan.now) partition.now) partition.now (P.plan plan.now) }

    // An error's cause is there, and where a suite is made, none is: so each stands exactly where it should, want of
    // memory aside.
    ensures refused { IfErr result (IsRefused (P.plan plan.now) partition.now bound) }
    ensures allowed { OnOk result (IsAllowed (P.plan plan.now) partition.now bound) }
    ensures shape { IfOk result (λ s. HasShape (P.plan plan.now) partition.now bound s) }
    ensures complete { IfOk result (λ s. Complete (P.plan plan.now) partition.now bound (tests_of s)) }
{
    let found = machine_of(alloc, plan, partition)?;
    suite_of(alloc, plan, partition, &found.fsm, bound)
}

// The suite for a plan's reduced machine.
fn suite_of<P: Plan>(
    alloc: Global,
    plan: &P,
    partition: &Partition,
    fsm: &Fsm,
    bound: usize,
) -> Result<Suite, MakeError>
    requires ranges { partition.now.ranges ≡ ranges_of (P.plan plan.now).signature.inputs }
    requires bound { bound ≤ 1024 }
    requires replies { RepliesFit (P.plan plan.now) }
    requires alike { MembersActAlike (box (P.plan plan.now) partition.now) partition.now (P.plan plan.now) }
    requires machine { IsAbstractionOf partition.now (P.plan plan.now) fsm.now }
    requires few { ReachesMore 1024 (Members (witnesses partition.now)) (P.plan plan.now) → ⊥ }
    ensures refused { IfErr result (IsRefused (P.plan plan.now) partition.now bound) }
    ensures allowed { OnOk result (IsAllowed (P.plan plan.now) partition.now bound) }
    ensures shape { IfOk result (λ s. HasShape (P.plan plan.now) partition.now bound s) }
    ensures complete { IfOk result (λ s. Complete (P.plan plan.now) partition.now bound (tests_of s)) }
{
    let _classes = partition.classes();
    let mut pool = Pool::new(alloc)?;
    let letters = words_of(alloc, fsm, bound, &mut pool)?;
    let suite = concrete(alloc, letters, pool, partition, plan)?;
    Ok(suite)
}

/// A suite for the least bound, and how many states its plan reaches on the witnesses.
#[derive(Drop)]
pub struct LeastSuite {
    pub suite: Suite,
    pub configurations: usize,
}

/// The suite of the W-method for a plan, a partition and the least bound for which there is one: the plan's number of
/// states, which counts states that answer alike as one.
///
/// Of the errors the first stands whose cause is there: too many states, or too many steps.
pub fn make_least_suite<P: Plan>(
    alloc: Global,
    plan: &P,
    partition: &Partition,
) -> Result<LeastSuite, MakeError>
    requires ranges { partition.now.ranges ≡ ranges_of (P.plan plan.now).signature.inputs }
    requires replies { RepliesFit (P.plan plan.now) }
    requires alike { MembersActAlike (box (P.plan plan.now) partition.now) partition.now (P.plan plan.now) }
    ensures refused { IfErr result (IsLeastRefused (P.plan plan.now) partition.now) }
    ensures allowed { OnOk result (IsLeastAllowed (P.plan plan.now) partition.now) }
    ensures shape { IfOk result (λ l. HasShape (P.plan plan.now) partition.now l.suite.states l.suite) }
    ensures complete { IfOk result (λ l. Complete (P.plan plan.now) partition.now l.suite.states (tests_of l.suite)) }
    ensures configurations { IfOk result (λ l. ReachesExactly l.configurations (Members (witnesses partition.now))
        (P.plan plan.now)) }
{
    let _classes = partition.classes();
    let found = machine_of(alloc, plan, partition)?;
    let bound = found.fsm.states();
    let suite = suite_of(alloc, plan, partition, &found.fsm, bound)?;
    Ok(LeastSuite {
        suite,
        configurations: found.configurations,
    })
}
