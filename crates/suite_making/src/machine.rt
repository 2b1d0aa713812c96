ghost use Rattle.std.specs.Prelude.{◌≡◌, IfOk, IfErr, OnOk};
ghost use Rattle.input_classes.specs.Partition.{witnesses};
ghost use Rattle.input_classes.specs.VectorSet.{Members};
ghost use Rattle.lin_form.specs.Signature.{ranges_of};
ghost use Rattle.abstract_machine.specs.Abstraction.{IsAbstractionOf};
ghost use Rattle.abstract_machine.specs.Reached.{ReachesExactly, ReachesMore};
ghost use Rattle.suite_making.specs.inside.Refusals.{IsMachineRefused};

use crate::MakeError;
use abstract_machine::{ExploreError, explore};
use class_split::Partition;
use fsm_core::Fsm;
use reduction::reduce;
use std::alloc::Global;
use subject::Plan;

/// The reduced machine of a plan, whose letters are the classes, and how many states the plan reaches on the witnesses.
#[derive(Drop)]
pub struct Abstracted {
    pub fsm: Fsm,
    pub configurations: usize,
}

/// The reduced machine of a plan.
pub fn machine_of<P: Plan>(
    alloc: Global,
    plan: &P,
    partition: &Partition,
) -> Result<Abstracted, MakeError>
    requires ranges { partition.now.ranges ≡ ranges_of (P.plan plan.now).signature.inputs }
    ensures machine { IfOk result (λ a. IsAbstractionOf partition.now (P.plan plan.now) a.fsm) }
    ensures configurations { IfOk result (λ a. ReachesExactly a.configurations (Members (witnesses partition.now))
        (P.plan plan.now)) }
    ensures few { OnOk result (ReachesMore 1024 (Members (witnesses partition.now)) (P.plan plan.now) → ⊥) }
    ensures refused { IfErr result (IsMachineRefused (P.plan plan.now) partition.now) }
{
    match explore(alloc, plan, partition) {
        Ok(explored) => {
            let reduced = reduce(alloc, &explored.fsm)?;
            Ok(Abstracted {
                fsm: reduced.fsm,
                configurations: explored.configurations,
            })
        }
        Err(ExploreError::TooManyConfigurations) => Err(MakeError::TooManyConfigurations),
        Err(ExploreError::Memory) => Err(MakeError::Memory),
    }
}
