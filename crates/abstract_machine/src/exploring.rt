ghost use Rattle.std.specs.Prelude.{◌≡◌, ◌+◌, ◌<◌, length, map, IfOk, IfErr, OnOk};
ghost use Rattle.std.specs.List.{All};
ghost use Rattle.input_classes.specs.declared.class.Class.{Class as ClassValue};
ghost use Rattle.input_classes.specs.Partition.{witnesses};
ghost use Rattle.input_classes.specs.VectorSet.{Members};
ghost use Rattle.lin_form.specs.Signature.{IsInInputRanges, ranges_of};
ghost use Rattle.abstract_machine.specs.Explored.{IsExplored};
ghost use Rattle.abstract_machine.specs.Reached.{ReachesMore};
ghost use Rattle.abstract_machine.specs.inside.Exploring.{IsExploring};

use crate::ExploreError;
use crate::branches::Branches;
use crate::numbering::{Recent, number_of};
use crate::stepping::{Lately, step_numbers};
use class_split::{Class, Partition};
use fsm_core::{Fsm, Rows};
use indexmap::IndexSet;
use lin_form::Reply;
use std::alloc::Global;
use subject::Plan;

/// A plan's machine and the number of states that the plan reaches on the witnesses.
#[derive(Drop)]
pub struct Explored {
    pub fsm: Fsm,
    pub configurations: usize,
}

/// The machine of a plan, by breadth-first search over its states: the letter `a` is the class `a`, and stands for its
/// witness.
pub fn explore<P: Plan>(
    alloc: Global,
    plan: &P,
    partition: &Partition,
) -> Result<Explored, ExploreError>
    requires ranges { partition.now.ranges ≡ ranges_of (P.plan plan.now).signature.inputs }
    ensures explored { IfOk result (λ r. IsExplored (witnesses partition.now) (P.plan plan.now) r.fsm) }
    ensures configurations { IfOk result (λ r. r.configurations ≡ r.fsm.states) }

    // More than 1,024 states are reached exactly where the answer says so, want of memory aside.
    ensures few { OnOk result (ReachesMore 1024 (Members (witnesses partition.now)) (P.plan plan.now) → ⊥) }
    ensures many { IfErr result (λ e. e ≡ ExploreError.TooManyConfigurations
        → ReachesMore 1024 (Members (witnesses partition.now)) (P.plan plan.now)) }
{
    let classes = partition.classes();
    let mut states = IndexSet::new(alloc);
    let mut replies = IndexSet::new(alloc);
    let mut rows = Rows::with_capacity(alloc, classes.len())?;
    let _start = number_of(&mut states, &plan.begin(), &mut Recent::new(0))?;
    let mut at = 0;
    let mut branches = Branches::new(alloc);
    while at < states.len() {
        expand(
            plan,
            classes,
            at,
            &mut states,
            &mut replies,
            &mut rows,
            &mut branches,
        )?;
        at += 1;
    }
    let configurations = states.len();
    let replies = Vec::from_slice(alloc, replies.as_slice())?;
    let fsm = Fsm::from_rows(classes.len(), rows, replies);
    Ok(Explored {
        fsm,
        configurations,
    })
}

/// Makes the rows of the state at a place, and enters the states and replies to which the letters lead. A step is made once
/// for each of the branches that the plan tells.
fn expand<P: Plan>(
    plan: &P,
    classes: &[Class],
    at: usize,
    states: &mut IndexSet<P::State>,
    replies: &mut IndexSet<Reply>,
    rows: &mut Rows,
    branches: &mut Branches,
) -> Result<(), ExploreError>
    requires vectors { All (λ (c : ClassValue). IsInInputRanges (P.plan plan.now).signature.inputs c.witness) classes.now }
    requires at { at < length states.old.keys }
    requires exploring { IsExploring (map (λ (c : ClassValue). c.witness) classes.now) (P.plan plan.now)
        states.old.keys replies.old.keys rows.old at 0 }
    ensures exploring { OnOk result (IsExploring (map (λ (c : ClassValue). c.witness) classes.now) (P.plan plan.now)
        states.new.keys replies.new.keys rows.new (at + 1) 0) }
    ensures many { IfErr result (λ e. e ≡ ExploreError.TooManyConfigurations
        → ReachesMore 1024 (Members (map (λ (c : ClassValue). c.witness) classes.now)) (P.plan plan.now)) }
{
    let state = states.as_slice()[at];
    let mut lately = Lately {
        states: Recent::new(at),
        replies: Recent::new(0),
    };
    branches.clear();
    for class in classes {
        let step = step_numbers(
            plan,
            &state,
            &class.witness,
            states,
            replies,
            branches,
            &mut lately,
        )?;
        rows.push(step.0, step.1)?;
    }
    Ok(())
}
