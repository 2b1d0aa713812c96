//! Machines of charts: how many configurations are reached, and which of them answer alike.
ghost use Rattle.std.specs.Prelude.{IfOk};
ghost use Rattle.fsm_core.specs.Answers.{AllReached};

use super::{
    ALARM, ALARM_FROM_6, HISTORY, MONITOR, ONE, RING_OF_4, RING_OF_5, classes_of, plan_of,
};
use abstract_machine::{ExploreError, Explored, explore};
use reduction::reduce;
use std::alloc::{AllocError, Global};
use std::process::Abort;
use std::test::Fail;

/// A chart, and the numbers of its configurations and of the states of its reduced machine, or none where there are too
/// many configurations.
#[derive(Drop)]
struct Case {
    about: &'static str,
    chart: &'static str,
    sizes: Option<(usize, usize)>,
}

const CASES: [Case; 7] = [
    Case {
        about: "a speed alarm",
        chart: ALARM,
        sizes: Some((2, 2)),
    },
    Case {
        about: "a speed alarm from 6 on",
        chart: ALARM_FROM_6,
        sizes: Some((2, 2)),
    },
    Case {
        about: "a speed monitor",
        chart: MONITOR,
        sizes: Some((4, 3)),
    },
    Case {
        about: "shallow history",
        chart: HISTORY,
        sizes: Some((6, 4)),
    },
    Case {
        about: "one state",
        chart: ONE,
        sizes: Some((1, 1)),
    },
    Case {
        about: "as many as are allowed",
        chart: RING_OF_4,
        sizes: Some((1_024, 1)),
    },
    Case {
        about: "more than are allowed",
        chart: RING_OF_5,
        sizes: None,
    },
];

/// The machine of a chart, or why there is none.
fn explored(
    rt: &impl Abort,
    alloc: Global,
    chart: &str,
) -> Result<Result<Explored, ExploreError>, AllocError>
    ensures { IfOk result (λ found. IfOk found (λ e. AllReached e.fsm)) }
{
    let plan = plan_of(rt, alloc, chart)?;
    let partition = classes_of(rt, alloc, plan.chart())?;
    Ok(explore(alloc, &plan, &partition))
}

/// The numbers of configurations and of states of the reduced machine, or none where there are too many configurations.
fn sizes(
    rt: &impl Abort,
    alloc: Global,
    chart: &str,
) -> Result<Option<(usize, usize)>, AllocError> {
    match explored(rt, alloc, chart)? {
        Ok(found) => {
            let least = reduce(alloc, &found.fsm)?;
            Ok(Some((found.configurations, least.fsm.states())))
        }
        Err(ExploreError::TooManyConfigurations) => Ok(None),
        Err(error) => panic!(rt; "{error:?}"),
    }
}

#[test]
fn configurations_and_states(rt: HostRuntime) -> Result<(), Fail> {
    for case in CASES {
        let found = sizes(&rt, rt.alloc(), case.chart)?;
        assert!(rt; found == case.sizes, "{}", case.about);
    }
    Ok(())
}

// Normal, Over, Warning and Braking are found in this order, and Normal and Over act alike.
#[test]
fn images_of_a_speed_monitor(rt: HostRuntime) -> Result<(), Fail> {
    match explored(&rt, rt.alloc(), MONITOR)? {
        Ok(found) => {
            let least = reduce(rt.alloc(), &found.fsm)?;
            assert_eq!(rt; least.image.as_slice(), [0, 0, 1, 2].as_slice());
        }
        Err(error) => panic!(rt; "{error:?}"),
    }
    Ok(())
}
