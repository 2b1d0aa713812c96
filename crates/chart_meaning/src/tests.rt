//! Steps of small charts, with replies that were worked out by hand from the meaning of a chart.
ghost use Rattle.std.specs.Prelude.{◌↔◌, IsTrue};
ghost use Rattle.std.specs.List.{All};
ghost use Rattle.lin_form.specs.Signature.{IsInInputRanges};

use crate::ChartPlan;
use crate::charts::{StateRow, Test, TransitionRow, chart};
use chart_model::Place;
use lin_form::{Relation, Reply, Signature, Vector};
use std::alloc::{AllocError, Global};
use std::process::Abort;
use std::test::Fail;
use subject::{Plan, answers};

/// The memory, which the comments call n.
const N: Place = Place::Memory(0);

/// The output, which the comments call o.
const O: Place = Place::Output(0);

/// A chart with its memory's range and initial value, and inputs with the replies that are expected.
#[derive(Clone, Copy)]
struct Case {
    name: &'static str,
    range: (i64, i64, i64),
    states: &'static [StateRow<'static>],
    transitions: &'static [TransitionRow<'static>],
    steps: &'static [(i64, i64)],
}

/// Runs a chart on inputs, and compares each reply.
fn check(rt: &impl Abort, alloc: Global, case: &Case) -> Result<(), AllocError> {
    let chart = chart(rt, alloc, 0, case.range, case.states, case.transitions)?;
    let plan = ChartPlan::new(alloc, chart)?;
    let mut config = plan.start();
    for (number, (input, want)) in case.steps.iter().enumerate() {
        let vector = Vector::from_slice(alloc, &[*input, 0]);
        assert!(rt; plan.chart().signature.inputs.contains(&vector));
        let step = plan.step(&config, &vector);
        assert_eq!(rt;
            step.reply,
            Reply::from_slice(&[*want, 0]),
            "{} at step {number}",
            case.name
        );
        config = step.state;
    }
    Ok(())
}

/// Guards that the first input is this number.
const IS_0: [Test; 1] = [(Relation::Equal, [1, 0], 0, 0)];

const IS_1: [Test; 1] = [(Relation::Equal, [1, 0], 0, -1)];

const IS_2: [Test; 1] = [(Relation::Equal, [1, 0], 0, -2)];

const IS_3: [Test; 1] = [(Relation::Equal, [1, 0], 0, -3)];

const IS_4: [Test; 1] = [(Relation::Equal, [1, 0], 0, -4)];

const IS_5: [Test; 1] = [(Relation::Equal, [1, 0], 0, -5)];

const IS_6: [Test; 1] = [(Relation::Equal, [1, 0], 0, -6)];

const IS_7: [Test; 1] = [(Relation::Equal, [1, 0], 0, -7)];

/// n = n + 1, o = n: the memory stops at the end of its range, and the second action sees the first.
const COUNT: Case = Case {
    name: "count",
    range: (0, 3, 0),
    states: &[(None, true, &[], &[])],
    transitions: &[(0, &[], &[(N, 1, 1), (O, 1, 0)], None, false)],
    steps: &[(0, 1), (0, 2), (0, 3), (0, 3)],
};

/// On at 8 and above, off at 5 and below.
const ALARM: Case = Case {
    name: "alarm",
    range: (0, 0, 0),
    states: &[(None, true, &[], &[]), (None, false, &[], &[])],
    transitions: &[
        (
            0,
            &[(Relation::GreaterOrEqual, [1, 0], 0, -8)],
            &[(O, 0, 1)],
            Some(1),
            false,
        ),
        (
            1,
            &[(Relation::LessOrEqual, [1, 0], 0, -5)],
            &[(O, 0, 0)],
            Some(0),
            false,
        ),
    ],
    steps: &[(3, 0), (8, 1), (6, 1), (5, 0)],
};

/// P holds A and B. The inner transition comes before the outer one; exit, effect and entry come in this order.
const NEST: Case = Case {
    name: "nest",
    range: (0, 0, 0),
    states: &[
        (None, true, &[], &[]),
        (Some(0), true, &[], &[(O, 0, 1)]),
        (Some(0), false, &[(O, 0, 2)], &[]),
        (None, false, &[], &[]),
    ],
    transitions: &[
        (1, &IS_1, &[(O, 0, 5)], Some(2), false),
        (
            0,
            &[(Relation::GreaterOrEqual, [1, 0], 0, 0)],
            &[(O, 0, 9)],
            Some(3),
            false,
        ),
    ],
    steps: &[(1, 2), (1, 9), (0, 9)],
};

/// The first written of several enabled transitions, a guard over the memory, and both ends of the memory's range.
const WRITTEN: Case = Case {
    name: "written",
    range: (-2, 3, 0),
    states: &[(None, true, &[], &[])],
    transitions: &[
        (0, &IS_1, &[(N, 1, 5), (O, 1, 0)], None, false),
        (0, &IS_2, &[(N, 1, -7), (O, 1, 0)], None, false),
        (
            0,
            &[(Relation::Less, [0, 0], 1, 0)],
            &[(O, 0, 8)],
            None,
            false,
        ),
        (0, &[], &[(O, 0, 7)], None, false),
    ],
    steps: &[(0, 7), (1, 3), (0, 7), (2, -2), (0, 8), (1, 3)],
};

/// P holds A and B, and B holds C and D. Exits and entries write a digit to n in base 4, and a leaf's entry shows n.
/// The steps are: clear n; from A to its own parent; clear; to itself; clear; twice without a target; clear; to its
/// sibling's child D, which is no start; nothing; and back.
const TREE: Case = Case {
    name: "tree",
    range: (0, 255, 0),
    states: &[
        (None, true, &[(N, 4, 1)], &[(N, 4, 2)]),
        (Some(0), true, &[(N, 4, 3), (O, 1, 0)], &[(N, 4, 1)]),
        (Some(0), false, &[(N, 4, 1)], &[]),
        (Some(2), true, &[(N, 4, 2), (O, 1, 0)], &[]),
        (Some(2), false, &[(N, 4, 3), (O, 1, 0)], &[]),
    ],
    transitions: &[
        (1, &IS_1, &[], Some(0), false),
        (1, &IS_2, &[(N, 4, 2)], Some(1), false),
        (1, &IS_3, &[], Some(4), false),
        (1, &IS_4, &[(N, 1, 5), (O, 1, 0)], None, false),
        (0, &IS_0, &[(N, 0, 0), (O, 0, 0)], None, false),
        (4, &IS_5, &[], Some(1), false),
    ],
    steps: &[
        (0, 0),
        (1, 103),
        (0, 0),
        (2, 27),
        (0, 0),
        (4, 5),
        (4, 10),
        (0, 0),
        (3, 23),
        (1, 23),
        (5, 95),
    ],
};

/// Q goes back to P, which holds A and B, with history and without.
const HISTORY: Case = Case {
    name: "history",
    range: (0, 0, 0),
    states: &[
        (None, true, &[], &[]),
        (Some(0), true, &[(O, 0, 1)], &[]),
        (Some(0), false, &[(O, 0, 2)], &[]),
        (None, false, &[(O, 0, 9)], &[]),
    ],
    transitions: &[
        (1, &IS_1, &[], Some(2), false),
        (0, &IS_2, &[], Some(3), false),
        (3, &IS_1, &[], Some(0), true),
        (3, &IS_2, &[], Some(0), false),
    ],
    steps: &[
        (0, 1),
        (1, 2),
        (2, 9),
        (1, 2),
        (2, 9),
        (2, 1),
        (2, 9),
        (1, 1),
    ],
};

/// P holds A and B, and B holds C and D; P and B both remember. Q stands apart. The steps are: A; Q; B, which was
/// never left, so C; D; Q; P, whose last child B enters its start child C; D; Q; B, so D; B from inside, so D again;
/// twice P from inside, so B and C; Q; B, which was left with C since.
const NESTED_HISTORY: Case = Case {
    name: "nested history",
    range: (0, 0, 0),
    states: &[
        (None, true, &[], &[]),
        (Some(0), true, &[(O, 0, 1)], &[]),
        (Some(0), false, &[(O, 0, 2)], &[]),
        (Some(2), true, &[(O, 0, 3)], &[]),
        (Some(2), false, &[(O, 0, 4)], &[]),
        (None, false, &[(O, 0, 9)], &[]),
    ],
    transitions: &[
        (3, &IS_2, &[], Some(4), false),
        (0, &IS_3, &[], Some(5), false),
        (5, &IS_4, &[], Some(0), true),
        (5, &IS_5, &[], Some(2), true),
        (0, &IS_6, &[], Some(0), true),
        (2, &IS_7, &[], Some(2), true),
    ],
    steps: &[
        (0, 1),
        (3, 9),
        (5, 3),
        (2, 4),
        (3, 9),
        (4, 3),
        (2, 4),
        (3, 9),
        (5, 4),
        (7, 4),
        (6, 3),
        (6, 3),
        (3, 9),
        (5, 3),
    ],
};

#[test]
fn replies(rt: HostRuntime) -> Result<(), Fail> {
    for case in &[COUNT, ALARM, NEST, WRITTEN, TREE, HISTORY, NESTED_HISTORY] {
        check(&rt, rt.alloc(), case)?;
    }
    Ok(())
}

#[test]
fn configurations_are_compared(rt: HostRuntime) -> Result<(), Fail> {
    let alloc = rt.alloc();
    let chart = chart(
        &rt,
        alloc,
        0,
        WRITTEN.range,
        WRITTEN.states,
        WRITTEN.transitions,
    )?;
    let plan = ChartPlan::new(alloc, chart)?;
    let start = plan.start();
    let low = Vector::from_slice(alloc, &[1, 0]);
    let high = Vector::from_slice(alloc, &[2, 0]);
    assert!(rt; plan.chart().signature.inputs.contains(&low));
    assert!(rt; plan.chart().signature.inputs.contains(&high));
    let up = plan.step(&start, &low).state;
    let down = plan.step(&start, &high).state;
    assert_ne!(rt; up, down);
    assert_eq!(rt; plan.step(&up, &low).state, up);
    Ok(())
}

/// Whether each vector is in the signature's ranges.
fn are_in_ranges(signature: &Signature, word: &[Vector]) -> bool
    ensures { IsTrue result ↔ All (IsInInputRanges signature.now.inputs) word.now }
{
    word.iter().all(|vector| signature.inputs.contains(vector))
}

/// Compares what a plan answers to a case's inputs with the replies that are expected.
fn check_answers<P: Plan>(
    rt: &impl Abort,
    alloc: Global,
    plan: &P,
    case: &Case,
) -> Result<(), AllocError> {
    let mut word = Vec::new(alloc);
    for (input, _) in case.steps {
        word.push(Vector::from_slice(alloc, &[*input, 0]))?;
    }
    assert!(rt; are_in_ranges(plan.signature(), word.as_slice()));
    let replies = answers(alloc, plan, word.as_slice())?;
    assert_eq!(rt; replies.len(), case.steps.len());
    for (reply, (_, want)) in replies.iter().zip(case.steps) {
        assert_eq!(rt; *reply, Reply::from_slice(&[*want, 0]), "{}", case.name);
    }
    Ok(())
}

#[test]
fn answers_of_a_chart(rt: HostRuntime) -> Result<(), Fail> {
    let alloc = rt.alloc();
    for case in &[COUNT, NESTED_HISTORY] {
        let chart = chart(&rt, alloc, 0, case.range, case.states, case.transitions)?;
        check_answers(&rt, alloc, &ChartPlan::new(alloc, chart)?, case)?;
    }
    Ok(())
}
