//! Verdicts on plans and on scripts of replies.
ghost use Rattle.std.specs.Prelude.{◌≤◌, length};
ghost use Rattle.running_tests.specs.Alarm.{IsAlarm};

use super::{ALARM, FIRST_DIFFERS, LAST_DIFFERS, Row, plan, suite};
use lin_form::Reply;
use std::alloc::{AllocError, Global};
use std::process::Abort;
use std::test::Fail;
use suite_model::{Scratch, Suite};
use suite_run::{drive, verdict_on_plan};
use test_subject::{PlanSubject, ScriptSubject, Verdict};

fn failed(test: usize, step: usize, given: &[i64]) -> Verdict
    requires { length given.now ≤ 8 }
{
    Verdict::Fail {
        test,
        step,
        given: Reply::from_slice(given),
    }
}

/// The verdict of the suite on the plan of these rows.
fn on_plan(
    rt: &impl Abort,
    alloc: Global,
    suite: &Suite,
    rows: &[Row],
) -> Result<Verdict, AllocError>
    requires { IsAlarm suite.now.signature }
{
    let mut scratch = Scratch::for_suite(alloc, suite)?;
    Ok(verdict_on_plan(suite, plan(rt, alloc, rows)?, &mut scratch))
}

#[test]
fn plans(rt: HostRuntime) -> Result<(), Fail> {
    let cases: [(&[Row], Verdict); 4] = [
        (&ALARM, Verdict::Pass),
        (&FIRST_DIFFERS, failed(1, 1, &[1])),
        (&LAST_DIFFERS, failed(5, 3, &[0])),
        (&[], failed(1, 1, &[])),
    ];
    let suite = suite(&rt, rt.alloc())?;
    for (rows, wanted) in cases {
        let verdict = on_plan(&rt, rt.alloc(), &suite, rows)?;
        assert_eq!(rt; verdict, wanted);
    }
    Ok(())
}

// Each test begins with a reset, whatever state the subject is in.
#[test]
fn from_any_state(rt: HostRuntime) -> Result<(), Fail> {
    let suite = suite(&rt, rt.alloc())?;
    let mut scratch = Scratch::for_suite(rt.alloc(), &suite)?;
    let mut subject = PlanSubject::new(plan(&rt, rt.alloc(), &LAST_DIFFERS)?);
    assert!(rt; drive(&suite, &mut subject, &mut scratch).is_ok());
    assert!(rt; drive(&suite, &mut subject, &mut scratch) == Ok(failed(5, 3, &[0])));
    Ok(())
}

/// Runs the suite on a script with these replies, of whose calls one is bad; there is none with the number 0. A fault is
/// `None`.
fn on_script(
    rt: &impl Abort,
    alloc: Global,
    suite: &Suite,
    numbers: &[i64],
    bad: u64,
) -> Result<Option<Verdict>, AllocError> {
    assert!(rt; bad < 100);
    let mut replies = Vec::new(alloc);
    for number in numbers {
        replies.push(Reply::from_slice(&[*number]))?;
    }
    let mut scratch = Scratch::for_suite(alloc, suite)?;
    let mut subject = ScriptSubject::new(replies, vec![in alloc; bad]?);
    Ok(drive(suite, &mut subject, &mut scratch).ok())
}

#[test]
fn scripts(rt: HostRuntime) -> Result<(), Fail> {
    let whole: [i64; 13] = [0, 0, 0, 0, 1, 0, 0, 1, 1, 1, 1, 1, 1];
    let cases: [(&[i64], u64, Option<Verdict>); 4] = [
        (&whole, 0, Some(Verdict::Pass)),
        (&[0, 1], 0, Some(failed(1, 2, &[1]))),
        (&[0], 0, None),
        (&whole, 2, None),
    ];
    let suite = suite(&rt, rt.alloc())?;
    for (replies, bad, wanted) in cases {
        let verdict = on_script(&rt, rt.alloc(), &suite, replies, bad)?;
        assert!(rt; verdict == wanted);
    }
    Ok(())
}
