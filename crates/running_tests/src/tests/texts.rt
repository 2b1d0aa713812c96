//! The texts of verdicts.
ghost use Rattle.running_tests.specs.Alarm.{IsAlarm};

use super::{ALARM, FIRST_DIFFERS, LAST_DIFFERS, Row, plan, suite};
use std::alloc::{AllocError, Global};
use std::process::Abort;
use std::test::Fail;
use suite_model::{Scratch, Suite};
use suite_run::verdict_on_plan;
use test_world::MemSink;
use verdict_report::write_verdict;

/// The text of the verdict on the plan of these rows.
fn text_of(
    rt: &impl Abort,
    alloc: Global,
    suite: &Suite,
    rows: &[Row],
) -> Result<MemSink, AllocError>
    requires { IsAlarm suite.now.signature }
{
    let mut scratch = Scratch::for_suite(alloc, suite)?;
    let verdict = verdict_on_plan(suite, plan(rt, alloc, rows)?, &mut scratch);
    let mut sink = MemSink::new(alloc, 1_000, Vec::new(alloc), 1_000)?;
    assert!(rt; write_verdict(suite, &verdict, &mut scratch, &mut sink).is_ok());
    Ok(sink)
}

#[test]
fn verdicts(rt: HostRuntime) -> Result<(), Fail> {
    let cases: [(&[Row], &str); 4] = [
        (&ALARM, "pass\n"),
        (
            &FIRST_DIFFERS,
            "fail test 1 step 1\nin 0\nexpected 0\ngot 1\n",
        ),
        (
            &LAST_DIFFERS,
            "fail test 5 step 3\nin 8\nin 8\nin 6\nexpected 1\ngot 0\n",
        ),
        (&[], "fail test 1 step 1\nin 0\nexpected 0\ngot\n"),
    ];
    let suite = suite(&rt, rt.alloc())?;
    for (rows, wanted) in cases {
        let sink = text_of(&rt, rt.alloc(), &suite, rows)?;
        assert_eq!(rt; sink.taken(), wanted.as_bytes());
    }
    Ok(())
}

// Each line is one put: where the second fails, the first line was put.
#[test]
fn a_put_fails(rt: HostRuntime) -> Result<(), Fail> {
    let suite = suite(&rt, rt.alloc())?;
    let mut scratch = Scratch::for_suite(rt.alloc(), &suite)?;
    let plan = plan(&rt, rt.alloc(), &FIRST_DIFFERS)?;
    let verdict = verdict_on_plan(&suite, plan, &mut scratch);
    let bad = vec![in rt.alloc(); 2]?;
    let mut sink = MemSink::new(rt.alloc(), 1_000, bad, 1_000)?;
    assert!(rt; write_verdict(&suite, &verdict, &mut scratch, &mut sink).is_err());
    assert_eq!(rt; sink.taken(), "fail test 1 step 1\n".as_bytes());
    Ok(())
}
