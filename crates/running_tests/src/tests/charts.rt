//! Verdicts on charts that have a memory, history and an assumption of their own, which the suite's alarm has not.
ghost use Rattle.std.specs.Prelude.{IfOk};
ghost use Rattle.subject.specs.Domain.{IsFitting};

use super::suite;
use chart_meaning::ChartPlan;
use chart_syntax::read_chart;
use impl_table::fits;
use lin_form::Reply;
use std::alloc::{AllocError, Global};
use std::process::Abort;
use std::test::Fail;
use suite_model::{Scratch, Suite};
use suite_run::{verdict_by_words, verdict_on_plan};
use test_subject::Verdict;

/// The alarm. It waits between the limits, and then goes on as it was.
const RIGHT: &str =
    "chart 3\ninput v 0 10\nassume v <= 7\noutput alarm 0\nmemory m 0 1 0\nstate Watch start\nstate Low in Watch start\nstate High in Watch\nstate Held\nentry Low do alarm = 0, m = 0\nentry High do alarm = 1, m = 1\non Low when v + m >= 8 go High\non High when v <= 4 + m go Low\non High when v <= 7 go Held\non Held when v <= 5 go Low\non Held go Watch history\n";

/// The same without history: after it waited, it begins anew.
const BEGINS_ANEW: &str =
    "chart 3\ninput v 0 10\nassume v <= 7\noutput alarm 0\nmemory m 0 1 0\nstate Watch start\nstate Low in Watch start\nstate High in Watch\nstate Held\nentry Low do alarm = 0, m = 0\nentry High do alarm = 1, m = 1\non Low when v + m >= 8 go High\non High when v <= 4 + m go Low\non High when v <= 7 go Held\non Held when v <= 5 go Low\non Held go Watch\n";

/// The same where the memory is counted from another number, so that the alarm ends too early.
const ENDS_EARLY: &str =
    "chart 3\ninput v 0 10\nassume v <= 7\noutput alarm 0\nmemory m 0 1 0\nstate Watch start\nstate Low in Watch start\nstate High in Watch\nstate Held\nentry Low do alarm = 0, m = 0\nentry High do alarm = 1, m = 1\non Low when v + m >= 8 go High\non High when v <= 5 + m go Low\non High when v <= 7 go Held\non Held when v <= 5 go Low\non Held go Watch history\n";

/// The plan of a chart's text, which fits the suite.
fn plan_of(
    rt: &impl Abort,
    alloc: Global,
    suite: &Suite,
    text: &str,
) -> Result<ChartPlan, AllocError>
    ensures { IfOk result (λ plan. IsFitting suite.now.signature plan.signature) }
{
    let chart = match read_chart(alloc, text.as_bytes()) {
        Ok(chart) => chart,
        Err(error) => panic!(rt; "{error:?}"),
    };
    match fits(suite.signature(), &chart.signature) {
        Ok(()) => ChartPlan::new(alloc, chart),
        Err(unfit) => panic!(rt; "{unfit:?}"),
    }
}

/// The verdicts on a chart, test by test and by one walk over the words.
fn on_chart(
    rt: &impl Abort,
    alloc: Global,
    suite: &Suite,
    text: &str,
) -> Result<(Verdict, Verdict), AllocError> {
    let mut scratch = Scratch::for_suite(alloc, suite)?;
    let by_tests = verdict_on_plan(suite, plan_of(rt, alloc, suite, text)?, &mut scratch);
    let plan = plan_of(rt, alloc, suite, text)?;
    let by_words = verdict_by_words(alloc, suite, plan, &mut scratch);
    Ok((by_tests, by_words))
}

#[test]
fn charts(rt: HostRuntime) -> Result<(), Fail> {
    let low = Reply::from_slice(&[0]);
    let cases: [(&str, Verdict); 3] = [
        (RIGHT, Verdict::Pass),
        (
            BEGINS_ANEW,
            Verdict::Fail {
                test: 4,
                step: 3,
                given: low,
            },
        ),
        (
            ENDS_EARLY,
            Verdict::Fail {
                test: 4,
                step: 2,
                given: low,
            },
        ),
    ];
    let suite = suite(&rt, rt.alloc())?;
    for (text, wanted) in cases {
        let (by_tests, by_words) = on_chart(&rt, rt.alloc(), &suite, text)?;
        assert_eq!(rt; by_tests, wanted);
        assert_eq!(rt; by_words, wanted);
    }
    Ok(())
}
