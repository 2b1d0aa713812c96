//! Running the tests of a suite.
ghost use Rattle.std.specs.Prelude.{◌≡◌, ◌≢◌, ◌+◌, ◌<◌, ◌^◌, length, slice_get, take, Some, IfOk, MatchBool, MatchResult, OnErr};
ghost use Rattle.std.specs.Option.{ForSome};
ghost use Rattle.test_world.specs.Count.{Rose};
ghost use Rattle.subject.specs.Domain.{IsFitting};
ghost use Rattle.subject.specs.Meaning.{answer};
ghost use Rattle.subject.specs.Suite.{Test, test_case, tests_of};
ghost use Rattle.suite_model.specs.Scratch.{IsMadeFor, HasTest};
ghost use Rattle.test_subject.specs.Subject.{Keeps, Fits, Gives, Sends, SendsBy, SendsPrefix};
ghost use Rattle.test_subject.specs.Verdict.{IsVerdict, NamesDifference};
ghost use Rattle.test_subject.specs.declared.verdict.Verdict.TheVariants.{Fail};
ghost use Rattle.test_subject.specs.Exchange.{turns, lines, lines_to, replies_to, exchange};
ghost use Rattle.suite_run.specs.inside.Running.{Tries};

use lin_form::Reply;
use plan_replies::gives_expected;
use std::alloc::Global;
use subject::Plan;
use suite_model::{Scratch, Suite, suite_keeps_rules};
use test_subject::{PlanSubject, Subject, Verdict};
use test_world::Fault;

/// The first step of a test, counted from 0, whose reply differs from the expected one, and that reply.
#[derive(Clone, Copy)]
pub struct Difference {
    pub step: usize,
    pub given: Reply,
}

/// Whether the replies differ.
fn differ(given: &Reply, expected: &Reply) -> bool
    ensures { MatchBool result (given.now ≢ expected.now) (given.now ≡ expected.now) }
{
    !(*given == *expected)
}

/// Runs a test, whose letters and replies the scratch holds, up to the first reply that differs.
fn run_test<S: Subject>(
    suite: &Suite,
    test: usize,
    count: usize,
    subject: &mut S,
    scratch: &Scratch,
) -> Result<Option<Difference>, Fault>
    requires test { test < length suite.now.tests }
    requires made { IsMadeFor suite.now scratch.now }
    requires held { (t : Test) → slice_get suite.now.tests test ≡ Some t → HasTest t count scratch.now }
    requires fits { Fits suite.now.signature (S.state subject.old) }
    ensures keeps { Keeps (S.state subject.old) (S.state subject.new) }
    ensures tries { (t : Test) → slice_get suite.now.tests test ≡ Some t
        → Tries (S.state subject.old) (S.state subject.new) (test_case suite.now.classes t) result }
    ensures fault { OnErr result (Rose (S.state subject.old).faults (S.state subject.new).faults) }
    ensures follows { S.follows subject.old subject.new }
{
    suite_keeps_rules(suite);
    match subject.reset() {
        Ok(()) => {}
        Err(fault) => return Err(fault),
    }
    for step in 0..count {
        let letter = scratch.letter(step) as usize;
        let given = match subject.step(&suite.classes()[letter]) {
            Ok(given) => given,
            Err(fault) => return Err(fault),
        };
        if differ(&given, scratch.expected(step)) {
            return Ok(Some(Difference { step, given }));
        }
    }
    Ok(None)
}

/// The verdict that names a difference in a test, counted from 0.
fn failed(test: usize, difference: Difference) -> Verdict
    requires test { test + 1 < 2 ^ 64 }
    requires step { difference.step + 1 < 2 ^ 64 }
    ensures { result ≡ Fail (test + 1) (difference.step + 1) difference.given }
{
    Verdict::Fail {
        test: test + 1,
        step: difference.step + 1,
        given: difference.given,
    }
}

/// Resets the subject before each test of the suite and steps it through the test's witnesses, up to the first reply that
/// differs from the expected one. It takes no memory.
pub fn drive<S: Subject>(
    suite: &Suite,
    subject: &mut S,
    scratch: &mut Scratch,
) -> Result<Verdict, Fault>
    requires made { IsMadeFor suite.now scratch.old }
    requires fits { Fits suite.now.signature (S.state subject.old) }
    ensures verdict { IfOk result (λ v. ForSome (S.state subject.old).plan (λ plan.
        IsVerdict plan.answers (tests_of suite.now) v)) }
    ensures differs { IfOk result (λ v. NamesDifference (tests_of suite.now) v) }
    ensures coming { IfOk result (λ v.
        Gives (S.state subject.old) (S.state subject.new) (replies_to (tests_of suite.now) v)) }
    ensures sent { MatchResult result
        (λ v. Sends (S.state subject.old) (S.state subject.new) (lines_to (tests_of suite.now) v))
        (λ _. SendsPrefix (S.state subject.old) (S.state subject.new) (lines (turns (tests_of suite.now)))) }
    ensures stops { ForSome (S.state subject.old).coming (λ coming.
        SendsBy (S.state subject.old) (S.state subject.new) (exchange (turns (tests_of suite.now)) coming) result) }
    ensures keeps { Keeps (S.state subject.old) (S.state subject.new) }
    ensures fault { OnErr result (Rose (S.state subject.old).faults (S.state subject.new).faults) }
    ensures follows { S.follows subject.old subject.new }
    ensures made { IsMadeFor suite.now scratch.new }
{
    suite_keeps_rules(suite);
    for test in 0..suite.tests() {
        let count = suite.put_test(test, scratch);
        let difference = match run_test(suite, test, count, subject, scratch) {
            Ok(difference) => difference,
            Err(fault) => return Err(fault),
        };
        match difference {
            None => {}
            Some(difference) => return Ok(failed(test, difference)),
        }
    }
    Ok(Verdict::Pass)
}

/// The verdict on a plan, which cannot fail to reply. It takes no memory.
pub fn verdict_on_plan<P: Plan + Drop>(suite: &Suite, plan: P, scratch: &mut Scratch) -> Verdict
    requires made { IsMadeFor suite.now scratch.old }
    requires fits { IsFitting suite.now.signature (P.plan plan).signature }
    ensures verdict { IsVerdict (answer (P.plan plan)) (tests_of suite.now) result }
    ensures differs { NamesDifference (tests_of suite.now) result }
    ensures made { IsMadeFor suite.now scratch.new }
{
    let mut subject = PlanSubject::new(plan);
    match drive(suite, &mut subject, scratch) {
        Ok(verdict) => verdict,
        Err(_) => unreachable!(),
    }
}

/// The verdict on a plan. Where the plan gives the expected reply to each word of the suite, one walk over these words
/// tells it, and no test is run. The walk takes memory; where there is none, the tests are run.
pub fn verdict_by_words<P: Plan + Drop>(
    alloc: Global,
    suite: &Suite,
    plan: P,
    scratch: &mut Scratch,
) -> Verdict
    requires made { IsMadeFor suite.now scratch.old }
    requires fits { IsFitting suite.now.signature (P.plan plan).signature }
    ensures verdict { IsVerdict (answer (P.plan plan)) (tests_of suite.now) result }
    ensures differs { NamesDifference (tests_of suite.now) result }
    ensures made { IsMadeFor suite.now scratch.new }
{
    match gives_expected(alloc, suite, &plan) {
        Ok(true) => Verdict::Pass,
        _ => verdict_on_plan(suite, plan, scratch),
    }
}
