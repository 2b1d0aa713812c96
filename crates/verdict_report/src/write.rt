//! Writing a verdict.
ghost use Rattle.std.specs.Prelude.{◌≡◌, ◌<◌, ◌≤◌, length, take, slice_get, Some};
ghost use Rattle.std.specs.List.{flat_map};
ghost use Rattle.test_world.specs.Sink.{Puts};
ghost use Rattle.subject.specs.Suite.{Test, in_vectors, tests_of};
ghost use Rattle.suite_model.specs.Scratch.{IsMadeFor};
ghost use Rattle.test_subject.specs.Subject.{in_line};
ghost use Rattle.test_subject.specs.Verdict.{IsStep, NamesStep};
ghost use Rattle.test_subject.specs.declared.verdict.Verdict.TheVariants.{Fail};
ghost use Rattle.verdict_report.specs.Text.{verdict_text};

use crate::line::{set_fail, set_numbers};
use lin_form::Reply;
use suite_model::{Scratch, Suite, suite_keeps_rules};
use test_subject::Verdict;
use test_world::{Fault, Sink, put_all};

/// Puts the lines of the inputs of a test, counted from 0, up to a number of steps.
fn put_inputs<K: Sink>(
    suite: &Suite,
    test: usize,
    steps: usize,
    scratch: &mut Scratch,
    out: &mut K,
) -> Result<(), Fault>
    requires test { test < length suite.now.tests }
    requires steps { (t : Test) → slice_get suite.now.tests test ≡ Some t → steps ≤ length t.letters }
    requires made { IsMadeFor suite.now scratch.old }
    ensures puts { (t : Test) → slice_get suite.now.tests test ≡ Some t → Puts (K.state out.old) (K.state out.new)
        (flat_map in_line (take steps (in_vectors suite.now.classes t.letters))) result }
    ensures made { IsMadeFor suite.now scratch.new }
{
    suite_keeps_rules(suite);
    let _count = suite.test_letters(test, scratch);
    for step in 0..steps {
        let letter = scratch.letter(step) as usize;
        set_numbers(scratch, b"in", suite.classes()[letter].as_slice());
        match put_all(out, scratch.line()) {
            Ok(()) => {}
            Err(fault) => return Err(fault),
        }
    }
    Ok(())
}

/// Puts the lines of a failure, whose test and step count from 1.
fn put_failure<K: Sink>(
    suite: &Suite,
    test: usize,
    step: usize,
    given: &Reply,
    scratch: &mut Scratch,
    out: &mut K,
) -> Result<(), Fault>
    requires step { IsStep (tests_of suite.now) test step }
    requires made { IsMadeFor suite.now scratch.old }
    ensures puts { Puts (K.state out.old) (K.state out.new)
        (verdict_text (tests_of suite.now) (Fail test step given.now)) result }
    ensures made { IsMadeFor suite.now scratch.new }
{
    suite_keeps_rules(suite);
    set_fail(scratch, test, step);
    match put_all(out, scratch.line()) {
        Ok(()) => {}
        Err(fault) => return Err(fault),
    }
    match put_inputs(suite, test - 1, step, scratch, out) {
        Ok(()) => {}
        Err(fault) => return Err(fault),
    }
    let expected = suite.expected(test - 1, step - 1);
    set_numbers(scratch, b"expected", expected.as_slice());
    match put_all(out, scratch.line()) {
        Ok(()) => {}
        Err(fault) => return Err(fault),
    }
    set_numbers(scratch, b"got", given.as_slice());
    put_all(out, scratch.line())
}

/// Puts the verdict's lines, one at a time. It takes no memory.
pub fn write_verdict<K: Sink>(
    suite: &Suite,
    verdict: &Verdict,
    scratch: &mut Scratch,
    out: &mut K,
) -> Result<(), Fault>
    requires names { NamesStep (tests_of suite.now) verdict.now }
    requires made { IsMadeFor suite.now scratch.old }
    ensures puts { Puts (K.state out.old) (K.state out.new) (verdict_text (tests_of suite.now) verdict.now) result }
    ensures made { IsMadeFor suite.now scratch.new }
{
    match verdict {
        Verdict::Pass => {
            set_numbers(scratch, b"pass", &[]);
            put_all(out, scratch.line())
        }
        Verdict::Fail { test, step, given } => put_failure(
            suite, *test, *step, given, scratch, out,
        ),
    }
}
