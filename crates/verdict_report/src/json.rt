//! A verdict as JSON.
ghost use Rattle.std.specs.Prelude.{◌≡◌, ◌<◌, ◌≤◌, [], ◌∷◌, ◌++◌, IfOk, false, length, take, slice_get, Some};
ghost use Rattle.serde_json.specs.View.{view};
ghost use Rattle.serde_json.specs.Written.{compact_text, has_float};
ghost use Rattle.subject.specs.Suite.{Test, in_vectors, tests_of};
ghost use Rattle.suite_model.specs.Scratch.{IsMadeFor};
ghost use Rattle.test_subject.specs.Verdict.{IsStep, NamesStep};
ghost use Rattle.test_subject.specs.declared.verdict.Verdict.TheVariants.{Fail, Pass};
ghost use Rattle.verdict_report.specs.Json.{json_text};
ghost use Rattle.verdict_report.specs.inside.Members.{failure_data, numbers_data, vectors_data, verdict_data};

use lin_form::Reply;
use serde_json::{Value, json};
use std::alloc::{AllocError, Global};
use suite_model::{Scratch, Suite, suite_keeps_rules};
use test_subject::Verdict;
use test_world::Text;

/// An array of numbers.
fn numbers(alloc: Global, numbers: &[i64]) -> Result<Value, AllocError>
    ensures { IfOk result (λ value. view value ≡ numbers_data numbers.now) }
{
    let mut values = Vec::new(alloc);
    for number in numbers {
        values.push(Value::from(*number))?;
    }
    Ok(Value::from(values))
}

/// The inputs of a test, counted from 0, up to a number of steps, as an array of arrays.
fn inputs(
    alloc: Global,
    suite: &Suite,
    test: usize,
    steps: usize,
    scratch: &mut Scratch,
) -> Result<Value, AllocError>
    requires test { test < length suite.now.tests }
    requires steps { (t : Test) → slice_get suite.now.tests test ≡ Some t → steps ≤ length t.letters }
    requires made { IsMadeFor suite.now scratch.old }
    ensures { (t : Test) → slice_get suite.now.tests test ≡ Some t → IfOk result (λ value.
        view value ≡ vectors_data (take steps (in_vectors suite.now.classes t.letters))) }
{
    suite_keeps_rules(suite);
    let _count = suite.test_letters(test, scratch);
    let mut values = Vec::new(alloc);
    for step in 0..steps {
        let letter = scratch.letter(step) as usize;
        values.push(numbers(alloc, suite.classes()[letter].as_slice())?)?;
    }
    Ok(Value::from(values))
}

/// The object of a failure at a place, from its arrays.
fn failure_object(
    alloc: Global,
    suite: &Suite,
    test: usize,
    step: usize,
    arrays: (Value, Value, Value),
) -> Result<Value, AllocError>
    ensures { IfOk result (λ value. view value
        ≡ failure_data suite.now test step (view arrays.0) (view arrays.1) (view arrays.2)) }
{
    let (expected, got, word) = arrays;
    json!(in alloc; {
        "bound": suite.bound(),
        "expected": expected,
        "got": got,
        "states": suite.states(),
        "step": step,
        "test": test,
        "tests": suite.tests(),
        "verdict": "fail",
        "word": word,
    })
}

/// The object of a failure, whose test and step count from 1.
fn failure(
    alloc: Global,
    suite: &Suite,
    test: usize,
    step: usize,
    given: &Reply,
) -> Result<Value, AllocError>
    requires { IsStep (tests_of suite.now) test step }
    ensures { IfOk result (λ value. view value ≡ verdict_data suite.now (Fail test step given.now)) }
{
    suite_keeps_rules(suite);
    let mut scratch = Scratch::for_suite(alloc, suite)?;
    let word = inputs(alloc, suite, test - 1, step, &mut scratch)?;
    let expected = numbers(alloc, suite.expected(test - 1, step - 1).as_slice())?;
    let got = numbers(alloc, given.as_slice())?;
    failure_object(alloc, suite, test, step, (expected, got, word))
}

/// The object of a pass.
fn pass(alloc: Global, suite: &Suite) -> Result<Value, AllocError>
    ensures { IfOk result (λ value. view value ≡ verdict_data suite.now Pass) }
{
    let (bound, states, tests) = (suite.bound(), suite.states(), suite.tests());
    json!(in alloc; {"bound": bound, "states": states, "tests": tests, "verdict": "pass"})
}

/// The object of a verdict.
fn object(alloc: Global, suite: &Suite, verdict: &Verdict) -> Result<Value, AllocError>
    requires { NamesStep (tests_of suite.now) verdict.now }
    ensures { IfOk result (λ value. view value ≡ verdict_data suite.now verdict.now) }
{
    match verdict {
        Verdict::Pass => pass(alloc, suite),
        Verdict::Fail { test, step, given } => failure(alloc, suite, *test, *step, given),
    }
}

/// The text of a value without spaces, and a line feed.
fn line(alloc: Global, value: Value) -> Result<Text, AllocError>
    requires { has_float (view value) ≡ false }
    ensures { IfOk result (λ text. text ≡ compact_text (view value) ++ 10 ∷ []) }
{
    let compact = value.to_string(alloc)?;
    let mut bytes = compact.as_str().as_bytes().to_vec(alloc)?;
    bytes.push(b'\n')?;
    Ok(Text::new(bytes))
}

/// The verdict as one line of JSON: an object without spaces, with its keys in ascending order, and a line feed.
pub fn verdict_json(alloc: Global, suite: &Suite, verdict: &Verdict) -> Result<Text, AllocError>
    requires { NamesStep (tests_of suite.now) verdict.now }
    ensures { IfOk result (λ text. text ≡ json_text suite.now verdict.now) }
{
    let value = object(alloc, suite, verdict)?;
    line(alloc, value)
}
