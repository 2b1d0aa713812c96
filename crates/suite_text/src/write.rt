//! Writing a suite.
ghost use Rattle.std.specs.Prelude.{◌≡◌, ℕ, ◌+◌, ◌*◌, ◌<◌, ◌≤◌, ◌++◌, length, List, slice_get, Some, take, IfOk};
ghost use Rattle.std.specs.List.{flat_map};
ghost use Rattle.subject.specs.Suite.{Test};
ghost use Rattle.suite_model.specs.Scratch.{IsMadeFor};
ghost use Rattle.strict_lines.specs.Lines.{Token, line_text};
ghost use Rattle.suite_model.specs.Text.{natural_line, test_lines, suite_text};
ghost use Rattle.suite_text.specs.inside.Parts.{text_of, rows, tests_text, part_text};
ghost use Rattle.suite_text.specs.inside.Steps.{HaveSteps, IsStepsText, HoldsTest, HoldsSteps};
ghost use Rattle.test_world.specs.Sink.{Puts};

use crate::line::{
    push_step, push_test, set_class, set_input, set_letters, set_natural, set_output,
};
use suite_model::{Scratch, Suite, suite_keeps_rules};
use test_world::{Fault, Sink, put_all};

/// A kind of lines that stand together before the tests.
#[derive(Clone, Copy)]
pub enum Section {
    Inputs,
    Outputs,
    Classes,
    Cover,
    Marks,
}

/// A part of a suite's text.
#[derive(Clone, Copy)]
pub enum Part {
    First,
    Rows(Section),
    Bound,
    States,
    Tests,
    Last,
}

/// The parts of a suite's text in their order.
const PARTS: [Part; 10] = [
    Part::First,
    Part::Rows(Section::Inputs),
    Part::Rows(Section::Outputs),
    Part::Bound,
    Part::States,
    Part::Rows(Section::Classes),
    Part::Rows(Section::Cover),
    Part::Rows(Section::Marks),
    Part::Tests,
    Part::Last,
];

/// How many lines a section has.
fn count(suite: &Suite, section: Section) -> usize
    ensures { result ≡ length (rows section suite.now) }
{
    match section {
        Section::Inputs => suite.signature().inputs.as_slice().len(),
        Section::Outputs => suite.signature().outputs.as_slice().len(),
        Section::Classes => suite.classes().len(),
        Section::Cover => suite.covers(),
        Section::Marks => suite.marks(),
    }
}

/// Sets the line of a section with this number, counted from 0.
fn set_row(suite: &Suite, section: Section, index: usize, scratch: &mut Scratch)
    requires index { index < length (rows section suite.now) }
    requires made { IsMadeFor suite.now scratch.old }
    ensures line { (row : List Token) → slice_get (rows section suite.now) index ≡ Some row
        → scratch.new.line ≡ line_text row }
    ensures made { IsMadeFor suite.now scratch.new }
{
    match section {
        Section::Inputs => set_input(scratch, &suite.signature().inputs.as_slice()[index]),
        Section::Outputs => set_output(scratch, &suite.signature().outputs.as_slice()[index]),
        Section::Classes => set_class(scratch, suite.classes()[index].as_slice()),
        Section::Cover => {
            let count = suite.cover_letters(index, scratch);
            set_letters(scratch, b"cover", count);
        }
        Section::Marks => {
            let count = suite.mark_letters(index, scratch);
            set_letters(scratch, b"mark", count);
        }
    }
}

/// Puts the lines of a section.
fn put_section<K: Sink>(
    suite: &Suite,
    section: Section,
    scratch: &mut Scratch,
    out: &mut K,
) -> Result<(), Fault>
    requires { IsMadeFor suite.now scratch.old }
    ensures puts { Puts (K.state out.old) (K.state out.new) (text_of (rows section suite.now)) result }
    ensures made { IsMadeFor suite.now scratch.new }
{
    let count = count(suite, section);
    for index in 0..count {
        set_row(suite, section, index, scratch);
        match put_all(out, scratch.line()) {
            Ok(()) => {}
            Err(fault) => return Err(fault),
        }
    }
    Ok(())
}

/// Puts a line of a word and a number.
fn put_natural<K: Sink>(
    word: &[u8],
    number: usize,
    suite: &Suite,
    scratch: &mut Scratch,
    out: &mut K,
) -> Result<(), Fault>
    requires word { length word.now ≤ 20 }
    requires made { IsMadeFor suite.now scratch.old }
    ensures puts { Puts (K.state out.old) (K.state out.new) (line_text (natural_line word.now number)) result }
    ensures made { IsMadeFor suite.now scratch.new }
{
    set_natural(scratch, word, number);
    put_all(out, scratch.line())
}

/// Pushes the step lines of a test, whose letters the scratch holds, behind those of its first `from` steps.
fn push_steps(suite: &Suite, test: usize, from: usize, count: usize, scratch: &mut Scratch)
    requires test { test < length suite.now.tests }
    requires made { IsMadeFor suite.now scratch.old }
    requires from { from ≤ count }
    requires letters { (t : Test) → slice_get suite.now.tests test ≡ Some t
        → (count ≡ length t.letters) × (take count scratch.old.letters ≡ t.letters) }
    requires steps { (t : Test) → slice_get suite.now.tests test ≡ Some t
        → HaveSteps suite.now.classes t from scratch.old }
    ensures steps { (t : Test) → slice_get suite.now.tests test ≡ Some t
        → HaveSteps suite.now.classes t count scratch.new }
    ensures letters { scratch.new.letters ≡ scratch.old.letters }
    ensures made { IsMadeFor suite.now scratch.new }
{
    suite_keeps_rules(suite);
    scratch.has_text_room();
    for step in from..count {
        let letter = scratch.letter(step) as usize;
        push_step(
            scratch,
            suite.classes()[letter].as_slice(),
            suite.expected(test, step).as_slice(),
        );
        scratch.keep_end(step + 1);
    }
}

/// Sets the line to the step lines of a test, and gives their number. Of the `before` steps that the scratch holds those
/// stay that the test begins with.
fn set_steps(suite: &Suite, test: usize, before: usize, scratch: &mut Scratch) -> usize
    requires test { test < length suite.now.tests }
    requires made { IsMadeFor suite.now scratch.old }
    requires before { HoldsSteps suite.now before scratch.old }
    ensures steps { (t : Test) → slice_get suite.now.tests test ≡ Some t → HoldsTest suite.now t result scratch.new }
    ensures made { IsMadeFor suite.now scratch.new }
{
    suite_keeps_rules(suite);
    let (count, same) = suite.next_letters(test, scratch);
    let from = same.min(before);
    scratch.back_to(from);
    push_steps(suite, test, from, count, scratch);
    count
}

/// Puts the line that the scratch holds, the text of `count` steps, one step at a time.
fn put_steps<K: Sink>(count: usize, scratch: &Scratch, out: &mut K) -> Result<(), Fault>
    requires count { count < length scratch.now.ends }
    requires steps { IsStepsText count scratch.now }
    ensures { Puts (K.state out.old) (K.state out.new) scratch.now.line result }
{
    for step in 0..count {
        match put_all(out, scratch.step_line(step)) {
            Ok(()) => {}
            Err(fault) => return Err(fault),
        }
    }
    Ok(())
}

/// Puts the lines of a test, where the scratch holds `before` steps of another. Gives how many it holds then.
fn put_test<K: Sink>(
    suite: &Suite,
    test: usize,
    before: usize,
    scratch: &mut Scratch,
    out: &mut K,
) -> Result<usize, Fault>
    requires test { test < length suite.now.tests }
    requires made { IsMadeFor suite.now scratch.old }
    requires before { HoldsSteps suite.now before scratch.old }
    ensures puts { (t : Test) → slice_get suite.now.tests test ≡ Some t →
        Puts (K.state out.old) (K.state out.new) (text_of (test_lines suite.now.classes t)) result }
    ensures made { IsMadeFor suite.now scratch.new }
    ensures holds { IfOk result (λ n. HoldsSteps suite.now n scratch.new) }
{
    let count = set_steps(suite, test, before, scratch);
    let end = scratch.line().len();
    scratch.has_text_room();
    push_test(scratch, count);
    match put_all(out, &scratch.line()[end..]) {
        Ok(()) => {}
        Err(fault) => return Err(fault),
    }
    scratch.back_to(count);
    match put_steps(count, scratch, out) {
        Ok(()) => {}
        Err(fault) => return Err(fault),
    }
    Ok(count)
}

/// Puts the lines of all tests. A test's step lines are made only where the test before it has others.
fn put_tests<K: Sink>(suite: &Suite, scratch: &mut Scratch, out: &mut K) -> Result<(), Fault>
    requires { IsMadeFor suite.now scratch.old }
    ensures puts { Puts (K.state out.old) (K.state out.new) (tests_text suite.now) result }
    ensures made { IsMadeFor suite.now scratch.new }
{
    scratch.has_text_room();
    scratch.clear();
    scratch.keep_end(0);
    let mut before = 0;
    for test in 0..suite.tests() {
        match put_test(suite, test, before, scratch, out) {
            Ok(count) => before = count,
            Err(fault) => return Err(fault),
        }
    }
    Ok(())
}

/// Puts a part of the text.
fn put_part<K: Sink>(
    suite: &Suite,
    part: Part,
    scratch: &mut Scratch,
    out: &mut K,
) -> Result<(), Fault>
    requires { IsMadeFor suite.now scratch.old }
    ensures puts { Puts (K.state out.old) (K.state out.new) (part_text suite.now part) result }
    ensures made { IsMadeFor suite.now scratch.new }
{
    match part {
        Part::First => put_natural(b"suite", 1, suite, scratch, out),
        Part::Rows(section) => put_section(suite, section, scratch, out),
        Part::Bound => put_natural(b"bound", suite.bound(), suite, scratch, out),
        Part::States => put_natural(b"states", suite.states(), suite, scratch, out),
        Part::Tests => put_tests(suite, scratch, out),
        Part::Last => put_natural(b"end", suite.tests(), suite, scratch, out),
    }
}

/// Puts the suite's text, one line at a time. It takes no memory.
pub fn write_suite<K: Sink>(suite: &Suite, scratch: &mut Scratch, out: &mut K) -> Result<(), Fault>
    requires { IsMadeFor suite.now scratch.old }
    ensures puts { Puts (K.state out.old) (K.state out.new) (suite_text suite.now) result }
    ensures made { IsMadeFor suite.now scratch.new }
{
    for part in &PARTS {
        match put_part(suite, *part, scratch, out) {
            Ok(()) => {}
            Err(fault) => return Err(fault),
        }
    }
    Ok(())
}
