ghost use Rattle.std.specs.Prelude.{◌≡◌, ◌≤◌, ◌+◌, ◌<◌, ◌++◌, IfSome, Some, length, slice_get};
ghost use Rattle.subject.specs.Suite.{Test};
ghost use Rattle.suite_model.specs.Scratch.{IsMadeFor};
ghost use Rattle.gen_stages.specs.Summary.{count_lines, counted, steps_in};

use command_stages::Line;
use suite_model::{Scratch, Suite};

// The steps so far and those of one more test, where the machine's numbers hold the sum.
fn add_test(suite: &Suite, test: usize, steps: usize, scratch: &mut Scratch) -> Option<usize>
    requires test { test < length suite.now.tests }
    requires made { IsMadeFor suite.now scratch.old }
    ensures sum { IfSome result (λ sum. (t : Test) → slice_get suite.now.tests test ≡ Some t
        → sum ≡ steps + length t.letters) }
    ensures made { IsMadeFor suite.now scratch.new }
{
    let (more, _) = suite.next_letters(test, scratch);
    steps.checked_add(more)
}

/// How many steps a suite's tests have, where the machine's numbers hold it.
pub fn steps_of(suite: &Suite, scratch: &mut Scratch) -> Option<usize>
    requires { IsMadeFor suite.now scratch.old }
    ensures { IfSome result (λ steps. steps ≡ steps_in suite.now.tests) }
{
    let mut steps = 0;
    for test in 0..suite.tests() {
        match add_test(suite, test, steps, scratch) {
            Some(sum) => steps = sum,
            None => return None,
        }
    }
    Some(steps)
}

// Adds the line of a word and a number.
fn push_count(line: &mut Line, word: &[u8], number: usize)
    requires { length line.old + length word.now + 22 ≤ 320 }
    ensures bytes { line.new ≡ line.old ++ counted word.now number }
    ensures short { length line.new ≤ length line.old + length word.now + 22 }
{
    line.push(word);
    line.push(b" ");
    line.push_decimal(number);
    line.push(b"\n");
}

/// The lines of a number, and of what there is of its chart and its suite.
pub fn count_lines(number: u32, configurations: usize, suite: &Suite, steps: usize) -> Line
    requires { steps ≡ steps_in suite.now.tests }
    ensures { result ≡ count_lines number configurations suite.now }
{
    let mut line = Line::new();
    push_count(&mut line, b"number", number as usize);
    push_count(&mut line, b"classes", suite.classes().len());
    push_count(&mut line, b"configurations", configurations);
    push_count(&mut line, b"states", suite.states());
    push_count(&mut line, b"bound", suite.bound());
    push_count(&mut line, b"tests", suite.tests());
    push_count(&mut line, b"steps", steps);
    line
}
