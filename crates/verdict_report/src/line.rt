//! Lines of a verdict's text, made in a scratch: a number takes at most 21 bytes with its space.
ghost use Rattle.std.specs.Prelude.{◌≡◌, ◌+◌, ◌*◌, ◌≤◌, ◌∷◌, length};
ghost use Rattle.std.specs.Fmt.{decimal, signed_decimal};
ghost use Rattle.strict_lines.specs.Lines.{tail_text};
ghost use Rattle.suite_model.specs.Text.{numbers};
ghost use Rattle.verdict_report.specs.Text.{fail_line, reply_line};
ghost use Rattle.verdict_report.specs.inside.Lines.{Pushes, Sets};

use itoa::Buffer;
use suite_model::Scratch;

/// Pushes a space and a number.
fn push_number(scratch: &mut Scratch, number: i64)
    requires { length scratch.old.line + 21 ≤ scratch.old.room }
    ensures pushes { Pushes scratch.old scratch.new (32 ∷ signed_decimal number) }
    ensures short { length scratch.new.line ≤ length scratch.old.line + 21 }
{
    scratch.push(b' ');
    let mut buffer = Buffer::new();
    scratch.push_all(buffer.format(number).as_bytes());
}

/// Pushes a space and a number that is not negative.
fn push_natural(scratch: &mut Scratch, number: usize)
    requires { length scratch.old.line + 21 ≤ scratch.old.room }
    ensures pushes { Pushes scratch.old scratch.new (32 ∷ decimal number) }
    ensures short { length scratch.new.line ≤ length scratch.old.line + 21 }
{
    scratch.push(b' ');
    let mut buffer = Buffer::new();
    scratch.push_all(buffer.format(number).as_bytes());
}

/// Pushes numbers, each with a space before it.
fn push_numbers(scratch: &mut Scratch, values: &[i64])
    requires { length scratch.old.line + 21 * length values.now ≤ scratch.old.room }
    ensures pushes { Pushes scratch.old scratch.new (tail_text (numbers values.now)) }
    ensures short { length scratch.new.line ≤ length scratch.old.line + 21 * length values.now }
{
    for value in values {
        push_number(scratch, *value);
    }
}

/// Sets a line of a word and numbers.
pub fn set_numbers(scratch: &mut Scratch, word: &[u8], values: &[i64])
    requires word { length word.now ≤ 20 }
    requires few { length values.now ≤ 8 }
    requires room { 320 ≤ scratch.old.room }
    ensures { Sets scratch.old scratch.new (reply_line word.now values.now) }
{
    scratch.clear();
    scratch.push_all(word);
    push_numbers(scratch, values);
    scratch.push(b'\n');
}

/// Sets the first line of a failure.
pub fn set_fail(scratch: &mut Scratch, test: usize, step: usize)
    requires { 320 ≤ scratch.old.room }
    ensures { Sets scratch.old scratch.new (fail_line test step) }
{
    scratch.clear();
    scratch.push_all(b"fail test");
    push_natural(scratch, test);
    scratch.push_all(b" step");
    push_natural(scratch, step);
    scratch.push(b'\n');
}
