//! Lines of a suite's text, made in a scratch: a letter takes at most 6 bytes with its space, a number at most 21. Digits
//! are pushed one by one, since most numbers have one or two.
ghost use Rattle.std.specs.Prelude.{◌≡◌, ◌+◌, ◌*◌, ◌<◌, ◌≤◌, ◌++◌, ◌∷◌, [], length, take, slice_index, codes};
ghost use Rattle.std.specs.Fmt.{decimal, signed_decimal};
ghost use Rattle.strict_lines.specs.Lines.{line_text, tail_text};
ghost use Rattle.suite_model.specs.Text.{numbers, letters, natural_line, input_line, output_line, class_line, letters_line, step_line};
ghost use Rattle.suite_text.specs.inside.Lines.{Pushes, Sets};

use lin_form::{Input, Name};
use suite_model::Scratch;

/// Pushes the digits of a number, the last of them last.
fn push_each_digit(scratch: &mut Scratch, number: u64)
    requires { length scratch.old.line + length (decimal number) ≤ scratch.old.room }
    ensures { Pushes scratch.old scratch.new (decimal number) }
{
    if number < 10 {
        scratch.push(b'0' + number as u8);
        return;
    }
    push_each_digit(scratch, number / 10);
    scratch.push(b'0' + (number % 10) as u8);
}

/// Pushes the digits of a number, without a call where there is one.
#[inline(always)]
fn push_digits(scratch: &mut Scratch, number: u64)
    requires { length scratch.old.line + length (decimal number) ≤ scratch.old.room }
    ensures { Pushes scratch.old scratch.new (decimal number) }
{
    if number < 10 {
        scratch.push(b'0' + number as u8);
        return;
    }
    push_each_digit(scratch, number);
}

/// Pushes a number.
fn push_bare(scratch: &mut Scratch, number: i64)
    requires { length scratch.old.line + 20 ≤ scratch.old.room }
    ensures pushes { Pushes scratch.old scratch.new (signed_decimal number) }
    ensures short { length scratch.new.line ≤ length scratch.old.line + 20 }
{
    let digits = number.unsigned_abs();
    if number < 0 {
        scratch.push(b'-');
        push_digits(scratch, digits);
        return;
    }
    push_digits(scratch, digits);
}

/// Pushes a space and a number.
fn push_number(scratch: &mut Scratch, number: i64)
    requires { length scratch.old.line + 21 ≤ scratch.old.room }
    ensures pushes { Pushes scratch.old scratch.new (32 ∷ signed_decimal number) }
    ensures short { length scratch.new.line ≤ length scratch.old.line + 21 }
{
    scratch.push(b' ');
    push_bare(scratch, number);
}

/// Pushes a space and a word.
fn push_word(scratch: &mut Scratch, word: &[u8])
    requires { length scratch.old.line + 1 + length word.now ≤ scratch.old.room }
    ensures pushes { Pushes scratch.old scratch.new (32 ∷ word.now) }
    ensures short { length scratch.new.line ≤ length scratch.old.line + 1 + length word.now }
{
    scratch.push(b' ');
    scratch.push_all(word);
}

/// Pushes numbers, each with a space before it.
fn push_numbers(scratch: &mut Scratch, values: &[i64])
    requires { length scratch.old.line + 21 * length values.now ≤ scratch.old.room }
    ensures pushes { Pushes scratch.old scratch.new (tail_text (numbers values.now)) }
    ensures short { length scratch.new.line ≤ length scratch.old.line + 21 * length values.now }
{
    for value in values {
        push_number(scratch, *value);
    }
}

/// Pushes the first `count` letters that the scratch holds.
fn push_letters(scratch: &mut Scratch, count: usize)
    requires count { count ≤ length scratch.old.letters }
    requires room { length scratch.old.line + 6 * count ≤ scratch.old.room }
    ensures pushes { Pushes scratch.old scratch.new (tail_text (letters (take count scratch.old.letters))) }
    ensures short { length scratch.new.line ≤ length scratch.old.line + 6 * count }
{
    for step in 0..count {
        push_letter(scratch, step);
    }
}

/// Pushes a space and the letter at a place that the scratch holds, printed from 1 on.
fn push_letter(scratch: &mut Scratch, step: usize)
    requires step { step < length scratch.old.letters }
    requires room { length scratch.old.line + 6 ≤ scratch.old.room }
    ensures pushes { Pushes scratch.old scratch.new (32 ∷ decimal (slice_index scratch.old.letters step + 1)) }
    ensures short { length scratch.new.line ≤ length scratch.old.line + 6 }
{
    let letter = scratch.letter(step) as u64 + 1;
    scratch.push(b' ');
    push_digits(scratch, letter);
}

/// Begins a line with a word.
fn start(scratch: &mut Scratch, word: &[u8])
    requires { length word.now ≤ scratch.old.room }
    ensures sets { Sets scratch.old scratch.new word.now }
{
    scratch.clear();
    scratch.push_all(word);
}

/// Sets a line of a word and a number.
pub fn set_natural(scratch: &mut Scratch, word: &[u8], number: usize)
    requires room { 320 ≤ scratch.old.room }
    requires word { length word.now ≤ 20 }
    ensures { Sets scratch.old scratch.new (line_text (natural_line word.now number)) }
{
    start(scratch, word);
    scratch.push(b' ');
    push_digits(scratch, number as u64);
    scratch.push(b'\n');
}

/// Sets the line of an input.
pub fn set_input(scratch: &mut Scratch, input: &Input)
    requires { 320 ≤ scratch.old.room }
    ensures { Sets scratch.old scratch.new (line_text (input_line input.now)) }
{
    start(scratch, b"input");
    push_word(scratch, input.name.text().as_bytes());
    push_number(scratch, input.lo);
    push_number(scratch, input.hi);
    scratch.push(b'\n');
}

/// Sets the line of an output.
pub fn set_output(scratch: &mut Scratch, name: &Name)
    requires { 320 ≤ scratch.old.room }
    ensures { Sets scratch.old scratch.new (line_text (output_line name.now)) }
{
    start(scratch, b"output");
    push_word(scratch, name.text().as_bytes());
    scratch.push(b'\n');
}

/// Sets the line of a class.
pub fn set_class(scratch: &mut Scratch, vector: &[i64])
    requires room { 320 ≤ scratch.old.room }
    requires few { length vector.now ≤ 6 }
    ensures { Sets scratch.old scratch.new (line_text (class_line vector.now)) }
{
    start(scratch, b"class");
    push_numbers(scratch, vector);
    scratch.push(b'\n');
}

/// Sets a line of a word and the first `count` letters that the scratch holds.
pub fn set_letters(scratch: &mut Scratch, word: &[u8], count: usize)
    requires word { length word.now ≤ 20 }
    requires count { count ≤ length scratch.old.letters }
    requires room { 320 + 6 * length scratch.old.letters ≤ scratch.old.room }
    ensures { Sets scratch.old scratch.new (line_text (letters_line word.now (take count scratch.old.letters))) }
{
    start(scratch, word);
    push_letters(scratch, count);
    scratch.push(b'\n');
}

/// Pushes the line of a test of the first `count` letters that the scratch holds.
pub fn push_test(scratch: &mut Scratch, count: usize)
    requires count { count ≤ length scratch.old.letters }
    requires room { length scratch.old.line + 6 * count + 10 ≤ scratch.old.room }
    ensures { Pushes scratch.old scratch.new (line_text (letters_line (codes "test") (take count scratch.old.letters))) }
{
    scratch.push_all(b"test");
    push_letters(scratch, count);
    scratch.push(b'\n');
}

/// Pushes the line of a step.
pub fn push_step(scratch: &mut Scratch, vector: &[i64], reply: &[i64])
    requires room { length scratch.old.line + 320 ≤ scratch.old.room }
    requires some { 0 < length vector.now }
    requires few { length vector.now ≤ 6 }
    requires few_replies { length reply.now ≤ 8 }
    ensures pushes { Pushes scratch.old scratch.new (line_text (step_line vector.now reply.now)) }
    ensures short { length scratch.new.line ≤ length scratch.old.line + 320 }
{
    push_bare(scratch, vector[0]);
    push_numbers(scratch, &vector[1..]);
    push_word(scratch, b"/");
    push_numbers(scratch, reply);
    scratch.push(b'\n');
}
