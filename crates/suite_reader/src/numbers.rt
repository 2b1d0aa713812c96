//! The checks of numbers.
ghost use Rattle.std.specs.Prelude.{◌≡◌, ◌++◌, ◌≤◌, true, pos, length, map, OnOk};
ghost use Rattle.std.specs.List.{list_all};
ghost use Rattle.std.specs.Ordering.{int_eq};
ghost use Rattle.strict_lines.specs.Numbers.{is_within};
ghost use Rattle.suite_reading.specs.Checks.{are_within, is_between, is_in_box, is_letter};
ghost use Rattle.suite_reading.specs.State.{letter_of, row_of};

use lin_form::Input;
use std::alloc::AllocError;

/// Whether a number is at most the greatest in absolute value.
pub(crate) fn is_within(greatest: u64, number: i64) -> bool
    ensures { result ≡ is_within greatest number }
{
    number.unsigned_abs() <= greatest
}

/// Whether each number is at most the greatest in absolute value.
pub(crate) fn are_within(greatest: u64, numbers: &[i64]) -> bool
    ensures { result ≡ are_within greatest numbers.now }
{
    numbers.iter().all(|number| is_within(greatest, *number))
}

/// Whether a number is in a range.
pub(crate) fn is_between(low: i64, high: i64, number: i64) -> bool
    ensures { result ≡ is_between low high number }
{
    low <= number && number <= high
}

/// Whether each number is a letter: from 1 to the number of classes.
pub(crate) fn are_letters(classes: usize, numbers: &[i64]) -> bool
    requires { classes ≤ 4096 }
    ensures { result ≡ list_all (is_letter classes) numbers.now }
{
    let last = classes as i64;
    numbers.iter().all(|number| is_between(1, last, *number))
}

/// Whether a number is from 1 to the last.
pub(crate) fn is_up_to(last: usize, number: i64) -> bool
    ensures { result ≡ is_between (pos 1) (pos last) number }
{
    1 <= number && number as usize <= last
}

/// Whether a number is this count.
pub(crate) fn is_count(count: usize, number: i64) -> bool
    ensures { result ≡ int_eq number (pos count) }
{
    number >= 0 && number as usize == count
}

/// Whether numbers, one for each input, are in their inputs' ranges.
pub(crate) fn is_in_box(inputs: &[Input], numbers: &[i64]) -> bool
    requires { length numbers.now ≡ length inputs.now }
    ensures { result ≡ is_in_box (map row_of inputs.now) numbers.now }
{
    let mut index = 0;
    while index < inputs.len() {
        let input = inputs[index];
        if !is_between(input.lo, input.hi, numbers[index]) {
            return false;
        }
        index += 1;
    }
    true
}

/// Puts the letters, counted from 0, that the numbers name behind others.
pub(crate) fn push_letters(numbers: &[i64], letters: &mut Vec<u16>) -> Result<(), AllocError>
    requires { list_all (is_letter 4096) numbers.now ≡ true }
    ensures { OnOk result (letters.new.items ≡ letters.old.items ++ map letter_of numbers.now) }
{
    for number in numbers {
        letters.push((*number - 1) as u16)?;
    }
    Ok(())
}
