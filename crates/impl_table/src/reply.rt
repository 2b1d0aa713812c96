ghost use Rattle.std.specs.Prelude.{◌≡◌, ◌≤◌, length, take, All, unsigned_abs};
ghost use Rattle.impl_table.specs.Forms.{value_of, IsSmallReplyNumber};
ghost use Rattle.impl_table.specs.Reading.{reply_of};

use crate::form::ReplyNumber;
use lin_form::Reply;

/// The value of a number with its sign.
fn value(number: ReplyNumber) -> i64
    requires { IsSmallReplyNumber number }
    ensures value { result ≡ value_of number }
    ensures small { unsigned_abs result ≤ 1000000000000 }
{
    match number {
        ReplyNumber::Plain(value) => value as i64,
        ReplyNumber::Negated(value) => 0 - value as i64,
    }
}

/// The values of a reply's numbers, at the front.
fn values(numbers: &[ReplyNumber]) -> [i64; 8]
    requires few { length numbers.now ≤ 8 }
    requires small { All IsSmallReplyNumber numbers.now }
    ensures { take (length numbers.now) result ≡ reply_of numbers.now }
{
    let mut values = [0; 8];
    'numbers: for (index, number) in numbers.iter().enumerate() {
        values[index] = value(*number);
    }
    values
}

/// The reply of these numbers.
pub fn reply(numbers: &[ReplyNumber]) -> Reply
    requires few { length numbers.now ≤ 8 }
    requires small { All IsSmallReplyNumber numbers.now }
    ensures { result ≡ reply_of numbers.now }
{
    Reply::from_slice(&values(numbers)[..numbers.len()])
}
