ghost use Rattle.std.specs.Prelude.{◌≡◌, ◌<◌, ◌^◌, unsigned_abs};
ghost use Rattle.line_forms.specs.Forms.{value_of};

use line_forms::Signed;

/// The value of a number with its sign.
pub fn value(number: Signed) -> i64
    ensures value { result ≡ value_of number }
    ensures small { unsigned_abs result < 2 ^ 32 }
{
    match number {
        Signed::Plain(value) => value as i64,
        Signed::Negated(value) => 0 - value as i64,
    }
}
