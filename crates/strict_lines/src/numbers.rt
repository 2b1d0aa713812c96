//! Strict numbers.
ghost use Rattle.std.specs.Prelude.{◌≡◌, ◌+◌, ◌<◌, ◌≤◌, true, false, MatchOption};
ghost use Rattle.std.specs.List.{list_all};
ghost use Rattle.std.specs.Char.{is_ascii_digit};
ghost use Rattle.strict_lines.specs.Numbers.{capped, is_natural, is_number, most, number_value, value};

/// The number that stands for all numbers above the greatest.
const TOO_LARGE: u64 = 1_000_000_000_001;

fn are_digits(bytes: &[u8]) -> bool
    ensures { result ≡ list_all is_ascii_digit bytes.now }
{
    bytes.iter().all(|byte| byte.is_ascii_digit())
}

fn is_natural(bytes: &[u8]) -> bool
    ensures { result ≡ is_natural bytes.now }
{
    are_digits(bytes) && bytes.len() > 0 && (bytes.len() == 1 || bytes[0] != b'0')
}

/// The value of digits, or None where it is above the greatest.
fn digits_value(digits: &[u8]) -> Option<u64>
    requires { list_all is_ascii_digit digits.now ≡ true }
    ensures { MatchOption result (most < value digits.now) (λ v. (v ≡ value digits.now) × (v ≤ most)) }
{
    let mut value = 0;
    for digit in digits {
        value = 10 * value + (*digit - b'0') as u64;
        if value > 1_000_000_000_000 {
            return None;
        }
    }
    Some(value)
}

fn capped_value(digits: &[u8]) -> u64
    requires { list_all is_ascii_digit digits.now ≡ true }
    ensures value { result ≡ capped (value digits.now) }
    ensures small { result ≤ most + 1 }
{
    match digits_value(digits) {
        Some(value) => value,
        None => TOO_LARGE,
    }
}

/// The value of a strict number. One above the greatest is taken for the least of them.
pub fn read(bytes: &[u8]) -> Option<i64>
    ensures { MatchOption result (is_number bytes.now ≡ false)
        (λ z. (is_number bytes.now ≡ true) × (z ≡ number_value bytes.now)) }
{
    if bytes.len() > 0 && bytes[0] == b'-' {
        let digits = &bytes[1..];
        if !is_natural(digits) || digits[0] == b'0' {
            return None;
        }
        return Some(-(capped_value(digits) as i64));
    }
    if !is_natural(bytes) {
        return None;
    }
    Some(capped_value(bytes) as i64)
}
