ghost use Rattle.std.specs.Prelude.{◌≡◌, ℕ, ◌^◌, ◌<◌, ◌≤◌, pos, length, take, true, IfSome, MatchOption};
ghost use Rattle.std.specs.List.{list_all, prefix_len};
ghost use Rattle.line_tokens.specs.Spelling.{starts, is_blank, is_symbol_byte, is_before_equals, decimal_value};
ghost use Rattle.lin_form.specs.Name.{starts_name, continues_name};
ghost use Rattle.std.specs.Char.{is_ascii_digit};
ghost use Rattle.line_tokens.specs.Tokens.{FindsLongest};
ghost use Rattle.line_tokens.specs.Front.{starts_symbol, starts_joined};

pub(crate) fn is_blank_byte(byte: u8) -> bool
    ensures { result ≡ is_blank byte }
{
    byte == b' ' || byte == b'\t'
}

pub(crate) fn is_digit_byte(byte: u8) -> bool
    ensures { result ≡ is_ascii_digit byte }
{
    byte.is_ascii_digit()
}

pub(crate) fn begins_name(byte: u8) -> bool
    ensures { result ≡ starts_name byte }
{
    byte.is_ascii_alphabetic() || byte == b'_'
}

pub(crate) fn continues_name(byte: u8) -> bool
    ensures { result ≡ continues_name byte }
{
    begins_name(byte) || is_digit_byte(byte)
}

fn is_one_symbol(byte: u8) -> bool
    ensures { result ≡ is_symbol_byte byte }
{
    byte == b'<'
        || byte == b'>'
        || byte == b'='
        || byte == b'+'
        || byte == b'-'
        || byte == b'*'
        || byte == b'('
        || byte == b')'
        || byte == b','
}

fn may_precede_equals(byte: u8) -> bool
    ensures { result ≡ is_before_equals byte }
{
    byte == b'<' || byte == b'>' || byte == b'!'
}

fn leading_blanks(bytes: &[u8]) -> usize
    ensures { result ≡ prefix_len is_blank bytes.now }
{
    bytes
        .iter()
        .take_while(|byte| is_blank_byte(**byte))
        .count()
}

/// How many blanks stand at the front.
pub(crate) fn blanks(bytes: &[u8]) -> usize
    ensures count { result ≡ prefix_len is_blank bytes.now }
    ensures within { result ≤ length bytes.now }
{
    leading_blanks(bytes)
}

fn name_bytes(bytes: &[u8]) -> usize
    ensures { result ≡ prefix_len continues_name bytes.now }
{
    bytes
        .iter()
        .take_while(|byte| continues_name(**byte))
        .count()
}

fn digits(bytes: &[u8]) -> usize
    ensures { result ≡ prefix_len is_ascii_digit bytes.now }
{
    bytes
        .iter()
        .take_while(|byte| is_digit_byte(**byte))
        .count()
}

fn is_joined_symbol(bytes: &[u8]) -> bool
    ensures { result ≡ starts_joined bytes.now }
{
    bytes.len() > 1 && may_precede_equals(bytes[0]) && bytes[1] == b'='
}

fn begins_symbol(bytes: &[u8]) -> bool
    ensures { result ≡ starts_symbol bytes.now }
{
    !bytes.is_empty() && is_one_symbol(bytes[0])
}

pub(crate) fn begins_with_name(bytes: &[u8]) -> bool
    ensures { result ≡ starts starts_name bytes.now }
{
    !bytes.is_empty() && begins_name(bytes[0])
}

pub(crate) fn begins_with_number(bytes: &[u8]) -> bool
    ensures { result ≡ starts is_ascii_digit bytes.now }
{
    !bytes.is_empty() && is_digit_byte(bytes[0])
}

/// The length of the longest token that stands at the front, if any does.
pub(crate) fn token_length(bytes: &[u8]) -> Option<usize>
    ensures found { FindsLongest bytes.now result }
{
    if begins_with_name(bytes) {
        return Some(name_bytes(bytes));
    }
    if begins_with_number(bytes) {
        return Some(digits(bytes));
    }
    if is_joined_symbol(bytes) {
        return Some(2);
    }
    if begins_symbol(bytes) {
        return Some(1);
    }
    None
}
