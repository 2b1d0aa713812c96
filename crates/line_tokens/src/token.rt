ghost use Rattle.std.specs.Prelude.{◌≡◌, ◌≤◌, ◌-◌, length, take, drop};
ghost use Rattle.line_tokens.specs.Tokens.{spelling};
ghost use Rattle.std.specs.Str.{bytes_eq};

/// What a token is.
#[derive(Clone, Copy, PartialEq, Eq, Debug)]
pub enum Word {
    Name,
    /// The value of a number; it has no sign.
    Number(i64),
    /// A symbol of one byte is named by its byte, one of two bytes by its first byte with 128 added.
    Symbol(u8),
}

/// A token of a line and where it stands there: from the byte `from` to the byte before `to`, counted from 0.
#[derive(Clone, Copy, PartialEq, Eq, Debug)]
pub struct Token {
    pub word: Word,
    pub from: usize,
    pub to: usize,
}

/// Whether the token of the line is spelled so.
pub fn is_spelled(line: &[u8], token: &Token, text: &[u8]) -> bool
    requires order { token.now.from ≤ token.now.to }
    requires within { token.now.to ≤ length line.now }
    ensures { result ≡ bytes_eq (spelling line.now token.now) text.now }
{
    line[token.from..token.to] == text[..]
}
