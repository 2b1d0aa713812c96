ghost use Rattle.std.specs.Prelude.{◌≡◌, ℕ, ◌+◌, ◌<◌, ◌≤◌, pos, true, false, List, length, map, count_by, codes};
ghost use Rattle.std.specs.Prelude.{◌||◌, All, OnOk, IfErr, MatchOption, MatchResult, Option, Some, None};
ghost use Rattle.std.specs.List.{list_all};
ghost use Rattle.line_tokens.specs.Spelling.{starts, is_token, decimal_value, symbol_number, word_of};
ghost use Rattle.lin_form.specs.Name.{starts_name};
ghost use Rattle.std.specs.Char.{is_ascii_digit};
ghost use Rattle.line_tokens.specs.Tokens.{HasSpans, IsSpan, IsInside, run, token_at};
ghost use Rattle.line_tokens.specs.Limits.{IsLimited, first_limit, word_limit, token_limit, largest_literal};
ghost use Rattle.line_tokens.specs.Limits.{is_word, is_nesting};

use crate::error::{TokenError, TokenLimit};
use crate::span::Span;
use crate::token::{Token, Word, is_spelled};
use crate::word::{begins_with_name, begins_with_number};

const MOST_NAME_BYTES: usize = 32;

/// The value of a run of digits, or None where it is above `most`.
fn number_value(digits: &[u8], most: u64) -> Option<u64>
    requires digits { list_all is_ascii_digit digits.now ≡ true }
    requires bound { most ≤ 1_000_000_000_000 }
    ensures { MatchOption result (most < decimal_value digits.now) (λ v. (v ≡ decimal_value digits.now) × (v ≤ most)) }
{
    let mut value = 0;
    for digit in digits {
        value = 10 * value + (*digit - b'0') as u64;
        if value > most {
            return None;
        }
    }
    Some(value)
}

fn largest(after_gives: bool) -> u64
    ensures value { result ≡ largest_literal after_gives }
    ensures bound { result ≤ 1_000_000_000_000 }
{
    if after_gives {
        1_000_000_000_000
    } else {
        1_000_000
    }
}

fn symbol(bytes: &[u8]) -> u8
    requires token { is_token bytes.now ≡ true }
    requires no_name { starts starts_name bytes.now ≡ false }
    requires no_number { starts is_ascii_digit bytes.now ≡ false }
    ensures { result ≡ symbol_number bytes.now }
{
    if bytes.len() > 1 {
        bytes[0] + 128
    } else {
        bytes[0]
    }
}

/// The word that a token spells, or the limit that it passes.
fn word(bytes: &[u8], after_gives: bool) -> Result<Word, TokenLimit>
    requires { is_token bytes.now ≡ true }
    ensures { MatchResult result (λ w. (w ≡ word_of bytes.now)
        × (word_limit after_gives w (length bytes.now) ≡ None))
        (λ l. word_limit after_gives (word_of bytes.now) (length bytes.now) ≡ Some l) }
{
    if begins_with_name(bytes) {
        if bytes.len() > MOST_NAME_BYTES {
            return Err(TokenLimit::NameBytes);
        }
        return Ok(Word::Name);
    }
    if begins_with_number(bytes) {
        return match number_value(bytes, largest(after_gives)) {
            Some(value) => Ok(Word::Number(value as i64)),
            None => Err(TokenLimit::Literal),
        };
    }
    Ok(Word::Symbol(symbol(bytes)))
}

/// The token in a span of the line, or the limit that it passes.
fn token(line: &[u8], span: Span, after_gives: bool) -> Result<Token, TokenLimit>
    requires { IsSpan line.now span }
    ensures { MatchResult result (λ t. (t ≡ token_at line.now span) × (token_limit after_gives t ≡ None))
        (λ l. token_limit after_gives (token_at line.now span) ≡ Some l) }
{
    let word = word(&line[span.from..span.to], after_gives)?;
    Ok(Token {
        word,
        from: span.from,
        to: span.to,
    })
}

fn stands_after_gives(line: &[u8], token: &Token, after_gives: bool) -> bool
    requires { IsInside line.now token.now }
    ensures { result ≡ (after_gives || is_word line.now (codes "gives") token.now) }
{
    after_gives || is_spelled(line, token, b"gives")
}

/// Puts the tokens at these spans in place of what the list holds, or tells the first limit on numbers and names
/// that they pass.
pub(crate) fn read(line: &[u8], spans: &[Span], tokens: &mut Vec<Token>) -> Result<(), TokenError>
    requires { HasSpans line.now 0 spans.now }
    ensures ok { OnOk result ((tokens.new.items ≡ map (token_at line.now) spans.now)
        × (first_limit line.now false tokens.new.items ≡ None)) }
    ensures err { IfErr result (λ e. IsLimited line.now (map (token_at line.now) spans.now) e) }
{
    tokens.clear();
    let mut after_gives = false;
    'spans: for span in spans {
        let token = match token(line, *span, after_gives) {
            Ok(token) => token,
            Err(limit) => return Err(TokenError::Limit(limit)),
        };
        after_gives = stands_after_gives(line, &token, after_gives);
        if tokens.push(token).is_err() {
            return Err(TokenError::Memory);
        }
    }
    Ok(())
}

fn nests(line: &[u8], token: &Token) -> bool
    requires { IsInside line.now token.now }
    ensures { result ≡ is_nesting line.now token.now }
{
    is_spelled(line, token, b"(") || is_spelled(line, token, b"not")
}

/// How many of the tokens are `(` or `not`.
pub(crate) fn nesting(line: &[u8], tokens: &[Token]) -> usize
    requires { All (IsInside line.now) tokens.now }
    ensures { result ≡ count_by (is_nesting line.now) tokens.now }
{
    let mut count = 0;
    for token in tokens {
        if nests(line, token) {
            count += 1;
        }
    }
    count
}
