ghost use Rattle.std.specs.Prelude.{IfOk, IfErr};
ghost use Rattle.line_tokens.specs.Limits.{IsRead};
ghost use Rattle.chart_syntax.specs.Checks.{line_error_of, which_of};
ghost use Rattle.chart_syntax.specs.Reading.{IsTokenRefusal, IsRefusedBy};
ghost use Rattle.std.specs.Prelude.{◌≡◌};

use crate::error::{ChartError, Kind, Refusal, Which, at_line};
use line_tokens::{Token, TokenError, TokenLimit, line_tokens};
use std::alloc::Global;
use text_lines::LineError;

fn which(limit: TokenLimit) -> Which
    ensures { result ≡ which_of limit }
{
    match limit {
        TokenLimit::Literal => Which::Literal,
        TokenLimit::NameBytes => Which::NameBytes,
        TokenLimit::Tokens => Which::Tokens,
        TokenLimit::Nesting => Which::Nesting,
    }
}

/// Why a line has no tokens, as a refusal of the line.
pub fn token_error(error: TokenError) -> LineError<Refusal>
    ensures { result ≡ line_error_of error }
{
    match error {
        TokenError::Byte => LineError::Refused(Refusal::Fault(Kind::Byte)),
        TokenError::Limit(limit) => LineError::Refused(Refusal::Limit(which(limit))),
        TokenError::Memory => LineError::Memory,
    }
}

/// The tokens of a line, which end before its comment, as long as possible from left to right.
///
/// The line is refused as line 1 of a text: with `Byte` where some byte is not allowed or begins no token, and with a
/// limit where the first token from the left passes that on numbers or names, where there are more than 1,024
/// tokens, or
/// where more than 64 are `(` or `not`.
pub fn tokens(alloc: Global, line: &[u8]) -> Result<Vec<Token>, ChartError>
    ensures read { IfOk result (λ tokens. IsRead line.now tokens.items) }
    ensures refused { IfErr result (IsRefusedBy (IsTokenRefusal line.now)) }
{
    match line_tokens(alloc, line) {
        Ok(tokens) => Ok(tokens),
        Err(error) => Err(at_line(1, token_error(error))),
    }
}
