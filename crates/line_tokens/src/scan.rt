ghost use Rattle.std.specs.Prelude.{◌≡◌, ℕ, ◌+◌, ◌<◌, ◌≤◌, List, length, IfOk, MatchBool};
ghost use Rattle.line_tokens.specs.Tokens.{HasSpans, IsNext};
ghost use Rattle.line_tokens.specs.declared.span.Span.{Span};

use crate::span::{Next, Span};
use crate::word::{blanks, token_length};
use std::alloc::AllocError;

fn next_span(line: &[u8], at: usize) -> Next
    requires { at ≤ length line.now }
    ensures { IsNext line.now at result }
{
    let from = at + blanks(&line[at..]);
    if from >= line.len() {
        return Next::End;
    }
    match token_length(&line[from..]) {
        None => Next::Fault,
        Some(length) => Next::Found(Span {
            from,
            to: from + length,
        }),
    }
}

/// Puts the spans of a line's tokens in place of what the list holds, and tells whether there are tokens that make
/// up the
/// line: there are none where some byte is not allowed or begins no token.
pub(crate) fn spans(line: &[u8], found: &mut Vec<Span>) -> Result<bool, AllocError>
    ensures { IfOk result (λ tokenized. MatchBool tokenized (HasSpans line.now 0 found.new.items)
        ((ps : List Span) → HasSpans line.now 0 ps → ⊥)) }
{
    found.clear();
    let mut at = 0;
    'scan: loop {
        match next_span(line, at) {
            Next::End => return Ok(true),
            Next::Fault => return Ok(false),
            Next::Found(span) => {
                at = span.to;
                found.push(span)?;
            }
        }
    }
}
