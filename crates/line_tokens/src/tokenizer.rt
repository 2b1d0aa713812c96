ghost use Rattle.std.specs.Prelude.{◌≡◌, [], OnOk, IfOk, IfErr};
ghost use Rattle.line_tokens.specs.Limits.{IsRead, IsRefused};

use crate::check::{nesting, read};
use crate::error::{TokenError, TokenLimit};
use crate::line::content;
use crate::scan::spans;
use crate::span::Span;
use crate::token::Token;
use std::alloc::Global;
use std::marker::Model;

const MOST_TOKENS: usize = 1_024;

const MOST_NESTING: usize = 64;

/// Reads the tokens of lines, one line after another, in the same memory. Contracts see it as the tokens that it holds.
#[derive(Drop)]
pub struct Tokenizer {
    spans: Vec<Span>,
    tokens: Vec<Token>,
}

impl Model for Tokenizer {
    ghost use Rattle.std.specs.Prelude.{List};
    ghost use Rattle.line_tokens.specs.declared.token.Token.{Token};

    ghost Value = { List Token };

    ghost view = { λ tokenizer. tokenizer.tokens.items };
}

impl Tokenizer {
    pub fn new(alloc: Global) -> Tokenizer
        ensures { result ≡ [] }
    {
        Tokenizer {
            spans: Vec::new(alloc),
            tokens: Vec::new(alloc),
        }
    }

    /// The tokens of the line that was read last, where it has such that may stand in a text.
    pub fn tokens(&self) -> &[Token]
        ensures { result.now ≡ self.now }
    {
        self.tokens.as_slice()
    }

    /// Reads the tokens of a line, or tells the first fault or limit that they show: a byte that is not allowed or
    /// begins no
    /// token, then a number or a name that is too large, then too many tokens, then too much nesting.
    pub fn read(&mut self, line: &[u8]) -> Result<(), TokenError>
        ensures ok { OnOk result (IsRead line.now self.new) }
        ensures err { IfErr result (IsRefused line.now) }
    {
        let content = content(line);
        match spans(content, &mut self.spans) {
            Ok(true) => {}
            Ok(false) => return Err(TokenError::Byte),
            Err(_) => return Err(TokenError::Memory),
        }
        match read(content, self.spans.as_slice(), &mut self.tokens) {
            Ok(()) => {}
            Err(error) => return Err(error),
        }
        if self.tokens.len() > MOST_TOKENS {
            return Err(TokenError::Limit(TokenLimit::Tokens));
        }
        if nesting(content, self.tokens.as_slice()) > MOST_NESTING {
            return Err(TokenError::Limit(TokenLimit::Nesting));
        }
        Ok(())
    }
}

/// The tokens of a line, or the first fault or limit that they show, as a tokenizer tells it.
pub fn line_tokens(alloc: Global, line: &[u8]) -> Result<Vec<Token>, TokenError>
    ensures ok { IfOk result (λ v. IsRead line.now v.items) }
    ensures err { IfErr result (IsRefused line.now) }
{
    let mut tokenizer = Tokenizer::new(alloc);
    match tokenizer.read(line) {
        Ok(()) => Ok(tokenizer.tokens),
        Err(error) => Err(error),
    }
}
