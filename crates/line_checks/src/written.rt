ghost use Rattle.std.specs.Prelude.{◌≡◌, length, map, slice_get};
ghost use Rattle.line_forms.specs.Lexemes.{AreSound, lexeme_of};

use line_forms::{Lexeme, meaning};
use line_tokens::Token;
use std::marker::Model;

/// The tokens of a line as what they mean, beside the bytes that they stand in.
#[derive(Drop)]
pub struct Written<'a> {
    bytes: &'a [u8],
    tokens: &'a [Token],
}

impl<'a> Model for Written<'a> {
    ghost use Rattle.std.specs.Prelude.{List, map};
    ghost use Rattle.line_forms.specs.declared.lexeme.Lexeme.{Lexeme};
    ghost use Rattle.line_forms.specs.Lexemes.{AreSound, lexeme_of};

    ghost Value = { List Lexeme };

    ghost view = { λ line. map (lexeme_of line.bytes.now) line.tokens.now };

    ghost invariant = { λ line. AreSound line.bytes.now line.tokens.now };
}

impl<'a> Written<'a> {
    /// The line with these tokens.
    pub fn new(bytes: &'a [u8], tokens: &'a [Token]) -> Written<'a>
        requires { AreSound bytes.now tokens.now }
        ensures { result ≡ map (lexeme_of bytes.now) tokens.now }
    {
        Written { bytes, tokens }
    }

    /// The number of tokens.
    pub fn len(&self) -> usize
        ensures { result ≡ length self.now }
    {
        self.tokens.len()
    }

    /// What the token with this number means, counted from 0.
    pub fn get(&self, at: usize) -> Option<Lexeme>
        ensures { result ≡ slice_get self.now at }
    {
        match self.tokens.get(at) {
            Some(token) => Some(meaning(self.bytes, token)),
            None => None,
        }
    }
}
