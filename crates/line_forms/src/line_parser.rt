ghost use Rattle.std.specs.Prelude.{OnOk, IfErr};
ghost use Rattle.line_tokens.specs.Limits.{IsRefused};
ghost use Rattle.line_forms.specs.Lexemes.{IsLexed};
ghost use Rattle.line_forms.specs.Parsing.{AreParsed, Parses};

use crate::line::Line;
use crate::parsed::{LineForm, ParsedLine, parse_lexemes};
use line_tokens::{TokenError, Tokenizer, content};
use std::alloc::Global;

/// Parses lines, one after another, in the same memory.
#[derive(Drop)]
pub struct LineParser {
    tokenizer: Tokenizer,
    line: Line,
}

impl LineParser {
    pub fn new(alloc: Global) -> LineParser {
        LineParser {
            tokenizer: Tokenizer::new(alloc),
            line: Line::new(alloc),
        }
    }

    /// Takes what the tokens of a line mean.
    fn take(&mut self, line: &[u8]) -> Result<(), TokenError>
        ensures ok { OnOk result (IsLexed line.now self.new.line) }
        ensures err { IfErr result (IsRefused line.now) }
    {
        match self.tokenizer.read(line) {
            Ok(()) => {}
            Err(error) => return Err(error),
        }
        match self.line.fill(content(line), self.tokenizer.tokens()) {
            Ok(()) => Ok(()),
            Err(_) => Err(TokenError::Memory),
        }
    }

    /// What a line says, in the forms of any format, or None where it is blank.
    pub fn parse<F: LineForm>(
        &mut self,
        alloc: Global,
        line: &[u8],
    ) -> Result<Option<ParsedLine<F>>, TokenError>
        ensures { Parses (AreParsed F.Is) line.now result }
    {
        match self.take(line) {
            Ok(()) => {}
            Err(error) => return Err(error),
        }
        if self.line.len() == 0 {
            return Ok(None);
        }
        match parse_lexemes(alloc, &self.line) {
            Ok(parsed) => Ok(Some(parsed)),
            Err(_) => Err(TokenError::Memory),
        }
    }
}
