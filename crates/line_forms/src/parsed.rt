ghost use Rattle.std.specs.Prelude.{◌≡◌, ◌≤◌, ℕ, List, length, Option, Some, Result, Ok, IfOk};
ghost use Rattle.std.specs.Option.{ForSome};
ghost use Rattle.std.specs.List.{All};
ghost use Rattle.line_tokens.specs.declared.error.TokenError.{TokenError};
ghost use Rattle.line_forms.specs.declared.lexeme.Lexeme.{Lexeme};
ghost use Rattle.line_forms.specs.declared.parsed.ParsedLine.{ParsedLine};
ghost use Rattle.line_forms.specs.Lexemes.{IsLexed};
ghost use Rattle.line_forms.specs.Longest.{Derives};
ghost use Rattle.line_forms.specs.Parsing.{AreParsed, IsParsed};

use crate::error::ParseError;
use crate::keyword::Keyword;
use crate::line::Line;
use crate::lookup::keyword_at;
use line_tokens::one_tokenizing;
use std::alloc::{AllocError, Global};

/// What the lines of a format can say.
pub trait LineForm: Drop {
    ghost Is: { List Lexeme → Self → Type 0 };

    ghost Small: { Self → Type 0 };

    /// What a line says, where its tokens derive from a form.
    fn read(alloc: Global, line: &Line) -> Result<Self, ParseError>
        requires { length line.now ≤ 1024 }
        ensures { Derives (Is line.now) result };

    /// Tokens derive from one thing at most.
    fn one()
        ensures { (ts : List Lexeme) (a b : Self) → Is ts a → Is ts b → a ≡ b };

    /// What a line says is as small as the limits on its tokens leave it.
    fn small()
        ensures { (line : List ℕ) (ts : List Lexeme) (said : Self) → IsLexed line ts → Is ts said → Small said };
}

/// A line as it is parsed, before it is checked: its first word, where that is reserved, and what it says, where its
/// tokens derive from a form.
#[derive(Drop)]
pub struct ParsedLine<F> {
    pub head: Option<Keyword>,
    pub form: Option<F>,
}

/// The first word of a line, and what it says.
pub fn parse_lexemes<F: LineForm>(alloc: Global, line: &Line) -> Result<ParsedLine<F>, AllocError>
    requires { length line.now ≤ 1024 }
    ensures { IfOk result (AreParsed F.Is line.now) }
{
    let head = keyword_at(line, 0);
    match F::read(alloc, line) {
        Ok(form) => Ok(ParsedLine {
            head,
            form: Some(form),
        }),
        Err(ParseError::Form) => Ok(ParsedLine { head, form: None }),
        Err(ParseError::Memory) => Err(AllocError),
    }
}

/// A line is parsed in one way at most.
pub fn one_parse<F: LineForm>()
    ensures { (line : List ℕ) (a b : Result (Option (ParsedLine F)) TokenError)
        → IsParsed (AreParsed F.Is) line a → IsParsed (AreParsed F.Is) line b → a ≡ b }
{
    F::one();
    one_tokenizing();
}

/// It cannot be that a line is parsed in no way.
pub fn some_parse<F: LineForm>()
    ensures { (line : List ℕ)
        → ((a : Result (Option (ParsedLine F)) TokenError) → IsParsed (AreParsed F.Is) line a → ⊥) → ⊥ }
{}

/// What a line says is as small as the limits on its tokens leave it.
pub fn small_parse<F: LineForm>()
    ensures { (line : List ℕ) (parsed : ParsedLine F)
        → IsParsed (AreParsed F.Is) line (Ok (Some parsed)) → ForSome parsed.form F.Small }
{
    F::small();
}
