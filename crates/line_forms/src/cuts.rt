ghost use Rattle.std.specs.Prelude.{◌≡◌, ◌+◌, ◌≤◌, length, MatchOption};
ghost use Rattle.line_forms.specs.declared.lexeme.Lexeme.TheVariants as lexeme;
ghost use Rattle.line_forms.specs.declared.keyword.Keyword.TheVariants as word;
ghost use Rattle.line_forms.specs.Grammar.{Has};
ghost use Rattle.line_forms.specs.Longest.{Derives};
ghost use Rattle.line_forms.specs.CutForms.{IsCut, IsCutsVersion};

use crate::error::ParseError;
use crate::keyword::Keyword;
use crate::line::Line;
use crate::lookup::{keyword_at, number_at};
use crate::parsed::LineForm;
use crate::statement::TestForm;
use crate::sum::test_at;
use std::alloc::Global;

/// What a line of a list of cuts says.
#[derive(Drop)]
pub enum CutsForm {
    Version(u32),
    Cut(TestForm),
}

fn cut(alloc: Global, line: &Line) -> Result<TestForm, ParseError>
    requires short { length line.now ≤ 1024 }
    requires key { Has line.now 0 (lexeme.Reserved word.Cut) }
    ensures { Derives (IsCut line.now) result }
{
    let (test, end) = match test_at(alloc, line, 1) {
        Ok(found) => found,
        Err(error) => return Err(error),
    };
    if line.len() != end {
        return Err(ParseError::Form);
    }
    Ok(test)
}

fn cuts_version(line: &Line) -> Option<u32>
    requires short { length line.now ≤ 1024 }
    requires key { Has line.now 0 (lexeme.Reserved word.Cuts) }
    ensures { MatchOption result ((n : _) → IsCutsVersion line.now n → ⊥) (λ n. IsCutsVersion line.now n) }
{
    let Some(version) = number_at(line, 1) else {
        return None;
    };
    if line.len() != 2 {
        return None;
    }
    Some(version)
}

impl LineForm for CutsForm {
    ghost use Rattle.line_forms.specs.CutForms.{IsCutsForm, IsSmallCutsForm};

    ghost Is = { IsCutsForm };

    ghost Small = { IsSmallCutsForm };

    fn read(alloc: Global, line: &Line) -> Result<CutsForm, ParseError> {
        match keyword_at(line, 0) {
            Some(Keyword::Cuts) => match cuts_version(line) {
                Some(version) => Ok(CutsForm::Version(version)),
                None => Err(ParseError::Form),
            },
            Some(Keyword::Cut) => match cut(alloc, line) {
                Ok(test) => Ok(CutsForm::Cut(test)),
                Err(error) => Err(error),
            },
            _ => Err(ParseError::Form),
        }
    }

    fn one() {}

    fn small() {}
}
