//! What stands at the places of a line whose tokens are kept as they are.
ghost use Rattle.std.specs.Prelude.{◌≡◌, ◌+◌, ◌<◌, length, MatchBool, MatchOption, IfSome};
ghost use Rattle.std.specs.Bool.{OnTrue};
ghost use Rattle.line_forms.specs.declared.lexeme.Lexeme.TheVariants as lexeme;
ghost use Rattle.line_forms.specs.Grammar.{Has, sign_of};

use crate::written::Written;
use lin_form::{Name, Relation};
use line_forms::{Keyword, Lexeme};

/// Whether a reserved word stands at a place.
pub fn is_reserved(line: &Written, at: usize, keyword: Keyword) -> bool
    ensures found { MatchBool result (Has line.now at (lexeme.Reserved keyword))
        (Has line.now at (lexeme.Reserved keyword) → ⊥) }
    ensures inside { OnTrue result (at < length line.now) }
{
    match line.get(at) {
        Some(Lexeme::Reserved(found)) => found == keyword,
        _ => false,
    }
}

/// Whether `-` stands at a place.
pub fn is_minus(line: &Written, at: usize) -> bool
    ensures found { MatchBool result (Has line.now at lexeme.Minus) (Has line.now at lexeme.Minus → ⊥) }
    ensures inside { OnTrue result (at < length line.now) }
{
    match line.get(at) {
        Some(Lexeme::Minus) => true,
        _ => false,
    }
}

/// Whether `*` stands at a place.
pub fn is_times(line: &Written, at: usize) -> bool
    ensures found { MatchBool result (Has line.now at lexeme.Times) (Has line.now at lexeme.Times → ⊥) }
{
    match line.get(at) {
        Some(Lexeme::Times) => true,
        _ => false,
    }
}

/// Whether `(` stands at a place.
pub fn is_open(line: &Written, at: usize) -> bool
    ensures found { MatchBool result (Has line.now at lexeme.Open) (Has line.now at lexeme.Open → ⊥) }
    ensures inside { OnTrue result (at < length line.now) }
{
    match line.get(at) {
        Some(Lexeme::Open) => true,
        _ => false,
    }
}

/// Whether `)` stands at a place.
pub fn is_close(line: &Written, at: usize) -> bool
    ensures found { MatchBool result (Has line.now at lexeme.Close) (Has line.now at lexeme.Close → ⊥) }
    ensures inside { OnTrue result (at < length line.now) }
{
    match line.get(at) {
        Some(Lexeme::Close) => true,
        _ => false,
    }
}

/// The relation at a place.
pub fn relation_at(line: &Written, at: usize) -> Option<Relation>
    ensures found { MatchOption result ((r : _) → Has line.now at (lexeme.Compare r) → ⊥)
        (λ r. Has line.now at (lexeme.Compare r)) }
    ensures inside { IfSome result (λ r. at < length line.now) }
{
    match line.get(at) {
        Some(Lexeme::Compare(relation)) => Some(relation),
        _ => None,
    }
}

/// Whether the sign at a place is `-` or `+`.
pub fn sign_at(line: &Written, at: usize) -> Option<bool>
    ensures found { MatchOption result ((b : _) → Has line.now at (sign_of b) → ⊥) (λ b. Has line.now at (sign_of b)) }
    ensures inside { IfSome result (λ b. at < length line.now) }
{
    match line.get(at) {
        Some(Lexeme::Minus) => Some(true),
        Some(Lexeme::Plus) => Some(false),
        _ => None,
    }
}

/// The number of at most 1,000,000 at a place.
pub fn number_at(line: &Written, at: usize) -> Option<u32>
    ensures found { MatchOption result ((n : _) → Has line.now at (lexeme.Number n) → ⊥)
        (λ n. Has line.now at (lexeme.Number n)) }
    ensures inside { IfSome result (λ n. at < length line.now) }
{
    match line.get(at) {
        Some(Lexeme::Number(value)) => Some(value),
        _ => None,
    }
}

/// The name at a place that is no reserved word.
pub fn name_at(line: &Written, at: usize) -> Option<Name>
    ensures found { MatchOption result ((n : _) → Has line.now at (lexeme.Named n) → ⊥)
        (λ n. Has line.now at (lexeme.Named n)) }
    ensures inside { IfSome result (λ n. at < length line.now) }
{
    let lexeme = line.get(at)?;
    match &lexeme {
        Lexeme::Named(name) => Some(*name),
        _ => None,
    }
}
