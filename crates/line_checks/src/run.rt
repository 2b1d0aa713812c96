//! Guards among the tokens of a line.
ghost use Rattle.std.specs.Prelude.{◌≡◌, ◌<◌, ◌≤◌, length, IfOk, IfSome};
ghost use Rattle.line_tokens.specs.Limits.{IsRead};
ghost use Rattle.line_forms.specs.Grammar.{IsGuardText, guard_size, guard_tree};
ghost use Rattle.line_forms.specs.Limits.{AreSmallTests};
ghost use Rattle.line_forms.specs.Longest.{GivesTree};
ghost use Rattle.line_forms.specs.Trees as written;
ghost use Rattle.line_checks.specs.Runs.{lexemes_of, GivesEnd, GivesGuard};

use crate::guard::{Unresolved, comparisons_left, resolved};
use crate::scope::{NameFault, Scope};
use crate::walk;
use crate::written::Written;
use chart_model::Guard;
use line_forms::{Line, ParseError};
use line_tokens::{Token, content};
use std::alloc::Global;

/// Why there is no guard.
#[derive(Drop)]
pub enum GuardError {
    /// No run of tokens derives from a guard.
    Form,
    /// The longest run has more than 64 comparisons.
    Comparisons,
    /// A name of the longest run.
    Fault(NameFault),
    Memory,
}

/// The number of the token after the longest run of tokens that begins at a token and derives from a guard, whatever
/// its names and however many its comparisons, given all tokens of the line. It takes no memory.
pub fn guard_end(line: &[u8], tokens: &[Token], at: usize) -> Option<usize>
    requires { IsRead line.now tokens.now }
    ensures found { GivesEnd (IsGuardText (lexemes_of line.now tokens.now)) guard_size at result }
    ensures inside { IfSome result (λ end. (at < end) × (end ≤ length tokens.now)) }
{
    walk::guard_end(&Written::new(content(line), tokens), at)
}

/// The longest guard that begins at a token, as it is written, and the number of the token after it.
fn guard_in(
    alloc: Global,
    line: &[u8],
    tokens: &[Token],
    at: usize,
) -> Result<(line_forms::GuardTree, usize), ParseError>
    requires { IsRead line.now tokens.now }
    ensures small { IfOk result (λ r. AreSmallTests (written.plain r.0)) }
    ensures found { GivesTree (IsGuardText (lexemes_of line.now tokens.now)) guard_size guard_tree at result }
{
    let mut lexemes = Line::new(alloc);
    match lexemes.fill(content(line), tokens) {
        Ok(()) => {}
        Err(_) => return Err(ParseError::Memory),
    }
    match line_forms::guard_at(alloc, &lexemes, at) {
        Ok(found) => Ok(found),
        Err(error) => Err(error),
    }
}

/// The longest guard that begins at a token, over a scope of names and so many inputs, and the number of the token
/// after it, given all tokens of the line.
///
/// Of the causes the first is told: `Form` where no run of tokens derives from a guard, `Comparisons` where the longest
/// run has more than 64, and the fault of its first name that has one.
pub fn guard_at<S: Scope>(
    alloc: Global,
    line: &[u8],
    tokens: &[Token],
    at: usize,
    scope: &S,
    width: usize,
) -> Result<(Guard, usize), GuardError>
    requires read { IsRead line.now tokens.now }
    requires few { width ≤ 6 }
    ensures { GivesGuard (lexemes_of line.now tokens.now) (S.names scope.now) width at result }
{
    let (tree, end) = match guard_in(alloc, line, tokens, at) {
        Ok(found) => found,
        Err(ParseError::Form) => return Err(GuardError::Form),
        Err(ParseError::Memory) => return Err(GuardError::Memory),
    };
    match comparisons_left(&tree, 64) {
        Some(_) => {}
        None => return Err(GuardError::Comparisons),
    }
    match resolved(alloc, scope, width, &tree) {
        Ok(guard) => Ok((guard, end)),
        Err(Unresolved::Fault(fault)) => Err(GuardError::Fault(fault)),
        Err(Unresolved::Memory) => Err(GuardError::Memory),
    }
}
