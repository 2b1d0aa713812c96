//! Where the longest sums, comparisons and guards end. None of it takes memory.
ghost use Rattle.std.specs.Prelude.{◌≡◌, ◌+◌, ◌<◌, ◌≤◌, length, MatchOption, IfSome};
ghost use Rattle.line_forms.specs.declared.lexeme.Lexeme.TheVariants as lexeme;
ghost use Rattle.line_forms.specs.declared.statement.SignedTerm.{SignedTerm};
ghost use Rattle.line_forms.specs.Grammar.{Has, IsTerm, term_size, sign_of, IsSum, sum_size, IsTest, test_size};
ghost use Rattle.line_forms.specs.Grammar.{IsGuardText, guard_size, IsConj, conj_size, IsUnit, unit_size};
ghost use Rattle.line_forms.specs.Longest.{IsLongest, IsLed};
ghost use Rattle.line_checks.specs.Runs.{GivesEnd};

use crate::lookup::{
    is_close, is_minus, is_open, is_reserved, is_times, name_at, number_at, relation_at, sign_at,
};
use crate::written::Written;
use lin_form::Name;
use line_forms::{Keyword, SignedTerm, Term};

/// The name behind `*` that follows the token at a place.
fn times_name(line: &Written, at: usize) -> Option<Name>
    requires { at < 1024 }
    ensures found { MatchOption result ((n : _) → Has line.now (at + 1) lexeme.Times
        → Has line.now (at + 2) (lexeme.Named n) → ⊥)
        (λ n. Has line.now (at + 1) lexeme.Times × Has line.now (at + 2) (lexeme.Named n)) }
    ensures inside { IfSome result (λ n. at + 2 < length line.now) }
{
    if !is_times(line, at + 1) {
        return None;
    }
    name_at(line, at + 2)
}

/// The number behind `*` that follows the token at a place.
fn times_number(line: &Written, at: usize) -> Option<u32>
    requires { at < 1024 }
    ensures found { MatchOption result ((n : _) → Has line.now (at + 1) lexeme.Times
        → Has line.now (at + 2) (lexeme.Number n) → ⊥)
        (λ n. Has line.now (at + 1) lexeme.Times × Has line.now (at + 2) (lexeme.Number n)) }
    ensures inside { IfSome result (λ n. at + 2 < length line.now) }
{
    if !is_times(line, at + 1) {
        return None;
    }
    number_at(line, at + 2)
}

/// The longest term from a place on.
fn term_at(line: &Written, at: usize) -> Option<Term>
    requires short { length line.now ≤ 1024 }
    ensures found { MatchOption result ((t : _) → IsTerm line.now at t → ⊥)
        (λ t. IsLongest (IsTerm line.now) term_size at (at + term_size t) t) }
    ensures inside { IfSome result (λ t. at + term_size t ≤ length line.now) }
{
    if let Some(number) = number_at(line, at) {
        return match times_name(line, at) {
            Some(name) => Some(Term::Scaled(number, name)),
            None => Some(Term::Number(number)),
        };
    }
    let Some(name) = name_at(line, at) else {
        return None;
    };
    match times_number(line, at) {
        Some(number) => Some(Term::Multiplied(name, number)),
        None => Some(Term::Named(name)),
    }
}

/// How many tokens a term has.
fn size(term: &Term) -> usize
    ensures { result ≡ term_size term.now }
{
    match term {
        Term::Number(_) | Term::Named(_) => 1,
        Term::Scaled(_, _) | Term::Multiplied(_, _) => 3,
    }
}

/// Whether `-` stands at a place, and the place behind it, or this one.
fn led(line: &Written, at: usize) -> (bool, usize)
    requires short { length line.now ≤ 1024 }
    ensures { IsLed line.now at result.0 result.1 }
{
    if is_minus(line, at) {
        (true, at + 1)
    } else {
        (false, at)
    }
}

/// The longest term behind a sign at a place.
fn further_term(line: &Written, at: usize) -> Option<SignedTerm>
    requires short { length line.now ≤ 1024 }
    ensures found { MatchOption result ((t : SignedTerm) → Has line.now at (sign_of t.negated)
        → IsTerm line.now (at + 1) t.term → ⊥)
        (λ (t : SignedTerm). Has line.now at (sign_of t.negated)
        × IsLongest (IsTerm line.now) term_size (at + 1) (at + 1 + term_size t.term) t.term) }
    ensures inside { IfSome result (λ (t : SignedTerm). at + 1 + term_size t.term ≤ length line.now) }
{
    let Some(negated) = sign_at(line, at) else {
        return None;
    };
    let Some(term) = term_at(line, at + 1) else {
        return None;
    };
    Some(SignedTerm { negated, term })
}

/// Where the longest sum from a place on ends.
fn sum_end(line: &Written, at: usize) -> Option<usize>
    requires short { length line.now ≤ 1024 }
    ensures found { GivesEnd (IsSum line.now) sum_size at result }
    ensures inside { IfSome result (λ end. (at < end) × (end ≤ length line.now)) }
{
    let (negated, place) = led(line, at);
    let Some(term) = term_at(line, place) else {
        return None;
    };
    let mut end = place + size(&term);
    'terms: loop {
        let Some(next) = further_term(line, end) else {
            return Some(end);
        };
        end += 1 + size(&next.term);
    }
}

/// Where the longest comparison from a place on ends.
fn test_end(line: &Written, at: usize) -> Option<usize>
    requires short { length line.now ≤ 1024 }
    ensures found { GivesEnd (IsTest line.now) test_size at result }
    ensures inside { IfSome result (λ end. (at < end) × (end ≤ length line.now)) }
{
    let Some(middle) = sum_end(line, at) else {
        return None;
    };
    let Some(relation) = relation_at(line, middle) else {
        return None;
    };
    match sum_end(line, middle + 1) {
        Some(end) => Some(end),
        None => None,
    }
}

/// Where the longest `not UNIT`, `( GUARD )` or comparison from a place on ends.
#[cycle(walk)]
fn unit_end(line: &Written, at: usize) -> Option<usize>
    requires short { length line.now ≤ 1024 }
    ensures found { GivesEnd (IsUnit line.now) unit_size at result }
    ensures inside { IfSome result (λ end. (at < end) × (end ≤ length line.now)) }
{
    if is_reserved(line, at, Keyword::Not) {
        return match unit_end(line, at + 1) {
            Some(end) => Some(end),
            None => None,
        };
    }
    if is_open(line, at) {
        let Some(end) = guard_end(line, at + 1) else {
            return None;
        };
        if !is_close(line, end) {
            return None;
        }
        return Some(end + 1);
    }
    match test_end(line, at) {
        Some(end) => Some(end),
        None => None,
    }
}

/// Where the longest conjunction from a place on ends.
#[cycle(walk)]
fn conj_end(line: &Written, at: usize) -> Option<usize>
    requires short { length line.now ≤ 1024 }
    ensures found { GivesEnd (IsConj line.now) conj_size at result }
    ensures inside { IfSome result (λ end. (at < end) × (end ≤ length line.now)) }
{
    let Some(mut end) = unit_end(line, at) else {
        return None;
    };
    'units: while is_reserved(line, end, Keyword::And) {
        let Some(next) = unit_end(line, end + 1) else {
            return Some(end);
        };
        end = next;
    }
    Some(end)
}

/// Where the longest guard from a place on ends.
#[cycle(walk)]
pub fn guard_end(line: &Written, at: usize) -> Option<usize>
    requires short { length line.now ≤ 1024 }
    ensures found { GivesEnd (IsGuardText line.now) guard_size at result }
    ensures inside { IfSome result (λ end. (at < end) × (end ≤ length line.now)) }
{
    let Some(mut end) = conj_end(line, at) else {
        return None;
    };
    'conjs: while is_reserved(line, end, Keyword::Or) {
        let Some(next) = conj_end(line, end + 1) else {
            return Some(end);
        };
        end = next;
    }
    Some(end)
}
