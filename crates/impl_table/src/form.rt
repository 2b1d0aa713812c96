//! The forms of the lines of a table.
ghost use Rattle.std.specs.Prelude.{◌≡◌, ◌+◌, ◌≤◌, ℕ, length, slice_get, MatchOption, IfOk, IfSome};
ghost use Rattle.line_forms.specs.declared.lexeme.Lexeme.TheVariants as lexeme;
ghost use Rattle.line_forms.specs.declared.keyword.Keyword.TheVariants as word;
ghost use Rattle.line_forms.specs.Grammar.{Has};
ghost use Rattle.line_forms.specs.Longest.{Derives};
ghost use Rattle.impl_table.specs.Forms.{literal_at, IsReplyNumber, number_size, reply_size};
ghost use Rattle.impl_table.specs.Forms.{IsVersionForm, IsOutputForm, IsStateForm, IsRowForm};
ghost use Rattle.impl_table.specs.inside.Runs.{IsWholeReply};

use lin_form::Name;
use line_forms::{
    GuardForm, InputForm, Keyword, Lexeme, Line, LineForm, ParseError, input_form, is_minus,
    is_reserved, keyword_at, name_at, number_at, when_at,
};
use sqlite_items::Items;
use std::alloc::{AllocError, Global};

/// A number of a reply with its sign, at most 1,000,000,000,000.
#[derive(Clone, Copy, Debug)]
pub enum ReplyNumber {
    Plain(u64),
    Negated(u64),
}

/// `state NAME gives REPLY`.
#[derive(Drop)]
pub struct StateForm {
    pub name: Name,
    pub reply: Items<ReplyNumber>,
}

/// `row NAME [ when GUARD ] gives REPLY go NAME`.
#[derive(Drop)]
pub struct RowForm {
    pub from: Name,
    pub guard: Option<GuardForm>,
    pub reply: Items<ReplyNumber>,
    pub to: Name,
}

/// What a line of a table says.
#[derive(Drop)]
pub enum TableForm {
    Version(u32),
    Input(InputForm),
    Output(Name),
    State(StateForm),
    Row(RowForm),
}

fn literal(line: &Line, at: usize) -> Option<u64>
    ensures { result ≡ literal_at line.now at }
{
    match line.get(at) {
        Some(Lexeme::Number(value)) => Some(value as u64),
        Some(Lexeme::Wide(value)) => Some(value),
        _ => None,
    }
}

/// The number of a reply at a place, if one stands there.
fn reply_number(line: &Line, at: usize) -> Option<ReplyNumber>
    requires short { length line.now ≤ 1024 }
    ensures found { MatchOption result ((n : _) → IsReplyNumber line.now at n → ⊥) (λ n. IsReplyNumber line.now at n) }
    ensures inside { IfSome result (λ n. at + number_size n ≤ length line.now) }
{
    if let Some(value) = literal(line, at) {
        return Some(ReplyNumber::Plain(value));
    }
    if !is_minus(line, at) {
        return None;
    }
    let value = literal(line, at + 1)?;
    Some(ReplyNumber::Negated(value))
}

/// How many tokens the number has.
fn size(number: ReplyNumber) -> usize
    ensures { result ≡ number_size number }
{
    match number {
        ReplyNumber::Plain(_) => 1,
        ReplyNumber::Negated(_) => 2,
    }
}

/// The numbers of a reply from a place on, and the place behind them.
fn reply(alloc: Global, line: &Line, at: usize) -> Result<(Items<ReplyNumber>, usize), AllocError>
    requires short { length line.now ≤ 1024 }
    requires near { at ≤ length line.now }
    ensures found { IfOk result (λ r. IsWholeReply line.now at r.1 r.0) }
    ensures inside { IfOk result (λ r. r.1 ≤ length line.now) }
{
    let mut numbers = Items::new(alloc);
    let mut end = at;
    'numbers: loop {
        let Some(number) = reply_number(line, end) else {
            return Ok((numbers, end));
        };
        numbers.push(number)?;
        end += size(number);
    }
}

fn version_form(line: &Line) -> Option<u32>
    requires short { length line.now ≤ 1024 }
    requires key { Has line.now 0 (lexeme.Reserved word.Table) }
    ensures { MatchOption result ((n : _) → IsVersionForm line.now n → ⊥) (λ n. IsVersionForm line.now n) }
{
    let Some(version) = number_at(line, 1) else {
        return None;
    };
    if line.len() != 2 {
        return None;
    }
    Some(version)
}

fn output_form(line: &Line) -> Option<Name>
    requires short { length line.now ≤ 1024 }
    requires key { Has line.now 0 (lexeme.Reserved word.Output) }
    ensures { MatchOption result ((n : _) → IsOutputForm line.now n → ⊥) (λ n. IsOutputForm line.now n) }
{
    let Some(name) = name_at(line, 1) else {
        return None;
    };
    if line.len() != 2 {
        return None;
    }
    Some(name)
}

fn state_form(alloc: Global, line: &Line) -> Result<StateForm, ParseError>
    requires short { length line.now ≤ 1024 }
    requires key { Has line.now 0 (lexeme.Reserved word.State) }
    ensures { Derives (IsStateForm line.now) result }
{
    let Some(name) = name_at(line, 1) else {
        return Err(ParseError::Form);
    };
    if !is_reserved(line, 2, Keyword::Gives) {
        return Err(ParseError::Form);
    }
    let (reply, end) = match reply(alloc, line, 3) {
        Ok(found) => found,
        Err(_) => return Err(ParseError::Memory),
    };
    if line.len() != end {
        return Err(ParseError::Form);
    }
    Ok(StateForm { name, reply })
}

fn row_form(alloc: Global, line: &Line) -> Result<RowForm, ParseError>
    requires short { length line.now ≤ 1024 }
    requires key { Has line.now 0 (lexeme.Reserved word.Row) }
    ensures { Derives (IsRowForm line.now) result }
{
    let Some(from) = name_at(line, 1) else {
        return Err(ParseError::Form);
    };
    let (guard, at) = match when_at(alloc, line, 2) {
        Ok(found) => found,
        Err(error) => return Err(error),
    };
    if !is_reserved(line, at, Keyword::Gives) {
        return Err(ParseError::Form);
    }
    let (reply, end) = match reply(alloc, line, at + 1) {
        Ok(found) => found,
        Err(_) => return Err(ParseError::Memory),
    };
    if !is_reserved(line, end, Keyword::Go) {
        return Err(ParseError::Form);
    }
    let Some(to) = name_at(line, end + 1) else {
        return Err(ParseError::Form);
    };
    if line.len() != end + 2 {
        return Err(ParseError::Form);
    }
    Ok(RowForm {
        from,
        guard,
        reply,
        to,
    })
}

impl LineForm for TableForm {
    ghost use Rattle.impl_table.specs.Forms.{IsTableForm, IsSmallTableForm};

    ghost Is = { IsTableForm };

    ghost Small = { IsSmallTableForm };

    fn read(alloc: Global, line: &Line) -> Result<TableForm, ParseError> {
        match keyword_at(line, 0) {
            Some(Keyword::Table) => match version_form(line) {
                Some(version) => Ok(TableForm::Version(version)),
                None => Err(ParseError::Form),
            },
            Some(Keyword::Input) => match input_form(line) {
                Ok(form) => Ok(TableForm::Input(form)),
                Err(error) => Err(error),
            },
            Some(Keyword::Output) => match output_form(line) {
                Some(name) => Ok(TableForm::Output(name)),
                None => Err(ParseError::Form),
            },
            Some(Keyword::State) => match state_form(alloc, line) {
                Ok(form) => Ok(TableForm::State(form)),
                Err(error) => Err(error),
            },
            Some(Keyword::Row) => match row_form(alloc, line) {
                Ok(form) => Ok(TableForm::Row(form)),
                Err(error) => Err(error),
            },
            _ => Err(ParseError::Form),
        }
    }

    fn one() {}

    fn small() {}
}
