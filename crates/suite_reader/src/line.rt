//! What the tokens of a line say.
ghost use Rattle.std.specs.Prelude.{◌≡◌, ℕ, ◌≤◌, ℤ, List, true, [], ◌∷◌, ◌++◌, length, map, Some, None, IfOk, MatchOption};
ghost use Rattle.strict_lines.specs.Lines.{Number};
ghost use Rattle.strict_lines.specs.Pieces.{said};
ghost use Rattle.suite_reading.specs.inside.Said.{input_item, output_item, number_item, step_values, step_item, item_of};
ghost use Rattle.suite_reading.specs.Items.{InputLine, OutputLine, BoundLine};
ghost use Rattle.suite_reader.specs.inside.Words.{is_slash, item_by, kind_of, is_short, leading};
ghost use Rattle.suite_reader.specs.inside.Lines.{item_said, IsCut, IsList, IsListLine, IsStep};

use std::alloc::AllocError;
use strict_lines::Piece;
use suite_reading::LineKind;

/// What a line says. The numbers of a list, or of a step, stand beside it; a step's vector has this many of them.
#[derive(Clone, Copy, Drop)]
pub(crate) enum Line<'a> {
    Suite,
    Input(&'a [u8], i64, i64),
    Output(&'a [u8]),
    Bound(i64),
    States(i64),
    Class,
    Cover,
    Mark,
    Test,
    Step(usize),
    End(i64),
}

/// The kind of line that a first word begins.
fn kind_of(word: &[u8]) -> LineKind
    ensures { result ≡ kind_of word.now }
{
    if word == b"test".as_slice() {
        return LineKind::Test;
    }
    if word == b"class".as_slice() {
        return LineKind::Class;
    }
    if word == b"cover".as_slice() {
        return LineKind::Cover;
    }
    if word == b"mark".as_slice() {
        return LineKind::Mark;
    }
    if word == b"input".as_slice() {
        return LineKind::Input;
    }
    if word == b"output".as_slice() {
        return LineKind::Output;
    }
    if word == b"bound".as_slice() {
        return LineKind::Bound;
    }
    if word == b"states".as_slice() {
        return LineKind::States;
    }
    if word == b"end".as_slice() {
        return LineKind::End;
    }
    if word == b"suite".as_slice() {
        return LineKind::Suite;
    }
    LineKind::Step
}

/// Puts the numbers at the front of tokens behind others, and gives how many they are.
fn push_leading(pieces: &[Piece], numbers: &mut Vec<i64>) -> Result<usize, AllocError>
    ensures count { IfOk result (λ n. n ≡ length (leading (map said pieces.now))) }
    ensures upto { IfOk result (λ n. n ≤ length pieces.now) }
    ensures numbers { IfOk result (λ n. numbers.new.items ≡ numbers.old.items ++ leading (map said pieces.now)) }
{
    let mut count = 0;
    while count < pieces.len() {
        match pieces[count] {
            Piece::Number(value) => numbers.push(value)?,
            Piece::Word(_) => return Ok(count),
        }
        count += 1;
    }
    Ok(count)
}

/// Whether the tokens are numbers, which are put in place of others.
fn read_list(pieces: &[Piece], numbers: &mut Vec<i64>) -> Result<bool, AllocError>
    ensures { IfOk result (IsList (map said pieces.now) numbers.new.items) }
{
    numbers.clear();
    let count = push_leading(pieces, numbers)?;
    Ok(count == pieces.len())
}

/// The number that the tokens are.
fn number_of(pieces: &[Piece]) -> Option<i64>
    ensures { MatchOption result (number_item BoundLine (map said pieces.now) ≡ None)
        (λ z. map said pieces.now ≡ Number z ∷ []) }
{
    match pieces {
        [Piece::Number(value)] => Some(*value),
        _ => None,
    }
}

/// The name and the range that the tokens are.
fn input_of<'a>(pieces: &[Piece<'a>]) -> Option<(&'a [u8], i64, i64)>
    ensures { MatchOption result (input_item (map said pieces.now) ≡ None)
        (λ r. input_item (map said pieces.now) ≡ Some (InputLine r.0.now r.1 r.2)) }
{
    match pieces {
        [Piece::Word(name), Piece::Number(low), Piece::Number(high)] => Some((*name, *low, *high)),
        _ => None,
    }
}

/// The name that the tokens are.
fn output_of<'a>(pieces: &[Piece<'a>]) -> Option<&'a [u8]>
    ensures { MatchOption result (output_item (map said pieces.now) ≡ None)
        (λ name. output_item (map said pieces.now) ≡ Some (OutputLine name.now)) }
{
    match pieces {
        [Piece::Word(name)] => Some(*name),
        _ => None,
    }
}

fn is_slash(piece: &Piece) -> bool
    ensures { result ≡ is_slash (said piece.now) }
{
    match piece {
        Piece::Word(word) => *word == b"/".as_slice(),
        Piece::Number(_) => false,
    }
}

/// The numbers of a step, which are put in place of others, and how many of them are its vector's.
fn read_step(pieces: &[Piece], numbers: &mut Vec<i64>) -> Result<Option<usize>, AllocError>
    ensures { IfOk result (IsStep (map said pieces.now) numbers.new.items) }
{
    numbers.clear();
    let count = push_leading(pieces, numbers)?;
    if count == pieces.len() {
        return Ok(None);
    }
    if !is_slash(&pieces[count]) {
        return Ok(None);
    }
    let reply = &pieces[count + 1..];
    let replied = push_leading(reply, numbers)?;
    if replied < reply.len() {
        return Ok(None);
    }
    Ok(Some(count))
}

/// A line that is a list of numbers, if it is one.
fn list_line<'a>(
    line: Line<'a>,
    pieces: &[Piece<'a>],
    numbers: &mut Vec<i64>,
) -> Result<Option<Line<'a>>, AllocError>
    ensures { IfOk result (IsListLine line.entry (map said pieces.now) numbers.new.items) }
{
    if read_list(pieces, numbers)? {
        return Ok(Some(line));
    }
    Ok(None)
}

/// A line that is a step, if it is one.
fn step_line<'a>(
    pieces: &[Piece<'a>],
    numbers: &mut Vec<i64>,
) -> Result<Option<Line<'a>>, AllocError>
    ensures item { IfOk result (λ l. step_item (step_values (map said pieces.now)) ≡ item_said numbers.new.items l) }
    ensures cut { IfOk result (IsCut numbers.new.items) }
{
    match read_step(pieces, numbers)? {
        Some(count) => Ok(Some(Line::Step(count))),
        None => Ok(None),
    }
}

/// What a line of a fixed number of tokens says, if anything.
fn short_line<'a>(kind: LineKind, pieces: &[Piece<'a>]) -> Option<Line<'a>>
    requires { is_short kind ≡ true }
    ensures item { (w : List ℕ) (numbers : List ℤ) → item_by kind w (map said pieces.now) ≡ item_said numbers result }
    ensures cut { (numbers : List ℤ) → IsCut numbers result }
{
    match kind {
        LineKind::Suite => match number_of(pieces) {
            Some(1) => Some(Line::Suite),
            _ => None,
        },
        LineKind::Input => match input_of(pieces) {
            Some((name, low, high)) => Some(Line::Input(name, low, high)),
            None => None,
        },
        LineKind::Output => match output_of(pieces) {
            Some(name) => Some(Line::Output(name)),
            None => None,
        },
        LineKind::Bound => match number_of(pieces) {
            Some(m) => Some(Line::Bound(m)),
            None => None,
        },
        LineKind::States => match number_of(pieces) {
            Some(n) => Some(Line::States(n)),
            None => None,
        },
        _ => match number_of(pieces) {
            Some(count) => Some(Line::End(count)),
            None => None,
        },
    }
}

/// What the tokens of a line say, with its numbers, which are put in place of others.
pub(crate) fn line_of<'a>(
    pieces: &[Piece<'a>],
    numbers: &mut Vec<i64>,
) -> Result<Option<Line<'a>>, AllocError>
    ensures item { IfOk result (λ l. item_of (map said pieces.now) ≡ item_said numbers.new.items l) }
    ensures cut { IfOk result (IsCut numbers.new.items) }
{
    match pieces {
        [] => Ok(None),
        [first, rest @ ..] => match first {
            Piece::Number(_) => step_line(pieces, numbers),
            Piece::Word(word) => match kind_of(word) {
                LineKind::Step => step_line(pieces, numbers),
                LineKind::Class => list_line(Line::Class, rest, numbers),
                LineKind::Cover => list_line(Line::Cover, rest, numbers),
                LineKind::Mark => list_line(Line::Mark, rest, numbers),
                LineKind::Test => list_line(Line::Test, rest, numbers),
                kind => Ok(short_line(kind, rest)),
            },
        },
    }
}
