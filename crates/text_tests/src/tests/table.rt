//! Tables of texts and what is wanted of each: a line for each text, with ` | ` between the two.
//!
//! In a table `/` is a line feed, and `{N:PIECE}` is the piece N times, where an `@` in it stands for how often it came
//! before.
use super::describe::{
    chart_answer, cuts_reading, guard_reading, table_reading, token_reading, transitions_of,
    word_reading,
};
use chart_syntax::Chart;
use lin_form::Signature;
use std::alloc::{AllocError, Global};
use std::process::Abort;

/// What a text is read as, and what is told of it.
#[derive(Clone, Copy)]
pub enum Asked<'a> {
    /// Whether it is a chart.
    Chart,
    /// The transitions of the chart.
    Transitions,
    /// The vectors of the word over a chart.
    Word(&'a Chart),
    /// The tokens of the line.
    Tokens,
    /// The guard over the inputs of a signature from the token with this number on.
    Guard(&'a Signature, usize),
    /// The cuts over the inputs of a chart.
    Cuts(&'a Chart),
    /// The numbers of a table, and the replies of its states.
    Table,
}

fn push_piece(text: &mut String, piece: &str) -> Result<(), AllocError> {
    for character in piece.chars() {
        if character == '/' {
            text.push('\n')?;
        } else {
            text.push(character)?;
        }
    }
    Ok(())
}

fn push_pieces(text: &mut String, piece: &str, count: u64) -> Result<(), AllocError> {
    for number in 0..count {
        match piece.split_once('@') {
            Some((front, back)) => {
                push_piece(text, front)?;
                write!(text, "{number}")?;
                push_piece(text, back)?;
            }
            None => push_piece(text, piece)?,
        }
    }
    Ok(())
}

/// A piece as often as the number before it says.
fn push_counted(text: &mut String, counted: &str) -> Result<(), AllocError> {
    match counted.split_once(':') {
        Some((count, piece)) => match count.parse::<u64>() {
            Ok(count) => push_pieces(text, piece, count),
            Err(_) => Err(AllocError),
        },
        None => Err(AllocError),
    }
}

/// The text that a table writes so.
pub fn text_of(alloc: Global, written: &str) -> Result<String, AllocError> {
    let mut text = String::new(alloc);
    for part in written.split('{') {
        match part.split_once('}') {
            Some((counted, piece)) => {
                push_counted(&mut text, counted)?;
                push_piece(&mut text, piece)?;
            }
            None => push_piece(&mut text, part)?,
        }
    }
    Ok(text)
}

fn answer(alloc: Global, asked: &Asked, text: &str) -> Result<String, AllocError> {
    match asked {
        Asked::Chart => chart_answer(alloc, text),
        Asked::Transitions => transitions_of(alloc, text),
        Asked::Word(chart) => word_reading(alloc, text, chart),
        Asked::Tokens => token_reading(alloc, text),
        Asked::Guard(signature, at) => guard_reading(alloc, text, signature, *at),
        Asked::Cuts(chart) => cuts_reading(alloc, text, chart),
        Asked::Table => table_reading(alloc, text),
    }
}

/// That each row's text behind the front is told as wanted.
pub fn check(
    rt: &impl Abort,
    alloc: Global,
    asked: &Asked,
    front: &str,
    table: &str,
) -> Result<(), AllocError> {
    for row in table.lines() {
        if row.is_empty() {
            continue;
        }
        let Some((written, want)) = row.split_once(" | ") else {
            assert!(rt; false, "no row: {row}");
            continue;
        };
        let mut text = String::from_str(alloc, front)?;
        text.push_str(text_of(alloc, written)?.as_str())?;
        let found = answer(alloc, asked, text.as_str())?;
        assert_eq!(rt; found.as_str(), want, "{row}");
    }
    Ok(())
}
