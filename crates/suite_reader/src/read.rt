//! A suite's text, line by line.
ghost use Rattle.std.specs.Prelude.{◌≡◌, ◌≤◌, length, IfOk, IfErr};
ghost use Rattle.strict_lines.specs.Lines.{line_tokens};
ghost use Rattle.suite_reading.specs.Reading.{ReadsSuite};
ghost use Rattle.suite_reading.specs.inside.Said.{item_of};
ghost use Rattle.suite_reading.specs.inside.Kept.{Kept};
ghost use Rattle.suite_reader.specs.Errors.{IsRefusedBy, error_at};
ghost use Rattle.suite_reader.specs.inside.Reader.{IsAnswered, IsEnd};

use crate::SuiteError;
use crate::error::LineError;
use crate::line::line_of;
use crate::reader::Reader;
use std::alloc::Global;
use strict_lines::{Piece, next_byte, pieces_of};
use suite_model::Suite;
use suite_reading::{Cause, SuiteKind};

fn refused(line: usize, error: LineError) -> SuiteError
    ensures { result ≡ error_at line error }
{
    match error {
        LineError::Refused(Cause::Fault(kind)) => SuiteError::Fault { line, kind },
        LineError::Refused(Cause::Limit(which)) => SuiteError::Limit { line, which },
        LineError::Memory => SuiteError::Memory,
    }
}

/// The suite where nothing is left of a text after its end line.
fn suite_at_end(reader: Reader, left: usize, line: usize) -> Result<Suite, SuiteError>
    requires { Kept reader }
    ensures { IsEnd reader left line result }
{
    if left > 0 || !reader.is_ended() {
        let kind = SuiteKind::End;
        return Err(SuiteError::Fault { line, kind });
    }
    Ok(reader.into_suite())
}

/// Takes a line. The places for its tokens and its numbers are used again for each line.
fn take_line<'a>(
    alloc: Global,
    line: &'a [u8],
    pieces: &mut Vec<Piece<'a>>,
    numbers: &mut Vec<i64>,
    reader: &mut Reader,
) -> Result<(), LineError>
    requires { Kept reader.old }
    ensures { IsAnswered reader.old (item_of (line_tokens line.now)) reader.new result }
{
    match pieces_of(line, pieces) {
        Ok(()) => {}
        Err(_) => return Err(LineError::Memory),
    }
    match line_of(pieces, numbers) {
        Ok(said) => reader.take(alloc, said, numbers),
        Err(_) => Err(LineError::Memory),
    }
}

/// The suite that a text says, of at most 16,777,216 bytes. It reads the text once.
pub fn read_suite(alloc: Global, text: &[u8]) -> Result<Suite, SuiteError>
    requires { length text.now ≤ 16777216 }
    ensures read { IfOk result (ReadsSuite text.now) }
    ensures refused { IfErr result (IsRefusedBy text.now) }
{
    let mut reader = match Reader::new(alloc) {
        Ok(reader) => reader,
        Err(_) => return Err(SuiteError::Memory),
    };
    let mut pieces = Vec::new(alloc);
    let mut numbers = Vec::new(alloc);
    let mut from = 0;
    let mut line = 1;
    'lines: loop {
        let end = next_byte(text, from, b'\n');
        if end == text.len() {
            return suite_at_end(reader, end - from, line);
        }
        match take_line(
            alloc,
            &text[from..end],
            &mut pieces,
            &mut numbers,
            &mut reader,
        ) {
            Ok(()) => {}
            Err(error) => return Err(refused(line, error)),
        }
        from = end + 1;
        line += 1;
    }
}
