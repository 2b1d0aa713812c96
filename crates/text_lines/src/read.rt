ghost use Rattle.std.specs.Prelude.{◌≡◌, ℕ, List, Option, None, Result, IfOk, IfErr, OnOk};
ghost use Rattle.text_lines.specs.Lines.{lines_of};
ghost use Rattle.text_lines.specs.Reading.{Leads, Refuses, Takes, IsRefusedAt};

use crate::line::next_line;
use std::alloc::Global;

/// Why a line is not taken.
#[derive(Debug, Drop)]
pub enum LineError<K> {
    Refused(K),
    Memory,
}

/// Why a text is not read: what refuses the line with this number, from 1, or the end, whose number is the one
/// after the
/// last line's; or want of memory.
#[derive(Debug, Drop)]
pub enum TextError<K> {
    Refused(usize, K),
    Memory,
}

/// What reads a text line by line. Contracts see it as a state, of which something is kept from line to line.
pub trait TextReader {
    type Refusal;

    ghost State: { Type 0 };

    ghost state: { Self → State };

    ghost Kept: { State → Type 0 };

    ghost Step: { State → List ℕ → Result State Self.Refusal → Type 0 };

    ghost end: { State → Option Self.Refusal };

    /// Takes a line after those that were taken.
    fn take(&mut self, alloc: Global, line: &[u8]) -> Result<(), LineError<Self::Refusal>>
        requires { Kept (state self.old) }
        ensures line { Takes Step (state self.old) (state self.new) line.now result }
        ensures kept { OnOk result (Kept (state self.new)) };

    /// What is missing at the end.
    fn end(&self) -> Option<Self::Refusal>
        ensures { result ≡ end (state self.now) };
}

/// Reads the lines of a text and checks its end.
pub fn read_text<R: TextReader>(
    alloc: Global,
    text: &[u8],
    reader: &mut R,
) -> Result<(), TextError<R::Refusal>>
    requires { R.Kept (R.state reader.old) }
    ensures read { OnOk result (Leads R.Step (R.state reader.old) (lines_of text.now) (R.state reader.new)) }
    ensures ended { OnOk result (R.end (R.state reader.new) ≡ None) }
    ensures kept { OnOk result (R.Kept (R.state reader.new)) }
    ensures refused { IfErr result (IsRefusedAt (Refuses R.Step R.end (R.state reader.old) text.now)) }
{
    let mut rest = text;
    let mut number = 1;
    'lines: while !rest.is_empty() {
        let (line, after) = next_line(rest);
        match reader.take(alloc, line) {
            Ok(()) => {}
            Err(LineError::Refused(refusal)) => return Err(TextError::Refused(number, refusal)),
            Err(LineError::Memory) => return Err(TextError::Memory),
        }
        rest = after;
        number += 1;
    }
    match reader.end() {
        None => Ok(()),
        Some(refusal) => Err(TextError::Refused(number, refusal)),
    }
}
