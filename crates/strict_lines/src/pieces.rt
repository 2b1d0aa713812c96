//! The pieces of a line, each read as a token.
ghost use Rattle.std.specs.Prelude.{◌≡◌, ◌≤◌, map, length, OnOk};
ghost use Rattle.strict_lines.specs.Lines.{line_tokens, token_of};
ghost use Rattle.strict_lines.specs.Pieces.{said};
ghost use Rattle.strict_lines.specs.inside.Places.{IsNext};

use crate::numbers::read;
use std::alloc::AllocError;

/// What stands between two spaces: a number or other bytes. A number above 1,000,000,000,000 in absolute value stands as
/// the least of these.
#[derive(Clone, Copy, Drop)]
pub enum Piece<'a> {
    Number(i64),
    Word(&'a [u8]),
}

fn piece_of(bytes: &[u8]) -> Piece
    ensures { said result ≡ token_of bytes.now }
{
    match read(bytes) {
        Some(value) => Piece::Number(value),
        None => Piece::Word(bytes),
    }
}

/// The first place of a byte at or after a place, or the end.
pub fn next_byte(bytes: &[u8], from: usize, byte: u8) -> usize
    requires { from ≤ length bytes.now }
    ensures { IsNext byte bytes.now from result }
{
    let mut at = from;
    while at < bytes.len() && bytes[at] != byte {
        at += 1;
    }
    at
}

/// Puts the pieces of a line in place of others.
pub fn pieces_of<'a>(line: &'a [u8], pieces: &mut Vec<Piece<'a>>) -> Result<(), AllocError>
    ensures { OnOk result (map said pieces.new.items ≡ line_tokens line.now) }
{
    pieces.clear();
    let mut from = 0;
    loop {
        let end = next_byte(line, from, b' ');
        pieces.push(piece_of(&line[from..end]))?;
        if end == line.len() {
            return Ok(());
        }
        from = end + 1;
    }
}
