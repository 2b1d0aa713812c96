ghost use Rattle.std.specs.Prelude.{◌≡◌, ◌≤◌, ◌+◌, ◌*◌, [], ◌∷◌, ◌++◌, length};
ghost use Rattle.std.specs.Fmt.{decimal, signed_decimal};
ghost use Rattle.command_stages.specs.Report.{said, at_line, numbered, below};
ghost use Rattle.command_stages.specs.Numbers.{after_spaces, spaced, line_of};

use crate::stop::Stop;
use itoa::Buffer;
use std::marker::Model;

/// What ends a line.
const LINE_FEED: &[u8] = b"\n";

/// A line that is made in place: at most 320 bytes.
#[derive(Drop)]
pub struct Line {
    bytes: [u8; 320],
    length: usize,
}

impl Model for Line {
    ghost use Rattle.std.specs.Prelude.{◌≤◌, ℕ, List, take, length};

    ghost Value = { List ℕ };

    ghost view = { λ line. take line.length line.bytes };

    ghost invariant = { λ line. line.length ≤ 320 };
}

impl Line {
    /// An empty line.
    pub fn new() -> Line
        ensures { result ≡ [] }
    {
        Line {
            bytes: [0; 320],
            length: 0,
        }
    }

    /// Takes all bytes away.
    pub fn clear(&mut self)
        ensures { self.new ≡ [] }
    {
        self.length = 0;
    }

    /// The bytes of the line.
    pub fn bytes(&self) -> &[u8]
        ensures { result.now ≡ self.now }
    {
        &self.bytes[..self.length]
    }

    /// Adds these bytes.
    pub fn push(&mut self, more: &[u8])
        requires { length self.old + length more.now ≤ 320 }
        ensures { self.new ≡ self.old ++ more.now }
    {
        let end = self.length + more.len();
        self.bytes[self.length..end].copy_from_slice(more);
        self.length = end;
    }

    fn push_number(&mut self, number: i64)
        requires { length self.old + 20 ≤ 320 }
        ensures bytes { self.new ≡ self.old ++ signed_decimal number }
        ensures short { length self.new ≤ length self.old + 20 }
    {
        let mut buffer = Buffer::new();
        self.push(buffer.format(number).as_bytes());
    }

    /// Adds numbers, each with a space before it.
    pub fn push_numbers(&mut self, numbers: &[i64])
        requires { length self.old + 21 * length numbers.now ≤ 320 }
        ensures bytes { self.new ≡ self.old ++ after_spaces numbers.now }
        ensures short { length self.new ≤ length self.old + 21 * length numbers.now }
    {
        for number in numbers {
            self.push(b" ");
            self.push_number(*number);
        }
    }

    /// Adds a number in decimal digits.
    pub fn push_decimal(&mut self, number: usize)
        requires { length self.old + 20 ≤ 320 }
        ensures bytes { self.new ≡ self.old ++ decimal number }
        ensures short { length self.new ≤ length self.old + 20 }
    {
        let mut buffer = Buffer::new();
        self.push(buffer.format(number).as_bytes());
    }

    fn push_place(&mut self, line: Option<usize>)
        requires { length self.old + 21 ≤ 320 }
        ensures bytes { self.new ≡ self.old ++ at_line line }
        ensures short { length self.new ≤ length self.old + 21 }
    {
        if let Some(line) = line {
            self.push(b":");
            self.push_decimal(line);
        }
    }

    fn push_numbered(&mut self, number: Option<usize>)
        requires { length self.old + 20 ≤ 320 }
        ensures bytes { self.new ≡ self.old ++ numbered number }
        ensures short { length self.new ≤ length self.old + 20 }
    {
        if let Some(number) = number {
            self.push_decimal(number);
        }
    }

    fn push_below(&mut self, bounds: Option<(usize, usize)>)
        requires { length self.old + 50 ≤ 320 }
        ensures bytes { self.new ≡ self.old ++ below bounds }
        ensures short { length self.new ≤ length self.old + 50 }
    {
        if let Some((bound, states)) = bounds {
            self.push_decimal(bound);
            self.push(b" below ");
            self.push_decimal(states);
        }
    }

    /// Makes what the line on `err` says after the name.
    pub fn set_said(&mut self, stop: Stop)
        ensures { self.new ≡ said stop }
    {
        self.clear();
        self.push_place(stop.line());
        self.push(stop.before());
        self.push(stop.word());
        self.push_numbered(stop.number());
        self.push_below(stop.bounds());
        self.push(LINE_FEED);
    }

    /// Makes the line of some numbers: one space between them, and a line feed.
    pub fn set_numbers(&mut self, numbers: &[i64])
        requires { length numbers.now ≤ 8 }
        ensures { self.new ≡ line_of numbers.now }
    {
        self.clear();
        if numbers.len() > 0 {
            self.push_number(numbers[0]);
            self.push_numbers(&numbers[1..]);
        }
        self.push(LINE_FEED);
    }
}
