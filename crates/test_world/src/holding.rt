//! A writer before which bytes are held back, so that many small pieces are one write.
ghost use Rattle.std.specs.Prelude.{◌≡◌, ◌<◌, ◌≤◌, [], ◌++◌, length, take, drop, OnOk, OnErr, IfOk};
ghost use Rattle.std.specs.Io.KnownBytes.{Keeps, Appends, append_known};
ghost use Rattle.test_world.specs.Count.{raised};
ghost use Rattle.test_world.specs.inside.Holding.{all_taken};

use crate::count::failed;
use crate::shelf::Fault;
use std::io::Write;
use std::marker::Model;

/// How many bytes are held back at most.
pub(crate) const MOST_HELD: usize = 8192;

/// A writer before which at most `room` bytes are held back. Those between `start` and `end` are
/// held. After a write that failed they stay held, but for what was written of them.
#[derive(Drop)]
pub(crate) struct HoldingWriter<W: Write> {
    writer: W,
    held: [u8; 8192],
    start: usize,
    end: usize,
    room: usize,
    faults: u64,
}

impl<W: Write> Model for HoldingWriter<W> {
    ghost use Rattle.std.specs.Prelude.{◌≤◌, ◌-◌, take, drop};
    ghost use Rattle.test_world.specs.inside.Holding.{Holding};

    ghost Value = { Holding };

    ghost view = { λ w. record {
      written = W.contents w.writer;
      held = drop w.start (take w.end w.held);
      free = w.room - w.end;
      faults = w.faults;
    } };

    ghost invariant = { λ w. (w.start ≤ w.end) × (w.end ≤ w.room) × (w.room ≤ 8192) };
}

// Writes some of the bytes, at least one. A write that takes nothing is a failure.
fn write_some<W: Write>(writer: &mut W, bytes: &[u8], faults: &mut u64) -> Result<usize, Fault>
    ensures some { IfOk result (λ n. 0 < n) }
    ensures within { IfOk result (λ n. n ≤ length bytes.now) }
    ensures wrote { IfOk result (λ n.
        Appends (W.contents writer.old) (W.contents writer.new) (take n bytes.now)) }
    ensures kept { OnErr result (Keeps (W.contents writer.old) (W.contents writer.new)) }
    ensures ok { OnOk result (faults.new ≡ faults.old) }
    ensures err { OnErr result (faults.new ≡ raised faults.old) }
{
    match writer.write(bytes) {
        Ok(0) | Err(_) => Err(failed(faults)),
        Ok(count) => Ok(count),
    }
}

// Writes the bytes from `start` on, and moves `start` behind what was written.
fn write_rest<W: Write>(
    writer: &mut W,
    bytes: &[u8],
    start: &mut usize,
    faults: &mut u64,
) -> Result<(), Fault>
    requires { start.old ≤ length bytes.now }
    ensures within { start.new ≤ length bytes.now }
    ensures whole { OnOk result (start.new ≡ length bytes.now) }
    // What is written and what is left of the bytes are together as before.
    ensures kept { Keeps (append_known (W.contents writer.old) (drop start.old bytes.now))
        (append_known (W.contents writer.new) (drop start.new bytes.now)) }
    ensures ok { OnOk result (faults.new ≡ faults.old) }
    ensures err { OnErr result (faults.new ≡ raised faults.old) }
{
    while *start < bytes.len() {
        let count = write_some(writer, &bytes[*start..], faults)?;
        *start += count;
    }
    Ok(())
}

impl<W: Write> HoldingWriter<W> {
    /// A writer before which at most `room` bytes are held back.
    pub(crate) fn new(writer: W, room: usize) -> HoldingWriter<W>
        requires { room ≤ 8192 }
        ensures { result ≡ record { written = W.contents writer; held = []; free = room; faults = 0 } }
    {
        HoldingWriter {
            writer,
            held: [0; 8192],
            start: 0,
            end: 0,
            room,
            faults: 0,
        }
    }

    /// Takes some of `bytes`, at least one: all of them where there is room to hold them back, and
    /// else what one write takes, after what is held.
    pub(crate) fn put(&mut self, bytes: &[u8]) -> Result<usize, Fault>
        requires { 0 < length bytes.now }
        ensures some { IfOk result (λ n. 0 < n) }
        ensures within { IfOk result (λ n. n ≤ length bytes.now) }
        ensures took { IfOk result (λ n. Appends (all_taken self.old) (all_taken self.new) (take n bytes.now)) }
        ensures kept { OnErr result (Keeps (all_taken self.old) (all_taken self.new)) }
        ensures ok { OnOk result (self.new.faults ≡ self.old.faults) }
        ensures err { OnErr result (self.new.faults ≡ raised self.old.faults) }
    {
        if bytes.len() <= self.room - self.end {
            return Ok(self.hold(bytes));
        }
        self.flush()?;
        if bytes.len() > self.room {
            return write_some(&mut self.writer, bytes, &mut self.faults);
        }
        self.start = 0;
        self.end = 0;
        Ok(self.hold(bytes))
    }

    // Holds these bytes back.
    fn hold(&mut self, bytes: &[u8]) -> usize
        requires { length bytes.now ≤ self.old.free }
        ensures count { result ≡ length bytes.now }
        ensures held { self.new.held ≡ self.old.held ++ bytes.now }
        ensures written { self.new.written ≡ self.old.written }
        ensures faults { self.new.faults ≡ self.old.faults }
    {
        let end = self.end + bytes.len();
        self.held[self.end..end].copy_from_slice(bytes);
        self.end = end;
        bytes.len()
    }

    /// Writes all that is held back.
    pub(crate) fn flush(&mut self) -> Result<(), Fault>
        ensures empty { OnOk result (self.new.held ≡ []) }
        ensures kept { Keeps (all_taken self.old) (all_taken self.new) }
        ensures ok { OnOk result (self.new.faults ≡ self.old.faults) }
        ensures err { OnErr result (self.new.faults ≡ raised self.old.faults) }
    {
        let mut start = self.start;
        let written = write_rest(
            &mut self.writer,
            &self.held[..self.end],
            &mut start,
            &mut self.faults,
        );
        self.start = start;
        written
    }

    /// The writer, without what is still held back.
    #[cfg(test)]
    pub(crate) fn into_writer(self) -> W {
        self.writer
    }
}
