//! Sinks: where bytes are written to.
ghost use Rattle.std.specs.Prelude.{◌≡◌, ◌+◌, ◌<◌, ◌≤◌, length, take, OnErr, IfOk};
ghost use Rattle.test_world.specs.Count.{Rose};
ghost use Rattle.test_world.specs.Sink.{SinkState, Grows, Puts, HandsOn};

use crate::shelf::Fault;

/// A sink takes bytes, and keeps their order.
pub trait Sink {
    // The bytes taken so far, if the sink tells them, its faults and its puts.
    ghost state: { Self → SinkState };

    /// Takes some of `bytes`, at least one, from the front, and answers how many. A put that fails
    /// takes none.
    fn put(&mut self, bytes: &[u8]) -> Result<usize, Fault>
        requires { 0 < length bytes.now }
        ensures some { IfOk result (λ n. 0 < n) }
        ensures within { IfOk result (λ n. n ≤ length bytes.now) }
        ensures ok { IfOk result (λ n. Grows (state self.old) (state self.new) (take n bytes.now)) }
        ensures err { OnErr result ((state self.new).taken ≡ (state self.old).taken) }
        ensures later { (state self.old).faults ≤ (state self.new).faults }
        ensures fault { OnErr result (Rose (state self.old).faults (state self.new).faults) }
        ensures one_put { (state self.new).puts ≤ (state self.old).puts + 1 };

    /// Hands on what was taken and is still held back.
    fn flush(&mut self) -> Result<(), Fault>
        ensures { HandsOn (state self.old) (state self.new) result }
    {
        Ok(())
    }
}

/// Puts all of `bytes`, or as many of them as the sink takes before a put fails. There are at most
/// as many puts as bytes.
pub fn put_all<K: Sink>(sink: &mut K, bytes: &[u8]) -> Result<(), Fault>
    ensures put { Puts (K.state sink.old) (K.state sink.new) bytes.now result }
    ensures few_puts { (K.state sink.new).puts ≤ (K.state sink.old).puts + length bytes.now }
{
    let mut done = 0;
    while done < bytes.len() {
        let count = sink.put(&bytes[done..])?;
        done += count;
    }
    Ok(())
}
