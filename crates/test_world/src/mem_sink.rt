//! A sink in memory, whose faults are planned.
ghost use Rattle.std.specs.Prelude.{◌≡◌, ◌<◌, ◌⊎◌, ◌↔◌, min, [], ◌++◌, length, take, All, IsErr, OnOk, OnErr, IfOk};
ghost use Rattle.test_world.specs.Count.{greatest_count, raised};
ghost use Rattle.test_world.specs.Memory.{room_left, FailsAfter};

use crate::count::{begin_call, failed};
use crate::shelf::Fault;
use crate::sink::Sink;
use std::alloc::{AllocError, Global};
use std::marker::Model;

/// A sink that keeps what it takes in memory. Its puts count from 1, and those whose numbers were
/// named as bad fail.
#[derive(Drop)]
pub struct MemSink {
    bytes: Vec<u8>,
    room: usize,
    bad: Vec<u64>,
    chunk: usize,
    puts: u64,
    faults: u64,
}

impl Model for MemSink {
    ghost use Rattle.std.specs.Prelude.{◌<◌, ◌≤◌, All, vec_len, vec_capacity};
    ghost use Rattle.test_world.specs.Memory.{MemorySink};

    ghost Value = { MemorySink };

    ghost view = { λ s. record {
      taken = s.bytes.items;
      room = s.room;
      bad = s.bad.items;
      chunk = s.chunk;
      puts = s.puts;
      faults = s.faults;
    } };

    ghost invariant = { λ s.
        (0 < s.chunk) × (vec_len s.bytes ≤ s.room) × (s.room ≤ vec_capacity s.bytes) };
}

impl MemSink {
    /// An empty sink with room for `room` bytes, all reserved here. A put takes at most `chunk`
    /// bytes.
    pub fn new(
        alloc: Global,
        room: usize,
        bad: Vec<u64>,
        chunk: usize,
    ) -> Result<MemSink, AllocError>
        requires some { 0 < chunk }
        requires numbers { All (λ number. number < greatest_count) bad.items }
        ensures { IfOk result (λ sink. sink ≡ record {
          taken = [];
          room = room;
          bad = bad.items;
          chunk = chunk;
          puts = 0;
          faults = 0;
        }) }
    {
        let bytes = Vec::with_capacity(alloc, room)?;
        Ok(MemSink {
            bytes,
            room,
            bad,
            chunk,
            puts: 0,
            faults: 0,
        })
    }

    /// The bytes taken so far.
    pub fn taken(&self) -> &[u8]
        ensures { result.now ≡ self.now.taken }
    {
        &self.bytes
    }
}

impl Sink for MemSink {
    ghost use Rattle.std.specs.Prelude.{Some};

    ghost state = { λ sink. record { taken = Some (sink.taken); faults = sink.faults; puts = sink.puts } };

    fn put(&mut self, bytes: &[u8]) -> Result<usize, Fault>
        requires { 0 < length bytes.now }
        ensures some { IfOk result (λ n. 0 < n) }
        ensures fails { IsErr result
            ↔ (FailsAfter self.old.puts self.old.bad ⊎ (room_left self.old ≡ 0)) }
        ensures count { IfOk result (λ n.
            n ≡ min (min (length bytes.now) (room_left self.old)) self.old.chunk) }
        ensures ok { IfOk result (λ n. self.new ≡ record self.old {
          taken = self.old.taken ++ take n bytes.now;
          puts = raised self.old.puts;
        }) }
        ensures err { OnErr result (self.new ≡ record self.old {
          puts = raised self.old.puts;
          faults = raised self.old.faults;
        }) }
    {
        begin_call(&mut self.puts, &self.bad, &mut self.faults)?;
        let left = self.room - self.bytes.len();
        if left == 0 {
            return Err(failed(&mut self.faults));
        }
        let count = bytes.len().min(left).min(self.chunk);
        match self.bytes.extend_from_slice(&bytes[..count]) {
            Ok(()) => Ok(count),
            Err(_) => unreachable!(),
        }
    }
}
