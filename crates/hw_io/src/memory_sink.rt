//! A sink in memory, for tests.

ghost use Rattle.std.specs.Prelude.{◌≡◌, ◌+◌, ◌-◌, ◌^◌, ◌<◌, ◌≤◌, ◌↔◌, ◌++◌, ◌⊎◌, [], length, take, Contains, IsErr, IfOk, OnOk, OnErr, Some};
ghost use Rattle.hd_facts.specs.Counts.{CountsFailure, HasCause};
ghost use Rattle.hd_facts.specs.Writes.{PutAppends};
ghost use Rattle.hw_io.specs.Memory.{MemoryOutput, SinkFails, sink_after_failure, sink_after_taking};

use crate::failing::is_to_fail;
use crate::traits::{Failed, Sink};
use std::alloc::{AllocError, Global};
use std::marker::Model;

/// A sink in memory, for tests: it keeps the bytes that it takes, up to a limit, and fails at the
/// calls of chosen numbers.
///
/// The calls of `put` are counted from 0, those that fail among them. The count holds 64 bits
/// and stays at 2^64 - 1.
#[derive(Drop)]
pub struct MemorySink {
    bytes: Vec<u8>,
    room: usize,
    failing: Vec<u64>,
    calls: u64,
    faults: u64,
}

impl Model for MemorySink {
    ghost use Rattle.std.specs.Prelude.{◌≤◌, length, vec_capacity};
    ghost use Rattle.hw_io.specs.Memory.{MemoryOutput};

    ghost Value = { MemoryOutput };

    ghost view = { λ s. record {
      holds = s.bytes.items;
      room = s.room;
      failing = s.failing.items;
      calls = s.calls;
      faults = s.faults;
    } };

    ghost invariant = { λ s. (length s.bytes.items ≤ s.room) × (s.room ≤ vec_capacity s.bytes) };
}

impl MemorySink {
    /// Makes a sink with room for `room` bytes, which it reserves, and that fails at the calls of
    /// the numbers in `failing`, in any order.
    pub fn start(alloc: Global, room: usize, failing: Vec<u64>) -> Result<MemorySink, AllocError>
        ensures { IfOk result (λ s. s ≡ record {
          holds = [];
          room = room;
          failing = failing.items;
          calls = 0;
          faults = 0;
        }) }
    {
        Ok(MemorySink {
            bytes: Vec::with_capacity(alloc, room)?,
            room,
            failing,
            calls: 0,
            faults: 0,
        })
    }

    /// Lends the bytes that it took, in order.
    pub fn bytes(&self) -> &[u8]
        ensures { result.now ≡ self.now.holds }
    {
        self.bytes.as_slice()
    }
}

impl Sink for MemorySink {
    ghost holds = { λ s. Some s.holds };

    ghost faults = { λ s. s.faults };

    /// Takes all of `bytes`, or none. It fails exactly at the calls that are to fail and where
    /// `bytes` is longer than the room that is left, and takes no memory.
    fn put(&mut self, bytes: &[u8]) -> Result<(), Failed>
        ensures bytes { PutAppends (Some self.old.holds) (Some self.new.holds) result bytes.now }
        ensures cause { HasCause self.old.faults self.new.faults result }
        ensures counted { CountsFailure self.old.faults self.new.faults result }
        ensures fails { IsErr result ↔ SinkFails self.old bytes.now }
        ensures failed { OnErr result (self.new ≡ sink_after_failure self.old) }
        ensures taken { OnOk result (self.new ≡ sink_after_taking bytes.now self.old) }
    {
        let call = self.calls;
        self.calls = call.saturating_add(1);
        if is_to_fail(&self.failing, call) || self.room - self.bytes.len() < bytes.len() {
            self.faults = self.faults.saturating_add(1);
            return Err(Failed);
        }
        self.bytes.extend_from_slice(bytes).unwrap();
        Ok(())
    }
}
