//! One wire in memory: what is left of its reads and writes, and what was written on it.

ghost use Rattle.std.specs.Prelude.{◌≡◌, ◌+◌, ◌-◌, ◌≤◌, ◌++◌, ℕ, min, take, drop, length, IfOk, Ok};
ghost use Rattle.hw_door.specs.Lines.{LineLeft};
ghost use Rattle.hw_door.specs.Traffic.{CountsWithin, read_answer};
ghost use Rattle.hw_door.specs.Wires.{wire_of, first_size, read_of, most_taken, with_read, with_written, with_shut};

use crate::memory_wire::{MemoryWire, WireGiven};
use crate::wires::WireRead;
use std::alloc::{AllocError, Global};
use std::collections::VecDeque;
use std::marker::Model;

#[derive(Drop)]
pub struct Line {
    since: u64,
    reads: VecDeque<WireGiven>,
    // How many bytes of the first of `reads` were read.
    begun: usize,
    writes: VecDeque<usize>,
    is_shut: bool,
    written: Vec<u8>,
    room: usize,
}

impl Model for Line {
    ghost use Rattle.std.specs.Prelude.{◌≡◌, ◌+◌, ◌≤◌, length, vec_capacity};
    ghost use Rattle.hw_door.specs.Lines.{LineLeft};
    ghost use Rattle.hw_door.specs.Wires.{without_first};

    ghost Value = { LineLeft };

    ghost view = { λ l. record {
      wire = record {
        since = l.since;
        reads = without_first l.begun l.reads.items;
        writes = l.writes.items;
        is_shut = l.is_shut;
        written = l.written.items;
      };
      room = l.room;
    } };

    ghost invariant = { λ l. length l.written.items + l.room ≤ vec_capacity l.written };
}

/// Copies as much as there is room for, and answers how much.
fn copy_front(bytes: &[u8], buf: &mut [u8]) -> usize
    ensures count { result ≡ min (length bytes.now) (length buf.old) }
    ensures front { take result buf.new ≡ take (length buf.old) bytes.now }
{
    let count = bytes.len().min(buf.len());
    buf[..count].copy_from_slice(&bytes[..count]);
    count
}

/// What is left of bytes of which this many were read.
fn rest_of(bytes: &[u8], begun: usize) -> &[u8]
    ensures { result.now ≡ drop begun bytes.now }
{
    if begun >= bytes.len() {
        return &[];
    }
    &bytes[begun..]
}

/// How many bytes the first has.
fn first_size(reads: &VecDeque<WireGiven>) -> usize
    ensures { result ≡ first_size reads.now.items }
{
    match reads.front() {
        Some(WireGiven::Bytes(bytes)) => bytes.bytes().len(),
        Some(WireGiven::NotYet) => 0,
        Some(WireGiven::Ended) => 0,
        None => 0,
    }
}

impl Line {
    /// Reserves room for so many bytes that are written.
    pub fn start(alloc: Global, wire: MemoryWire, room: usize) -> Result<Line, AllocError>
        ensures { IfOk result (λ line. line ≡ record { wire = wire_of wire; room = room }) }
    {
        let written = Vec::with_capacity(alloc, room)?;
        Ok(Line {
            since: wire.from,
            reads: VecDeque::from_vec(wire.reads),
            begun: 0,
            writes: VecDeque::from_vec(wire.writes),
            is_shut: false,
            written,
            room,
        })
    }

    /// The moment from which it may be accepted.
    pub fn since(&self) -> u64
        ensures { result ≡ self.now.wire.since }
    {
        self.since
    }

    pub fn is_shut(&self) -> bool
        ensures { result ≡ self.now.wire.is_shut }
    {
        self.is_shut
    }

    pub fn written(&self) -> &[u8]
        ensures { result.now ≡ self.now.wire.written }
    {
        self.written.as_slice()
    }

    /// What the next read gives, which stays.
    pub fn peek(&self, buf: &mut [u8]) -> WireRead
        ensures count { CountsWithin result (length buf.new) }
        ensures gives { (wire : ℕ) → read_answer wire buf.new (Ok result) ≡ read_of wire (length buf.old) self.now.wire.reads }
    {
        match self.reads.front() {
            Some(WireGiven::Bytes(bytes)) => {
                let rest = rest_of(bytes.bytes(), self.begun);
                let count = copy_front(rest, buf);
                WireRead::Some(count)
            }
            Some(WireGiven::NotYet) => WireRead::NotYet,
            Some(WireGiven::Ended) => WireRead::Ended,
            None => WireRead::NotYet,
        }
    }

    /// Takes what a read gave, which has this many bytes.
    pub fn read(&mut self, count: usize)
        ensures { self.new ≡ record self.old { wire = with_read count self.old.wire } }
    {
        let left = first_size(&self.reads).saturating_sub(self.begun);
        if count < left {
            self.begun += count;
            return;
        }
        let _ = self.reads.pop_front();
        self.begun = 0;
    }

    /// How many bytes a write takes at most.
    pub fn most_taken(&self) -> usize
        ensures { result ≡ most_taken self.now.wire.writes }
    {
        match self.writes.front() {
            Some(most) => *most,
            None => 0,
        }
    }

    /// Takes what is written.
    pub fn write(&mut self, bytes: &[u8])
        requires room { length bytes.now ≤ self.old.room }
        ensures { self.new ≡ record {
          wire = with_written bytes.now self.old.wire;
          room = self.old.room - length bytes.now;
        } }
    {
        self.written.extend_from_slice(bytes).unwrap();
        self.room -= bytes.len();
        let _ = self.writes.pop_front();
    }

    pub fn shut(&mut self)
        ensures { self.new ≡ record self.old { wire = with_shut self.old.wire } }
    {
        self.is_shut = true;
    }
}
