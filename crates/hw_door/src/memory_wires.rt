//! Wires in memory, for tests.

ghost use Rattle.std.specs.Prelude.{◌≡◌, ◌+◌, ◌≤◌, ℕ, List, [], ◌∷◌, take, length, IfOk, Ok, slice_get, true};
ghost use Rattle.hd_facts.specs.Counts.{HasCause, one_more};
ghost use Rattle.hw_door.specs.Calls.{Adds};
ghost use Rattle.hw_door.specs.Ledger.{after_telling, answer_of, bytes_of, trace_of};
ghost use Rattle.hw_door.specs.Traffic.{CountsWithin, IsPolled, IsNewWire, poll_answer, accept_answer, connect_answer, read_answer, write_answer, accepted_wire, connected_wire, count_of, poll_failed, accept_failed, connect_failed, read_failed, write_failed, was_shut, written_on};
ghost use Rattle.hw_door.specs.Wires.{WiresState, IsRising, wires_of, written_of, is_to_fail, poll_next, accept_next, connect_next, read_next, write_next, answered, after_call, after_shut};

use crate::ledger::{Ledger, WireCall};
use crate::lines::Lines;
use crate::listed::is_listed;
use crate::memory_wire::MemoryWire;
use crate::moments::Moments;
use crate::wires::{WireRead, Wires};
use hw_io::Failed;
use std::alloc::{AllocError, Global};
use std::marker::Model;

/// Wires in memory, for tests: they give the moments and the wires that they were made with, keep what is written on each, and fail at
/// the calls of chosen numbers. No call but `start` takes memory.
///
/// The calls are counted from 0, those that fail and `shut` among them. A failed call takes nothing from the lists. All answers are
/// told, in room for as many calls and as many bytes as `start` was given, those read and those written together. From the first call
/// on that there is no room for, each call but `shut` fails, and nothing is told.
#[derive(Drop)]
pub struct MemoryWires {
    moments: Moments,
    lines: Lines,
    failing: Vec<u64>,
    ledger: Ledger,
    faults: u64,
}

impl Model for MemoryWires {
    ghost use Rattle.std.specs.Prelude.{◌≤◌};
    ghost use Rattle.hw_door.specs.Lines.{WritesAreTold};
    ghost use Rattle.hw_door.specs.Wires.{WiresState};

    ghost Value = { WiresState };

    ghost view = { λ w. record {
      moments = w.moments.left;
      moment = w.moments.last;
      wires = w.lines.wires;
      given = w.lines.given;
      failing = w.failing.items;
      ledger = w.ledger;
      faults = w.faults;
    } };

    ghost invariant = { λ w. (w.ledger.bytes_left ≤ w.lines.room) × WritesAreTold w.lines.wires w.ledger.answers };
}

/// How many bytes a read gave.
fn count_of(read: WireRead) -> usize
    ensures { result ≡ count_of read }
{
    match read {
        WireRead::Some(count) => count,
        WireRead::NotYet => 0,
        WireRead::Ended => 0,
    }
}

fn note_of(wire: u64, read: WireRead) -> WireCall
    ensures bytes { bytes_of result ≡ count_of read }
    ensures unwritten { (at : ℕ) (bytes : List ℕ) → written_on at (answer_of result bytes ∷ []) ≡ [] }
    ensures answer { (buf : List ℕ) → answer_of result (take (count_of read) buf) ≡ read_answer wire buf (Ok read) }
{
    match read {
        WireRead::Some(count) => WireCall::BytesIn(wire, count),
        WireRead::NotYet => WireCall::NotYet(wire),
        WireRead::Ended => WireCall::Ended(wire),
    }
}

impl MemoryWires {
    /// Makes wires that have these moments to poll, which never fall, and these wires to give, and that fail at the calls of the numbers
    /// in `failing`, in any order. It reserves room to tell so many calls, and so many bytes of them that are read or written.
    pub fn start(
        alloc: Global,
        moments: Vec<u64>,
        wires: Vec<MemoryWire>,
        failing: Vec<u64>,
        bytes: usize,
        calls: usize,
    ) -> Result<MemoryWires, AllocError>
        requires { IsRising 0 moments.items }
        ensures { IfOk result (λ w. w ≡ wires_of moments.items wires.items failing.items bytes calls) }
    {
        let lines = Lines::start(alloc, wires, bytes)?;
        let ledger = Ledger::start(alloc, calls, bytes)?;
        Ok(MemoryWires {
            moments: Moments::start(moments),
            lines,
            failing,
            ledger,
            faults: 0,
        })
    }

    /// Lends what was written on a wire, in order: nothing if there is no such wire.
    pub fn written(&self, wire: u64) -> &[u8]
        ensures left { result.now ≡ written_of (slice_get self.now.wires wire) }
        ensures trace { result.now ≡ written_on wire self.now.ledger.answers }
    {
        self.lines.written(wire)
    }

    /// Whether the next call is one that is to fail.
    fn is_to_fail(&self) -> bool
        ensures { result ≡ is_to_fail self.now }
    {
        is_listed(&self.failing, self.ledger.calls() as u64)
    }

    /// Fails this call, and tells it if there is room.
    fn fail(&mut self, note: WireCall) -> Failed
        requires { bytes_of note ≡ 0 }
        ensures { self.new ≡ record self.old {
          ledger = after_telling (answer_of note []) self.old.ledger;
          faults = one_more self.old.faults;
        } }
    {
        self.ledger.tell_or_fill(note);
        self.faults = self.faults.saturating_add(1);
        Failed
    }

    /// Fails this call, as there is no room for it, and all further ones.
    fn overrun(&mut self) -> Failed
        ensures { self.new ≡ record self.old {
          ledger = record self.old.ledger { is_full = true };
          faults = one_more self.old.faults;
        } }
    {
        self.ledger.fill();
        self.faults = self.faults.saturating_add(1);
        Failed
    }
}

impl Wires for MemoryWires {
    ghost trace = { λ w. trace_of w.ledger };

    ghost moment = { λ w. w.moment };

    ghost wires = { λ w. w.given };

    ghost faults = { λ w. w.faults };

    /// Answers the next moment, and once none is left the last one again.
    fn poll(&mut self, wait: u64) -> Result<u64, Failed>
        ensures later { IsPolled self.old.moment self.new.moment result }
        ensures wires { self.new.given ≡ self.old.given }
        ensures trace { Adds (trace_of self.old.ledger) (trace_of self.new.ledger) (poll_answer wait result) }
        ensures cause { HasCause self.old.faults self.new.faults result }
        ensures answers { poll_answer wait result ≡ answered (poll_failed wait) (poll_next wait self.old) self.old }
        ensures after { self.new ≡ after_call (poll_next wait self.old) self.old }
    {
        if self.is_to_fail() {
            return Err(self.fail(WireCall::PollFailed(wait)));
        }
        if !self.ledger.has_room(0) {
            return Err(self.overrun());
        }
        let now = self.moments.next();
        self.ledger.tell(WireCall::Polled(wait, now), &[]);
        Ok(now)
    }

    /// Gives the next wire, if the moment polled last is not before the one from which it may be accepted.
    fn accept(&mut self) -> Result<Option<u64>, Failed>
        ensures fresh { IsNewWire self.old.given self.new.given (accepted_wire result) }
        ensures others_unchanged { self.new.moment ≡ self.old.moment }
        ensures trace { Adds (trace_of self.old.ledger) (trace_of self.new.ledger) (accept_answer result) }
        ensures cause { HasCause self.old.faults self.new.faults result }
        ensures answers { accept_answer result ≡ answered accept_failed (accept_next self.old) self.old }
        ensures after { self.new ≡ after_call (accept_next self.old) self.old }
    {
        if self.is_to_fail() {
            return Err(self.fail(WireCall::AcceptFailed));
        }
        if !self.ledger.has_room(0) {
            return Err(self.overrun());
        }
        let wire = self.lines.accept(self.moments.last());
        self.ledger.tell(WireCall::Accepted(wire), &[]);
        Ok(wire)
    }

    /// Gives the next wire, whatever its moment, and fails if none is left.
    fn connect(&mut self, host: &str, port: u16) -> Result<u64, Failed>
        ensures fresh { IsNewWire self.old.given self.new.given (connected_wire result) }
        ensures others_unchanged { self.new.moment ≡ self.old.moment }
        ensures trace { Adds (trace_of self.old.ledger) (trace_of self.new.ledger) (connect_answer result) }
        ensures cause { HasCause self.old.faults self.new.faults result }
        ensures answers { connect_answer result ≡ answered connect_failed (connect_next self.old) self.old }
        ensures after { self.new ≡ after_call (connect_next self.old) self.old }
    {
        if self.is_to_fail() {
            return Err(self.fail(WireCall::ConnectFailed));
        }
        if !self.lines.has_next() {
            return Err(self.fail(WireCall::ConnectFailed));
        }
        if !self.ledger.has_room(0) {
            return Err(self.overrun());
        }
        let wire = self.lines.give();
        self.ledger.tell(WireCall::Connected(wire), &[]);
        Ok(wire)
    }

    /// Gives the next of the wire's reads, as much of it as `buf` has room for, and what didn't fit at the next read. Once none is left
    /// it is `NotYet`. It fails on a wire that wasn't given or was shut.
    fn read(&mut self, wire: u64, buf: &mut [u8]) -> Result<WireRead, Failed>
        ensures count { IfOk result (λ read. CountsWithin read (length buf.new)) }
        ensures wires { self.new.given ≡ self.old.given }
        ensures others_unchanged { self.new.moment ≡ self.old.moment }
        ensures trace { Adds (trace_of self.old.ledger) (trace_of self.new.ledger) (read_answer wire buf.new result) }
        ensures cause { HasCause self.old.faults self.new.faults result }
        ensures answers { read_answer wire buf.new result ≡ answered (read_failed wire) (read_next wire (length buf.old) self.old) self.old }
        ensures after { self.new ≡ after_call (read_next wire (length buf.old) self.old) self.old }
    {
        if self.is_to_fail() {
            return Err(self.fail(WireCall::ReadFailed(wire)));
        }
        match self.lines.peek(wire, buf) {
            Err(_) => Err(self.fail(WireCall::ReadFailed(wire))),
            Ok(read) => {
                let count = count_of(read);
                if !self.ledger.has_room(count) {
                    return Err(self.overrun());
                }
                self.lines.read(wire, count);
                self.ledger.tell(note_of(wire, read), &buf[..count]);
                Ok(read)
            }
        }
    }

    /// Takes as many of the bytes as the wire's next number says, and none once none is left. It fails on a wire that wasn't given or
    /// was shut.
    fn write(&mut self, wire: u64, bytes: &[u8]) -> Result<usize, Failed>
        ensures count { IfOk result (λ count. count ≤ length bytes.now) }
        ensures wires { self.new.given ≡ self.old.given }
        ensures others_unchanged { self.new.moment ≡ self.old.moment }
        ensures trace { Adds (trace_of self.old.ledger) (trace_of self.new.ledger) (write_answer wire bytes.now result) }
        ensures cause { HasCause self.old.faults self.new.faults result }
        ensures answers { write_answer wire bytes.now result ≡ answered (write_failed wire) (write_next wire bytes.now self.old) self.old }
        ensures after { self.new ≡ after_call (write_next wire bytes.now self.old) self.old }
    {
        if self.is_to_fail() {
            return Err(self.fail(WireCall::WriteFailed(wire)));
        }
        match self.lines.taken(wire, bytes) {
            Err(_) => Err(self.fail(WireCall::WriteFailed(wire))),
            Ok(count) => {
                if !self.ledger.has_room(count) {
                    return Err(self.overrun());
                }
                let taken = &bytes[..count];
                self.lines.write(wire, taken);
                self.ledger.tell(WireCall::BytesOut(wire, count), taken);
                Ok(count)
            }
        }
    }

    /// Shuts a wire, also past the room.
    fn shut(&mut self, wire: u64)
        ensures wires { self.new.given ≡ self.old.given }
        ensures others_unchanged { self.new.moment ≡ self.old.moment }
        ensures trace { Adds (trace_of self.old.ledger) (trace_of self.new.ledger) (was_shut wire) }
        ensures unfailed { self.new.faults ≡ self.old.faults }
        ensures after { self.new ≡ after_shut wire self.old }
    {
        self.lines.shut(wire);
        self.ledger.tell_or_fill(WireCall::WasShut(wire));
    }
}
