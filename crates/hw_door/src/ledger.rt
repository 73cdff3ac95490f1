//! What wires in memory tell of their calls, kept in room that is reserved before.

ghost use Rattle.std.specs.Prelude.{◌≡◌, ◌+◌, ◌-◌, ◌≤◌, [], IsTrue, IfOk, length, false, true};
ghost use Rattle.hw_door.specs.Ledger.{LedgerState, has_room, answer_of, bytes_of, with_answer, after_telling};

use std::alloc::{AllocError, Global};
use std::marker::Model;

/// What one call answered; of bytes that were read or written, how many they were.
#[derive(Clone, Copy, Drop)]
pub enum WireCall {
    // The wait that it was handed, and the moment.
    Polled(u64, u64),
    PollFailed(u64),
    Accepted(Option<u64>),
    AcceptFailed,
    Connected(u64),
    ConnectFailed,
    BytesIn(u64, usize),
    NotYet(u64),
    Ended(u64),
    ReadFailed(u64),
    BytesOut(u64, usize),
    WriteFailed(u64),
    WasShut(u64),
}

/// The answers of calls in order, the bytes of all of them one after the other.
#[derive(Drop)]
pub struct Ledger {
    notes: Vec<WireCall>,
    bytes: Vec<u8>,
    note_room: usize,
    byte_room: usize,
    is_full: bool,
}

impl Model for Ledger {
    ghost use Rattle.std.specs.Prelude.{◌≡◌, ◌-◌, ◌≤◌, length, vec_capacity};
    ghost use Rattle.hw_door.specs.Ledger.{LedgerState, answers_of, total};

    ghost Value = { LedgerState };

    ghost view = { λ l. record {
      answers = answers_of l.notes.items l.bytes.items;
      calls_left = l.note_room - length l.notes.items;
      bytes_left = l.byte_room - length l.bytes.items;
      is_full = l.is_full;
    } };

    ghost invariant = { λ l.
        (total l.notes.items ≡ length l.bytes.items)
        × (length l.notes.items ≤ l.note_room) × (l.note_room ≤ vec_capacity l.notes)
        × (length l.bytes.items ≤ l.byte_room) × (l.byte_room ≤ vec_capacity l.bytes) };
}

impl Ledger {
    /// Reserves room for so many calls and so many bytes of them.
    pub fn start(alloc: Global, calls: usize, bytes: usize) -> Result<Ledger, AllocError>
        ensures { IfOk result (λ l. l ≡ record { answers = []; calls_left = calls; bytes_left = bytes; is_full = false }) }
    {
        Ok(Ledger {
            notes: Vec::with_capacity(alloc, calls)?,
            bytes: Vec::with_capacity(alloc, bytes)?,
            note_room: calls,
            byte_room: bytes,
            is_full: false,
        })
    }

    /// How many calls were told.
    pub fn calls(&self) -> usize
        ensures { result ≡ length self.now.answers }
    {
        self.notes.len()
    }

    /// Whether there is room for a call with this many bytes.
    pub fn has_room(&self, count: usize) -> bool
        ensures { result ≡ has_room count self.now }
    {
        !self.is_full
            && self.notes.len() < self.note_room
            && count <= self.byte_room - self.bytes.len()
    }

    /// Tells nothing from now on.
    pub fn fill(&mut self)
        ensures { self.new ≡ record self.old { is_full = true } }
    {
        self.is_full = true;
    }

    /// Tells what a call answered.
    pub fn tell(&mut self, note: WireCall, bytes: &[u8])
        requires room { IsTrue (has_room (length bytes.now) self.old) }
        requires count { bytes_of note ≡ length bytes.now }
        ensures { self.new ≡ with_answer (answer_of note bytes.now) self.old }
    {
        self.notes.push_reserved(note);
        self.bytes.extend_from_slice(bytes).unwrap();
    }

    /// Tells what a call answered that moved no bytes, if there is room for it. If not, nothing is told from now on.
    pub fn tell_or_fill(&mut self, note: WireCall)
        requires count { bytes_of note ≡ 0 }
        ensures { self.new ≡ after_telling (answer_of note []) self.old }
    {
        if self.has_room(0) {
            self.tell(note, &[]);
        } else {
            self.fill();
        }
    }
}
