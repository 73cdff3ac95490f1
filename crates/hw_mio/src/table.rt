//! The table of all wires, each in a slot.

ghost use Rattle.std.specs.Prelude.{◌≡◌, ◌<◌, ◌≤◌, ◌^◌, length, IfOk, IfSome, vec_len};
ghost use Rattle.hw_door.specs.Traffic.{CountsWithin, IsNewWire};

use crate::limits::{MOST_WIRES, SLOTS};
use crate::ready_set::ReadySet;
use crate::slot::{Live, Slot};
use hw_door::WireRead;
use mio::event::Event;
use mio::net::TcpStream;
use mio::{Interest, Registry, Token};
use std::alloc::{AllocError, Global};
use std::marker::Model;
use std::{io, mem};

/// What became of a wire that was to be shut.
#[derive(Clone, Copy, PartialEq, Eq)]
pub enum Shut {
    /// There is no such wire.
    Absent,
    /// Its slot is free.
    Closed,
    /// Its slot is taken until the peer ends.
    Ending,
}

/// All wires. A contract sees the bound below which all their numbers lie.
///
/// A number is the count of wires made before, times [`SLOTS`], and the slot. So it tells the slot, and no two are the same.
#[derive(Drop)]
pub struct Table {
    slots: Vec<Slot>,
    // The first of the free slots, each of which names the next.
    free: Option<usize>,
    // How many wires were made.
    made: u64,
    // The slots of wires of which a read may give something, or of which the last read did.
    ready: ReadySet,
    // How many wires a read may give something of.
    readable: usize,
}

impl Model for Table {
    ghost use Rattle.std.specs.Prelude.{◌≡◌, ◌*◌, ◌≤◌, ℕ, vec_len};
    ghost use Rattle.hw_mio.specs.declared.limits.TheConstants.{MOST_WIRES, SLOTS};

    ghost Value = { ℕ };

    ghost view = { λ t. t.made * SLOTS };

    ghost invariant = { λ t. (vec_len t.slots ≡ SLOTS) × (t.made ≤ MOST_WIRES) };
}

fn slot_of(wire: u64) -> usize
    ensures { result < SLOTS }
{
    (wire % SLOTS as u64) as usize
}

/// All slots, each free.
fn free_slots(alloc: Global) -> Result<Vec<Slot>, AllocError>
    ensures { IfOk result (λ slots. vec_len slots ≡ SLOTS) }
{
    let mut slots = Vec::with_capacity(alloc, SLOTS)?;
    for at in 0..SLOTS {
        let next = if at + 1 < SLOTS { Some(at + 1) } else { None };
        slots.push(Slot::Free(next))?;
    }
    Ok(slots)
}

impl Table {
    /// No wires yet. Room for all of them is taken here.
    pub fn start(alloc: Global) -> Result<Table, AllocError>
        ensures { IfOk result (λ table. table ≡ 0) }
    {
        Ok(Table {
            slots: free_slots(alloc)?,
            free: Some(0),
            made: 0,
            ready: ReadySet::start(alloc)?,
            readable: 0,
        })
    }

    /// Whether one more wire can be made: a slot is free, and numbers are left.
    pub fn has_room(&self) -> bool {
        self.free.is_some() && self.made < MOST_WIRES
    }

    /// Makes a wire of this stream and registers it. If there is no room, or it can't be registered, the stream is closed.
    pub fn add(&mut self, registry: &Registry, mut stream: TcpStream, is_ready: bool) -> Option<u64>
        ensures fresh { IsNewWire self.old self.new result }
        ensures small { IfSome result (λ wire. wire < 2 ^ 62) }
    {
        if self.made >= MOST_WIRES {
            return None;
        }
        let at = self.free?;
        let Some(Slot::Free(next)) = self.slots.get(at) else {
            return None;
        };
        let next = *next;
        let both = Interest::READABLE | Interest::WRITABLE;
        if registry.register(&mut stream, Token(at), both).is_err() {
            return None;
        }
        let number = self.made * SLOTS as u64 + at as u64;
        self.slots[at] = Slot::Live(Live::start(number, stream, is_ready));
        if is_ready {
            self.ready.insert(at);
            self.readable = self.readable.saturating_add(1);
        }
        self.free = next;
        self.made += 1;
        Some(number)
    }

    /// Notes an event of the slot, and whether its wire is ready by it. The answer is whether the slot is free by it.
    pub fn note_event(&mut self, at: usize, event: &Event) -> bool
        ensures { self.new ≡ self.old }
    {
        if at >= SLOTS {
            return false;
        }
        let was_readable = self.slots[at].is_readable();
        let is_over = self.slots[at].apply_event(event);
        if is_over {
            self.close(at);
        } else if !was_readable && self.slots[at].is_readable() {
            self.ready.insert(at);
            self.readable = self.readable.saturating_add(1);
        }
        is_over
    }

    /// Reads on a wire, and notes whether it is still ready.
    pub fn read_wire(&mut self, wire: u64, buf: &mut [u8]) -> io::Result<WireRead>
        ensures count { IfOk result (λ read. CountsWithin read (length buf.new)) }
        ensures bound { self.new ≡ self.old }
    {
        let at = slot_of(wire);
        let slot = &mut self.slots[at];
        let was_readable = slot.is_readable();
        let read = slot.read_numbered(wire, buf);
        let is_readable = slot.is_readable();
        if was_readable && !is_readable {
            self.readable = self.readable.saturating_sub(1);
        }
        if !is_readable && !matches!(read, Ok(WireRead::Some(_))) {
            self.ready.remove(at);
        }
        read
    }

    /// Whether a read may give something of some wire.
    pub fn has_readable(&self) -> bool {
        self.readable > 0
    }

    /// No wire is ready any more, as a read may give something of none.
    pub fn forget_ready(&mut self)
        ensures { self.new ≡ self.old }
    {
        self.ready.clear();
    }

    /// The wire in the first slot after that of this one, in a circle, of which a read may give something or the last one did.
    pub fn next_ready(&self, wire: u64) -> Option<u64> {
        let at = self.ready.next_after(slot_of(wire))?;
        self.slots.get(at)?.number()
    }

    pub fn write_wire(&mut self, wire: u64, bytes: &[u8]) -> io::Result<usize>
        ensures count { IfOk result (λ count. count ≤ length bytes.now) }
        ensures bound { self.new ≡ self.old }
    {
        self.slots[slot_of(wire)].write_numbered(wire, bytes)
    }

    /// Whether the connection on this wire was begun, and no read or write has shown yet whether it was made.
    pub fn is_connecting(&self, wire: u64) -> bool {
        self.slots[slot_of(wire)].is_connecting(wire)
    }

    /// Shuts a wire, which is no more ready then.
    pub fn shut_wire(&mut self, wire: u64) -> Shut
        ensures { self.new ≡ self.old }
    {
        let at = slot_of(wire);
        if !self.slots[at].is_live(wire) {
            return Shut::Absent;
        }
        self.forget_readable(at);
        let slot = mem::replace(&mut self.slots[at], Slot::Free(None));
        self.slots[at] = slot.after_shut();
        if self.slots[at].is_ending(wire) {
            return Shut::Ending;
        }
        self.close(at);
        Shut::Closed
    }

    /// Whether this wire was shut, and its slot isn't free yet.
    pub fn is_ending(&self, wire: u64) -> bool {
        self.slots[slot_of(wire)].is_ending(wire)
    }

    /// Closes a wire that was shut, if its slot isn't free yet. The answer is whether it was closed here.
    pub fn close_ending(&mut self, wire: u64) -> bool
        ensures { self.new ≡ self.old }
    {
        let is_ending = self.is_ending(wire);
        if is_ending {
            self.close(slot_of(wire));
        }
        is_ending
    }

    /// The wire in this slot is read no more.
    fn forget_readable(&mut self, at: usize)
        requires { at < SLOTS }
        ensures { self.new ≡ self.old }
    {
        if self.slots[at].is_readable() {
            self.readable = self.readable.saturating_sub(1);
        }
        self.ready.remove(at);
    }

    /// Closes the socket at a slot, which is free then.
    fn close(&mut self, at: usize)
        requires { at < SLOTS }
        ensures { self.new ≡ self.old }
    {
        self.slots[at] = Slot::Free(self.free);
        self.free = Some(at);
    }
}
