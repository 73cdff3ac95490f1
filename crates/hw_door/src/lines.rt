//! Wires in memory by their numbers, which are their places.

ghost use Rattle.std.specs.Prelude.{◌≡◌, ◌+◌, ◌-◌, ◌<◌, ◌≤◌, ℕ, [], List, Option, map, min, length, is_some, nat_lt, IsTrue, IfOk, IfSome, slice_get, vec_len};
ghost use Rattle.hw_door.specs.Lines.{LinesLeft, AreLines};
ghost use Rattle.hw_door.specs.Traffic.{CountsWithin, read_answer, write_answer};
ghost use Rattle.hw_door.specs.Wires.{wire_of, open_wire, came, given_after, at_wire, with_read, with_written, with_shut, read_open, write_open, written_of};

use crate::line::Line;
use crate::memory_wire::MemoryWire;
use crate::wires::WireRead;
use hw_io::Failed;
use std::alloc::{AllocError, Global};
use std::marker::Model;

#[derive(Drop)]
pub struct Lines {
    lines: Vec<Line>,
    // How many were given, so the number of the next.
    given: u64,
    room: usize,
}

impl Model for Lines {
    ghost use Rattle.std.specs.Prelude.{◌≤◌, All, length, map};
    ghost use Rattle.hw_door.specs.Lines.{LinesLeft, HasRoom, wire_in};

    ghost Value = { LinesLeft };

    ghost view = { λ l. record { wires = map wire_in l.lines.items; given = l.given; room = l.room } };

    ghost invariant = { λ l. (l.given ≤ length l.lines.items) × All (HasRoom l.room) l.lines.items };
}

/// Reserves room for so many bytes at each wire.
#[tactic(auto, using(crate::proofs::Places::line_more))]
fn lines_of(alloc: Global, wires: Vec<MemoryWire>, room: usize) -> Result<Vec<Line>, AllocError>
    ensures { IfOk result (λ lines. AreLines room wires.items lines.items) }
{
    let mut lines = Vec::new(alloc);
    for wire in wires {
        let line = Line::start(alloc, wire, room)?;
        lines.push(line)?;
    }
    Ok(lines)
}

impl Lines {
    /// Reserves room for so many bytes that are written, at each wire.
    pub fn start(alloc: Global, wires: Vec<MemoryWire>, room: usize) -> Result<Lines, AllocError>
        ensures { IfOk result (λ lines. lines ≡ record { wires = map wire_of wires.items; given = 0; room = room }) }
    {
        let lines = lines_of(alloc, wires, room)?;
        Ok(Lines {
            lines,
            given: 0,
            room,
        })
    }

    /// Lends what was written on a wire.
    pub fn written(&self, wire: u64) -> &[u8]
        ensures { result.now ≡ written_of (slice_get self.now.wires wire) }
    {
        if wire >= self.lines.len() as u64 {
            return &[];
        }
        self.lines[wire as usize].written()
    }

    /// Whether a wire is left that wasn't given.
    pub fn has_next(&self) -> bool
        ensures { result ≡ nat_lt self.now.given (length self.now.wires) }
    {
        self.given < self.lines.len() as u64
    }

    /// Gives the next wire.
    pub fn give(&mut self) -> u64
        requires { IsTrue (nat_lt self.old.given (length self.old.wires)) }
        ensures wire { result ≡ self.old.given }
        ensures after { self.new ≡ record self.old { given = self.old.given + 1 } }
    {
        let wire = self.given;
        self.given = wire + 1;
        wire
    }

    /// The next wire, if it may be accepted by this moment.
    fn came(&self, moment: u64) -> Option<u64>
        ensures wire { result ≡ came moment self.now.given (slice_get self.now.wires self.now.given) }
        ensures left { IfSome result (λ wire. IsTrue (nat_lt self.now.given (length self.now.wires))) }
    {
        if !self.has_next() {
            return None;
        }
        if self.lines[self.given as usize].since() > moment {
            return None;
        }
        Some(self.given)
    }

    /// Gives the next wire, if it may be accepted by this moment.
    pub fn accept(&mut self, moment: u64) -> Option<u64>
        ensures wire { result ≡ came moment self.old.given (slice_get self.old.wires self.old.given) }
        ensures is_next { IfSome result (λ wire. wire ≡ self.old.given) }
        ensures after { self.new ≡ record self.old { given = given_after result self.old.given } }
    {
        match self.came(moment) {
            Some(_) => Some(self.give()),
            None => None,
        }
    }

    /// Whether a wire may be read and written: it was given and wasn't shut.
    pub fn is_open(&self, wire: u64) -> bool
        ensures { result ≡ is_some (open_wire wire self.now.given self.now.wires) }
    {
        if wire >= self.given {
            return false;
        }
        !self.lines[wire as usize].is_shut()
    }

    /// What the next read on a wire gives, which stays.
    pub fn peek(&self, wire: u64, buf: &mut [u8]) -> Result<WireRead, Failed>
        ensures count { IfOk result (λ read. CountsWithin read (length buf.new)) }
        ensures gives { read_answer wire buf.new result ≡ read_open wire (length buf.old) (open_wire wire self.now.given self.now.wires) }
        ensures open { IfOk result (λ read. wire < length self.now.wires) }
    {
        if !self.is_open(wire) {
            return Err(Failed);
        }
        Ok(self.lines[wire as usize].peek(buf))
    }

    /// Takes what a read on a wire gave, which has this many bytes.
    pub fn read(&mut self, wire: u64, count: usize)
        requires { wire < length self.old.wires }
        ensures { self.new ≡ record self.old { wires = at_wire wire (with_read count) self.old.wires } }
    {
        self.lines[wire as usize].read(count);
    }

    /// How many of these bytes the next write on a wire takes.
    pub fn taken(&self, wire: u64, bytes: &[u8]) -> Result<usize, Failed>
        ensures count { IfOk result (λ count. count ≤ length bytes.now) }
        ensures takes { write_answer wire bytes.now result ≡ write_open wire bytes.now (open_wire wire self.now.given self.now.wires) }
        ensures open { IfOk result (λ count. wire < length self.now.wires) }
    {
        if !self.is_open(wire) {
            return Err(Failed);
        }
        Ok(self.lines[wire as usize].most_taken().min(bytes.len()))
    }

    /// Writes on a wire.
    pub fn write(&mut self, wire: u64, bytes: &[u8])
        requires wire { wire < length self.old.wires }
        requires room { length bytes.now ≤ self.old.room }
        ensures { self.new ≡ record self.old {
          wires = at_wire wire (with_written bytes.now) self.old.wires;
          room = self.old.room - length bytes.now;
        } }
    {
        self.lines[wire as usize].write(bytes);
        self.room -= bytes.len();
    }

    /// Ends a wire.
    pub fn shut(&mut self, wire: u64)
        ensures { self.new ≡ record self.old { wires = at_wire wire with_shut self.old.wires } }
    {
        if wire < self.lines.len() as u64 {
            self.lines[wire as usize].shut();
        }
    }
}
