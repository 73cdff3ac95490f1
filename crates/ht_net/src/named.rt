//! Wires in memory that name some of them after each poll, as a script says, and tell what they were asked.

ghost use Rattle.std.specs.Prelude.{◌≡◌};
ghost use Rattle.hw_door.specs.Ledger.{trace_of};

use hw_door::{MemoryWires, WireRead, Wires};
use hw_io::Failed;
use std::alloc::Global;

/// Wires in memory, and what they name after each poll: numbers that rise, none of which need be that of a wire.
#[derive(Drop)]
pub struct NamedWires {
    alloc: Global,
    wires: MemoryWires,
    names: Vec<Vec<u64>>,
    // How many polls there were.
    polls: usize,
    // How long the last of them was to wait at most.
    waited: u64,
    // How often a wire was shut.
    shuts: u64,
    // The host and the port of the last call of `connect`, if there was one and memory for them.
    dialed: Option<String>,
}

impl NamedWires {
    /// These wires, which name these after each poll.
    pub fn start(alloc: Global, wires: MemoryWires, names: Vec<Vec<u64>>) -> NamedWires {
        NamedWires {
            alloc,
            wires,
            names,
            polls: 0,
            waited: 0,
            shuts: 0,
            dialed: None,
        }
    }

    /// What was written on a wire.
    pub fn written(&self, wire: u64) -> &[u8] {
        self.wires.written(wire)
    }

    /// How long the wires were to wait at most in the last poll, or 0 before the first.
    pub fn waited(&self) -> u64 {
        self.waited
    }

    /// How often a wire was shut.
    pub fn shuts(&self) -> u64 {
        self.shuts
    }

    /// The host and the port that were dialed last, with a space between, or `-` before the first.
    pub fn dialed(&self) -> &str {
        match &self.dialed {
            Some(dialed) => dialed.as_str(),
            None => "-",
        }
    }
}

impl Wires for NamedWires {
    ghost trace = { λ w. trace_of w.wires.ledger };

    ghost moment = { λ w. w.wires.moment };

    ghost wires = { λ w. w.wires.given };

    ghost faults = { λ w. w.wires.faults };

    fn poll(&mut self, wait: u64) -> Result<u64, Failed> {
        self.polls = self.polls.saturating_add(1);
        self.waited = wait;
        self.wires.poll(wait)
    }

    fn accept(&mut self) -> Result<Option<u64>, Failed> {
        self.wires.accept()
    }

    fn connect(&mut self, host: &str, port: u16) -> Result<u64, Failed> {
        self.dialed = format!(in self.alloc; "{host} {port}").ok();
        self.wires.connect(host, port)
    }

    fn read(&mut self, wire: u64, buf: &mut [u8]) -> Result<WireRead, Failed> {
        self.wires.read(wire, buf)
    }

    fn write(&mut self, wire: u64, bytes: &[u8]) -> Result<usize, Failed> {
        self.wires.write(wire, bytes)
    }

    fn shut(&mut self, wire: u64) {
        self.shuts = self.shuts.saturating_add(1);
        self.wires.shut(wire);
    }

    fn ready_after(&self, wire: u64) -> Option<u64> {
        let names = self.names.get(self.polls.checked_sub(1)?)?;
        for &name in names {
            if name > wire {
                return Some(name);
            }
        }
        names.first().copied()
    }
}
