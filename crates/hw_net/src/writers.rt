//! The wires of the lanes on which something waits to be written, so that a flush needn't look at the others.

ghost use Rattle.std.specs.Prelude.{◌≡◌, ℕ, [], true, false};
ghost use Rattle.std.specs.List.{filter};
ghost use Rattle.hw_net.specs.Lane.{wires_of};
ghost use Rattle.hw_net.specs.Rising.{Rise};
ghost use Rattle.hw_net.specs.Writers.{IsListOf, Lists, is_writer_at};

use crate::finding::is_writer_at;
use crate::lane::NetLane;
use std::alloc::Global;

/// A list of the live lanes on which something waits, by their wires, perhaps among others.
#[derive(Drop)]
pub struct Writers {
    pub(crate) wires: Vec<u64>,
    // Where a wire couldn't be listed any of the lanes may be missing.
    pub(crate) is_whole: bool,
}

impl Writers {
    /// That of no lanes. It takes no memory yet.
    pub fn start(alloc: Global) -> Writers
        ensures whole { result.is_whole ≡ true }
        ensures none { result.wires.items ≡ [] }
    {
        Writers {
            wires: Vec::new(alloc),
            is_whole: true,
        }
    }

    /// A list of which any lane may be missing.
    pub fn unknown(alloc: Global) -> Writers
        ensures { result.is_whole ≡ false }
    {
        Writers {
            wires: Vec::new(alloc),
            is_whole: false,
        }
    }

    /// Lists the wire of a lane that changed, if something waits there and didn't before. There may be at most so many wires.
    pub fn list(&mut self, lane: &NetLane, was_writer: bool, most: usize)
        ensures { Lists was_writer lane.now self.old self.new }
    {
        if was_writer || !lane.is_writer() {
            return;
        }
        if self.wires.len() >= most || self.wires.push(lane.wire()).is_err() {
            self.is_whole = false;
        }
    }

    /// Forgets those on which nothing waits any more.
    pub fn keep(&mut self, lanes: &[NetLane])
        requires { Rise (wires_of lanes.now) }
        ensures whole { self.new.is_whole ≡ self.old.is_whole }
        ensures kept { self.new.wires.items ≡ filter (λ (wire : ℕ). is_writer_at wire lanes.now) self.old.wires.items }
    {
        self.wires.retain(|wire| is_writer_at(lanes, *wire));
    }

    /// Lists anew those of all lanes on which something waits.
    pub fn renew(&mut self, lanes: &[NetLane])
        ensures { IsListOf self.new lanes.now }
    {
        self.wires.clear();
        self.is_whole = true;
        for lane in lanes {
            self.list(lane, false, lanes.len());
        }
    }
}
