//! Writes on a wire, as far as it takes them now.

ghost use Rattle.std.specs.Prelude.{◌≡◌, ◌≤◌, List, vec_capacity};
ghost use Rattle.hw_door.specs.Traffic.{Answer};
ghost use Rattle.hw_socket.specs.Buffers.{IsLean};
ghost use Rattle.hw_net.specs.Saying.{Writes};
ghost use Rattle.hw_net.specs.Trace.{Tells};

use hw_door::Wires;
use hw_socket::{SocketLane, empty};

/// Writes the bytes until none are left, the wire takes none, or it fails. What it took is dropped. The answer is false if it failed.
/// Once none are left, what a long reply made the buffer reserve is given back.
pub fn write_bytes<W: Wires>(wires: &mut W, wire: u64, bytes: &mut Vec<u8>) -> bool
    ensures writes { (answers : List Answer) × Tells (W.trace wires.old) (W.trace wires.new) answers
        × Writes wire bytes.old.items answers bytes.new.items result }
    ensures lean { IsLean bytes.new.items (vec_capacity bytes.new) }
    ensures wires { W.wires wires.new ≡ W.wires wires.old }
    ensures faults { W.faults wires.old ≤ W.faults wires.new }
{
    while !bytes.is_empty() {
        match wires.write(wire, bytes) {
            Ok(0) => return true,
            Ok(count) => {
                bytes.drain(..count);
            }
            Err(_) => return false,
        }
    }
    empty(bytes);
    true
}

/// The same of what a WebSocket has to write.
pub fn write_frames<W: Wires>(wires: &mut W, wire: u64, lane: &mut SocketLane) -> bool
    ensures writes { (answers : List Answer) × Tells (W.trace wires.old) (W.trace wires.new) answers
        × Writes wire lane.old.out.bytes answers lane.new.out.bytes result }
    ensures others_unchanged { lane.new ≡ record lane.old { out = record lane.old.out { bytes = lane.new.out.bytes } } }
    ensures wires { W.wires wires.new ≡ W.wires wires.old }
    ensures faults { W.faults wires.old ≤ W.faults wires.new }
{
    while !lane.out().is_empty() {
        match wires.write(wire, lane.out()) {
            Ok(0) => return true,
            Ok(count) => lane.drop_out(count),
            Err(_) => return false,
        }
    }
    true
}
