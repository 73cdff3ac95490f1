//! One read on a wire.

ghost use Rattle.std.specs.Prelude.{◌≡◌, ◌≤◌, [], ◌∷◌, length, take, IfSome, option_map};
ghost use Rattle.hw_door.specs.Traffic.{Answer};
ghost use Rattle.hw_net.specs.Trace.{Tells, Reads};

use hw_door::{WireRead, Wires};

/// Reads what has come, at most what `buf` has room for: how many bytes, or `None` if the wire ended or failed.
pub fn read_piece<W: Wires>(wires: &mut W, wire: u64, buf: &mut [u8]) -> Option<usize>
    ensures count { IfSome result (λ count. count ≤ length buf.new) }
    ensures read { (answer : Answer) × Tells (W.trace wires.old) (W.trace wires.new) (answer ∷ [])
        × Reads wire (length buf.new) answer (option_map (λ count. take count buf.new) result) }
    ensures wires { W.wires wires.new ≡ W.wires wires.old }
{
    match wires.read(wire, buf) {
        Ok(WireRead::Some(count)) => Some(count),
        Ok(WireRead::NotYet) => Some(0),
        Ok(WireRead::Ended) => None,
        Err(_) => None,
    }
}
