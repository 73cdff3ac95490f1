//! Where a lane stands among lanes whose numbers rise.

ghost use Rattle.std.specs.Prelude.{◌≡◌, ◌==◌, ℕ, position};
ghost use Rattle.hw_net.specs.Door.{index_of_first};
ghost use Rattle.hw_net.specs.Lane.{Lane, wires_of};
ghost use Rattle.hw_net.specs.Rising.{Rise};
ghost use Rattle.hw_net.specs.Writers.{is_writer_at};

use crate::lane::NetLane;

/// Where the lane of this number is.
pub fn index_of(lanes: &[NetLane], wire: u64) -> Option<usize>
    requires { Rise (wires_of lanes.now) }
    ensures { result ≡ position (λ (lane : Lane). lane.wire == wire) lanes.now }
{
    lanes.binary_search_by_key(&wire, |lane| lane.wire()).ok()
}

/// Whether the lane of this number is live, and something waits there.
pub fn is_writer_at(lanes: &[NetLane], wire: u64) -> bool
    requires { Rise (wires_of lanes.now) }
    ensures { result ≡ is_writer_at wire lanes.now }
{
    match index_of(lanes, wire) {
        Some(index) => lanes[index].is_writer(),
        None => false,
    }
}

/// How many lanes come last in the search that begins at this number: those of lower numbers, or all if there are no others.
pub fn index_of_first(lanes: &[NetLane], from: u64) -> usize
    requires { Rise (wires_of lanes.now) }
    ensures { result ≡ index_of_first from lanes.now }
{
    lanes.partition_point(|lane| lane.wire() < from)
}
