//! The numbers of a dialer's lanes, and the wires that they stand on.

ghost use Rattle.std.specs.Prelude.{◌≡◌, ◌==◌, position};
ghost use Rattle.hw_net.specs.declared.numbers.LaneWire.{LaneWire};
ghost use Rattle.hw_net.specs.LaneNumbers.{lanes_in, wires_in, wire_of, lane_on, with_lane};
ghost use Rattle.hw_net.specs.Rising.{Rise};

use hw_door::Event;

/// A lane, and the wire that it stands on.
#[derive(Clone, Copy, Drop)]
pub struct LaneWire {
    pub lane: u64,
    pub wire: u64,
}

fn index_of(numbers: &[LaneWire], lane: u64) -> Option<usize>
    requires { Rise (lanes_in numbers.now) }
    ensures { result ≡ position (λ (number : LaneWire). number.lane == lane) numbers.now }
{
    numbers
        .binary_search_by_key(&lane, |number| number.lane)
        .ok()
}

fn index_on(numbers: &[LaneWire], wire: u64) -> Option<usize>
    requires { Rise (wires_in numbers.now) }
    ensures { result ≡ position (λ (number : LaneWire). number.wire == wire) numbers.now }
{
    numbers
        .binary_search_by_key(&wire, |number| number.wire)
        .ok()
}

/// The wire that the lane of this number stands on, if it stands on one.
pub fn wire_of(numbers: &[LaneWire], lane: u64) -> Option<u64>
    requires { Rise (lanes_in numbers.now) }
    ensures { result ≡ wire_of lane numbers.now }
{
    match index_of(numbers, lane) {
        Some(index) => Some(numbers[index].wire),
        None => None,
    }
}

/// The lane on this wire, 0 if there is none.
pub fn lane_on(numbers: &[LaneWire], wire: u64) -> u64
    requires { Rise (wires_in numbers.now) }
    ensures { result ≡ lane_on wire numbers.now }
{
    match index_on(numbers, wire) {
        Some(index) => numbers[index].lane,
        None => 0,
    }
}

/// The same event on another lane.
pub fn with_lane(event: Event, lane: u64) -> Event
    ensures { result ≡ with_lane lane event }
{
    match event {
        Event::Request { request, .. } => Event::Request { lane, request },
        Event::Refused { refusal, .. } => Event::Refused { lane, refusal },
        Event::Bytes { bytes, .. } => Event::Bytes { lane, bytes },
        Event::Response { status, body, .. } => Event::Response { lane, status, body },
        Event::Upgraded { .. } => Event::Upgraded { lane },
        Event::Lost { .. } => Event::Lost { lane },
        Event::Drained { .. } => Event::Drained { lane },
        Event::Quiet => Event::Quiet,
    }
}
