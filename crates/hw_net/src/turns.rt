//! One call's turns of the lanes, in their order.

ghost use Rattle.std.specs.Prelude.{◌≡◌, ◌⊎◌, ◌≤◌, List, None, true, length, Contains, IfOk, OnErr};
ghost use Rattle.hw_door.specs.Traffic.{Answer, ready_answer};
ghost use Rattle.hw_net.specs.Door.{RestsAt, Searches};
ghost use Rattle.hw_net.specs.Halting.{HaltsWithin, HaltsAll};
ghost use Rattle.hw_net.specs.Lane.{Lane, wires_of};
ghost use Rattle.hw_net.specs.Rising.{Rise};
ghost use Rattle.hw_net.specs.Trace.{Tells};
ghost use Rattle.hw_net.specs.Walks.{Walks, Speak, RestsWithin, Ends};

use crate::first_read::FirstRead;
use crate::lanes::Lanes;
use crate::limits::PIECE;
use hw_door::{Event, Wires};
use std::alloc::AllocError;

/// How turns of some lanes ended.
#[derive(Drop)]
pub enum Course {
    /// This was heard first, and the place after that lane.
    Heard { event: Event, next: usize },
    /// Each lane had its turn, and nothing was heard.
    Quiet,
    /// Nothing was heard, and the other lanes needn't be asked, as all rest.
    Rests,
}

/// Whether all lanes rest, and the wires tell that none of them has anything to give.
fn all_rest<W: Wires>(lanes: &Lanes, wires: &mut W, now: u64) -> bool
    ensures told { Tells (W.trace wires.old) (W.trace wires.new) (ready_answer result) }
    ensures rest { result ≡ true → (lane : Lane) → Contains lanes.now.items lane → RestsAt now lane }
    ensures wires { W.wires wires.new ≡ W.wires wires.old }
{
    lanes.may_rest(now) && wires.none_ready()
}

/// Turns of the lanes of these places, the first first, until one hears something, or all rest.
fn turn_until<W: Wires>(
    lanes: &mut Lanes,
    begin: usize,
    end: usize,
    wires: &mut W,
    buf: &mut [u8],
    now: u64,
) -> Result<Course, AllocError>
    requires buffer { length buf.old ≡ PIECE }
    requires order { begin ≤ end }
    requires places { end ≤ length lanes.old.items }
    ensures ended { IfOk result (Ends (W.trace wires.old) (W.trace wires.new) now begin end lanes.old.items lanes.new.items) }
    ensures halts { OnErr result ((answers : List Answer) × Tells (W.trace wires.old) (W.trace wires.new) answers
        × HaltsWithin now begin end lanes.old.items lanes.new.items answers) }
    ensures buffer { length buf.new ≡ PIECE }
    ensures wires { W.wires wires.new ≡ W.wires wires.old }
    ensures lanes { wires_of lanes.new.items ≡ wires_of lanes.old.items }
{
    for index in begin..end {
        if all_rest(lanes, wires, now) {
            return Ok(Course::Rests);
        }
        let first_look = lanes.read_first(index, wires, buf, now);
        if first_look == FirstRead::NothingRead {
            continue;
        }
        if let Some(event) = lanes.turn(index, first_look, wires, buf, now)? {
            return Ok(Course::Heard {
                event,
                next: index + 1,
            });
        }
    }
    Ok(Course::Quiet)
}

/// Those of the lanes of these places that are heard no more write what waits. None is looked at if there is no such lane.
fn say_ended<W: Wires>(lanes: &mut Lanes, begin: usize, end: usize, wires: &mut W, now: u64)
    requires order { begin ≤ end }
    requires places { end ≤ length lanes.old.items }
    ensures said { (answers : List Answer) × Tells (W.trace wires.old) (W.trace wires.new) answers
        × Speak now begin end lanes.old.items lanes.new.items answers }
    ensures wires { W.wires wires.new ≡ W.wires wires.old }
    ensures lanes { wires_of lanes.new.items ≡ wires_of lanes.old.items }
{
    if !lanes.has_closing() {
        return;
    }
    for index in begin..end {
        lanes.say_if_ended(index, wires, now);
    }
}

/// Turns of the lanes before this place, after those from it on had theirs, in which nothing was heard. Once an event is heard, the others only
/// write what waits, if they are heard no more.
fn turn_last<W: Wires>(
    lanes: &mut Lanes,
    end: usize,
    wires: &mut W,
    buf: &mut [u8],
    now: u64,
) -> Result<Option<Event>, AllocError>
    requires buffer { length buf.old ≡ PIECE }
    requires places { end ≤ length lanes.old.items }
    ensures turned { IfOk result (λ heard. (answers : List Answer) × Tells (W.trace wires.old) (W.trace wires.new) answers
        × (Walks now None 0 end lanes.old.items lanes.new.items answers heard
        ⊎ ((heard ≡ None) × RestsWithin now 0 end lanes.old.items lanes.new.items answers))) }
    ensures halts { OnErr result ((answers : List Answer) × Tells (W.trace wires.old) (W.trace wires.new) answers
        × HaltsWithin now 0 end lanes.old.items lanes.new.items answers) }
    ensures wires { W.wires wires.new ≡ W.wires wires.old }
    ensures lanes { wires_of lanes.new.items ≡ wires_of lanes.old.items }
{
    match turn_until(lanes, 0, end, wires, buf, now)? {
        Course::Heard { event, next } => {
            say_ended(lanes, next, end, wires, now);
            Ok(Some(event))
        }
        Course::Quiet => Ok(None),
        Course::Rests => Ok(None),
    }
}

/// A turn of each lane: first those from the first that has this number or a greater one on, then those before it. Once all rest, no other lane
/// is asked.
fn turn_each<W: Wires>(
    lanes: &mut Lanes,
    from: u64,
    wires: &mut W,
    buf: &mut [u8],
    now: u64,
) -> Result<Option<Event>, AllocError>
    requires buffer { length buf.old ≡ PIECE }
    requires order { Rise (wires_of lanes.old.items) }
    ensures hears { IfOk result (λ trace. (answers : List Answer) × Tells (W.trace wires.old) (W.trace wires.new) answers
        × Searches now from lanes.old.items lanes.new.items answers trace) }
    ensures halts { OnErr result ((answers : List Answer) × Tells (W.trace wires.old) (W.trace wires.new) answers
        × HaltsAll now from lanes.old.items lanes.new.items answers) }
    ensures wires { W.wires wires.new ≡ W.wires wires.old }
    ensures lanes { wires_of lanes.new.items ≡ wires_of lanes.old.items }
{
    let index = lanes.index_of_first(from);
    let end = lanes.len();
    match turn_until(lanes, index, end, wires, buf, now)? {
        Course::Heard { event, next } => {
            say_ended(lanes, next, end, wires, now);
            say_ended(lanes, 0, index, wires, now);
            Ok(Some(event))
        }
        Course::Quiet => turn_last(lanes, index, wires, buf, now),
        Course::Rests => Ok(None),
    }
}

/// A turn of each lane, those from this number on first, unless all rest.
pub fn turn_from<W: Wires>(
    lanes: &mut Lanes,
    from: u64,
    wires: &mut W,
    buf: &mut [u8],
    now: u64,
) -> Result<Option<Event>, AllocError>
    requires buffer { length buf.old ≡ PIECE }
    requires order { Rise (wires_of lanes.old.items) }
    ensures hears { IfOk result (λ trace. (answers : List Answer) × Tells (W.trace wires.old) (W.trace wires.new) answers
        × Searches now from lanes.old.items lanes.new.items answers trace) }
    ensures halts { OnErr result ((answers : List Answer) × Tells (W.trace wires.old) (W.trace wires.new) answers
        × HaltsAll now from lanes.old.items lanes.new.items answers) }
    ensures wires { W.wires wires.new ≡ W.wires wires.old }
    ensures lanes { wires_of lanes.new.items ≡ wires_of lanes.old.items }
{
    if all_rest(lanes, wires, now) {
        return Ok(None);
    }
    turn_each(lanes, from, wires, buf, now)
}
