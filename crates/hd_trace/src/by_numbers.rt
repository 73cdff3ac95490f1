//! The rules of two ends by numbers, so that whoever judges a trace keeps no lists of steps, and reads nothing again. No function here does anything:
//! its contract is the law.

ghost use Rattle.hd_trace.specs.ByNumbers.{AttachesAloneByNumbers, AttachesByNumbers, FeedsByNumbers, NextIsFed, RoomByNumbers, StillByNumbers, TakenAreLent, TakesByLines, UnreadByNumbers};

use crate::laws::{alone_agrees, takes_are_marked};
use hd_delivery::{
    delivery_over_bytes, facts_hold, fed_is_cut, fed_is_lent, fed_is_unseen, fed_is_whole,
    histories_are_in_order, unread_grows, worlds_are_histories,
};

/// Which link an end may begin beside another: its marks let it begin one, and the link is new to it. A client's is above its last one, and a
/// server's one of the client's on which it never stood.
pub fn attaches_by_numbers()
    ensures { AttachesByNumbers }
{
    alone_agrees();
    attaches_alone_by_numbers();
}

/// Which link an end may begin that is judged alone: its marks let it begin one, and a client's is above its last one, a server's another than those
/// on which it stood.
pub fn attaches_alone_by_numbers()
    ensures { AttachesAloneByNumbers }
{}

/// An end that isn't closed may be fed exactly what begins the bytes that the other end said there and that it wasn't fed yet, if no more than a
/// frame and its framing are unread then; for readers that are sound.
pub fn feeds_by_numbers()
    ensures { FeedsByNumbers }
{
    worlds_are_histories();
    unread_grows();
    fed_is_lent();
}

/// How many bytes are unread on the link of an end: what it was fed there less what the frames have that it took, as the other end said them; for
/// readers that are sound, and faithful to what was sent.
pub fn unread_by_numbers()
    ensures { UnreadByNumbers }
{
    facts_hold();
    fed_is_cut();
    fed_is_unseen();
    fed_is_whole();
    histories_are_in_order();
    unread_grows();
    worlds_are_histories();
}

/// The next frame that an end was fed on its link is the next one that the other end said there, once all bytes of that were fed; for readers that
/// are faithful to what was sent.
pub fn next_is_fed()
    ensures { NextIsFed }
{
    fed_is_whole();
}

/// An end took no more frames on its link than the other end said there; for readers that are faithful to what was sent.
pub fn taken_are_lent()
    ensures { TakenAreLent }
{
    facts_hold();
    fed_is_whole();
    worlds_are_histories();
}

/// An end that isn't closed takes exactly what the next frame that the other end said there gives, once all bytes of that were fed; for readers
/// that are faithful to what was sent.
pub fn takes_by_lines()
    ensures { TakesByLines }
{
    fed_is_whole();
    takes_are_marked();
}

/// Whether a message has room, by sums up to each message that was sent.
pub fn room_by_numbers()
    ensures { RoomByNumbers }
{}

/// Whether two ends are still, by counts of bytes and frames; for readers that are faithful to what was sent.
pub fn still_by_numbers()
    ensures { StillByNumbers }
{
    fed_is_whole();
    delivery_over_bytes();
    worlds_are_histories();
    facts_hold();
    fed_is_lent();
}
