//! What holds of an end that writes or reads, and of what is on its links. No function here does anything: its contract is the law.

ghost use Rattle.hd_delivery.specs.AloneLaws.{FedIsLent, FramesAreTaken, LentComesLast, LentStays, TakenHasRoom, TakesFew, TakingDrops, UnusedIsEmpty, WritesFew};

use crate::laws::{
    facts_hold, fed_is_unseen, frames_count, links_grow, next_is_read, unread_is_bounded,
    unread_moves, unused_is_untouched, worlds_are_histories,
};

/// An end that writes is done after as many frames as it holds messages, and five of its own.
pub fn writes_few()
    ensures { WritesFew }
{
    facts_hold();
    frames_count();
    links_grow();
}

/// An end takes nothing but frames, and a handshake only before it is complete.
pub fn frames_are_taken()
    ensures { FramesAreTaken }
{}

/// With each frame that is taken the unread bytes of the link become fewer.
pub fn taking_drops()
    ensures { TakingDrops }
{
    next_is_read();
    unread_moves();
}

/// An end that takes frames is done after one frame more than it can have bytes unread.
pub fn takes_few()
    ensures { TakesFew }
{
    next_is_read();
    unread_moves();
    unread_is_bounded();
}

/// An end that isn't closed and has taken every frame waits for more bytes, and has room for one.
pub fn taken_has_room()
    ensures { TakenHasRoom }
{
    next_is_read();
}

/// What is lent comes after what was lent on the present link.
pub fn lent_comes_last()
    ensures { LentComesLast }
{}

/// Nothing but a frame that is lent there changes the bytes that an end lent on a link.
pub fn lent_stays()
    ensures { LentStays }
{
    facts_hold();
}

/// On a link on which an end never stood it neither lent nor read any bytes.
pub fn unused_is_empty()
    ensures { UnusedIsEmpty }
{
    unused_is_untouched();
    fed_is_unseen();
}

/// What an end was fed on a link is a first part of what the other end lent there.
pub fn fed_is_lent()
    ensures { FedIsLent }
{
    worlds_are_histories();
    fed_is_unseen();
    lent_comes_last();
    lent_stays();
}
