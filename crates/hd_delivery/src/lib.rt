//! Two ends of a hub connection (HubProtocol.md of ASP.NET Core), each of which keeps its messages until the other has
//! them, over links that come and go: what an end says, what it makes of what it reads, and that every message arrives
//! once and in order.
//!
//! The definitions stand in `specs/`, over whole lists of steps, messages and frames. The words of an end (`Side`,
//! `State`, `Reason`, `Why`, `Got`) and its `Limits` are types of this crate, so that the code of an end and the definitions
//! share them.
//!
//! What one end does by itself stands in `Alone`: it says the frames that are due, is fed the bytes that came on its link, and
//! takes the frames that it was fed. `Following` is of steps of any kind: which of them follow from one another, all of them or
//! up to a number. `Sides` names the two histories of a world by their side. An end that is let go on comes to an end
//! ([`writes_few`], [`takes_few`]), and what each end reads on a link is what the other said there ([`fed_is_lent`],
//! [`fed_is_whole`]).
//!
//! Each function but `Reason::text` and those of `Limits` does nothing: its contract is a theorem (`delivery`, `delivery_over_bytes`), a law
//! that crates above cite, or a list of worked cases. To use a law, call it where it is needed: that costs nothing.
//!
//! The crate doesn't know how frames are written, nor sockets, clocks, calls or hubs.
#![tactic(auto)]

mod alone;
mod laws;
mod limits;
mod one_end;
mod vocabulary;
mod worlds;

ghost use Rattle.hd_delivery.specs.Bytes.{HoldsOverBytes};
ghost use Rattle.hd_delivery.specs.Worlds.{HoldsInEveryWorld};

pub use alone::{
    fed_is_lent, frames_are_taken, lent_comes_last, lent_stays, taken_has_room, takes_few,
    taking_drops, unused_is_empty, writes_few,
};
pub use laws::{
    all_is_read, cuts_grow, delivery_as_sent, due_is_short, facts_hold, fed_is_cut, fed_is_unseen,
    fed_is_whole, frames_count, histories_are_in_order, links_grow, next_is_read,
    numbers_are_named, sent_can_be_sent, sequenced_is_numbered, unread_begins, unread_grows,
    unread_is_bounded, unread_moves, unread_stays, unused_is_untouched, worlds_are_histories,
};
pub use limits::{LEAST_FRAME, Limits, MOST_BYTES, MOST_COUNT, MOST_FRAME};
pub use one_end::{alone_over_bytes, closings, first_frames, moments, numbers};
pub use vocabulary::{
    Got, MOST_FRAMING, MOST_MESSAGES, PING_AFTER, Reason, SILENCE_AFTER, Side, State, Why,
};
pub use worlds::{
    still_worlds, what_is_excluded, what_may_not_come, worked_over_bytes, worked_worlds,
};

/// In every world of two ends, what each has processed is a first part of what the other sent, and
/// all of it once nothing is left to say or read. Neither refuses what the other says, and what
/// each tells of its progress is true.
pub fn delivery()
    ensures { HoldsInEveryWorld }
{}

/// The same where links carry bytes, are cut anywhere, and lose what isn't read: for any way to
/// write frames, and any readers that read what is written of a frame as that frame.
pub fn delivery_over_bytes()
    ensures { HoldsOverBytes }
{}
