//! The lines of a trace after its first one, and why one of them breaks off the session.

use hd_delivery::Side;
use hm_message::Message;
use hv_value::{Blob, Text};

/// What an end did, as a line of a trace tells it. No line tells of a fault.
#[derive(Drop)]
pub enum ToldStep {
    /// It stands on the link of this name.
    Attach(u64),
    /// It has lost its link.
    Detach,
    /// It was fed these bytes of its link.
    Feed(Blob),
    /// It said a frame, which has these bytes.
    Lend(Blob),
    /// It was handed a message to send.
    Send(Message),
    /// It dealt with the next frame of its link, which gave what these words tell.
    Take(Text),
    /// This moment came, in milliseconds. A tick that ends the link is told in the same way.
    Tick(u64),
    /// It was closed by its own side, for `Done`, and the other end may not connect again.
    Close,
}

/// A line of a trace of two ends.
#[derive(Drop)]
pub struct TraceLine {
    pub side: Side,
    pub step: ToldStep,
}

/// Why what the lines tell so far isn't what two ends, or one, can do: the first of these that applies.
#[derive(Clone, Copy, Debug, PartialEq, Eq)]
pub enum Rule {
    /// A link that the end may not begin, or a step that needs a link without one.
    Link,
    /// A step that the end's state excludes, or a moment before the last one.
    State,
    /// Bytes that the other end didn't say next on the link, or more than the end may have unread.
    Bytes,
    /// What was said isn't what was due.
    Due,
    /// What was taken isn't what the next frame gives.
    Took,
    /// A message for which there was no room, or whose frame is too long.
    Room,
}
