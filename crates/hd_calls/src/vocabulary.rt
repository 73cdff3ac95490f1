//! The words in which a hub, its jobs and a peer speak: how something is called, what a job is given, what it does, and
//! what it asks of the server that it runs in. The definitions in `specs/` are over these types, so the code has no others.

use hm_message::Ending;
use hv_value::{Items, Text, Texts, Value};

/// The most own calls and uploads that are live at a peer, and the most jobs.
pub const MOST_LIVE: u64 = 1024;

/// The most uploads of one call.
pub const MOST_UPLOADS: u32 = 8;

/// The most inputs from uploads that wait at one job, over all its streams.
pub const MOST_INPUTS: u64 = 4096;

/// The most that the calls of live jobs, the inputs that wait at them and the answers to their asks weigh together, in bytes: 48 for each
/// value, list of arguments, target, id, stream's end and ending, with the bytes of texts, of bytes, and of the keys of maps.
pub const MOST_WEIGHT: u64 = 1 << 24;

/// What a value, a list of arguments, a target, an id, a stream's end or an ending weighs, beside its bytes and what is in it.
pub const BASE_WEIGHT: u64 = 48;

/// What a job is told whose ask is refused.
pub const REFUSAL_TEXT: &str = "The ask was refused.";

/// The greatest number that a peer draws for its calls and uploads.
pub const MOST_NUMBERS: u64 = 1 << 62;

/// No call, job or stream that is live has this id or number.
#[derive(Clone, Copy, Debug, PartialEq, Eq)]
pub struct UnknownId;

/// How something is called.
#[derive(Clone, Copy, Debug, PartialEq, Eq)]
pub enum CallKind {
    /// No answer is wanted.
    Notify,
    /// One ending is wanted.
    Call,
    /// Items are wanted, and then an ending.
    Stream,
}

/// A call as a hub is given it.
#[derive(Drop, PartialEq, Eq)]
pub struct Call {
    /// `None` exactly for a Notify.
    pub id: Option<Text>,
    pub kind: CallKind,
    pub target: Text,
    pub arguments: Items,
    /// The ids of the uploads that come with the call.
    pub streams: Texts,
    /// The name of the caller's side.
    pub who: Text,
}

/// What a job is given at a turn.
#[derive(Drop, PartialEq, Eq)]
pub enum Input {
    /// At its first turn, and after `More` and `Item`.
    Go,
    /// An item of an upload: `which` counts the call's streams from 0.
    Item { which: u32, value: Value },
    /// The end of an upload.
    StreamEnd { which: u32, error: Option<Text> },
    /// How the call ended for which the job asked.
    Asked(Ending),
    /// A deed was done, with this result.
    Done(Value),
    /// A deed couldn't be done.
    Failed,
}

/// What a job does at a turn.
#[derive(Drop, PartialEq, Eq)]
pub enum Act {
    /// Nothing yet: the next turn comes in the next round.
    More,
    /// It waits for an input of an upload.
    Wait,
    /// An item for its caller, who gets it if the call is a Stream.
    Item(Value),
    /// The end of the job, and of its call.
    End(Ending),
    /// The other side is to be called. The next input is how that call ended.
    Ask { target: Text, arguments: Items },
    /// The server is to do this. The next input is `Done` or `Failed`.
    Do(Deed),
}

/// What a job asks of the server that it runs in.
#[derive(Drop, PartialEq, Eq)]
pub enum Deed {
    /// The job's connection joins the group.
    Join(Text),
    /// The job's connection leaves the group.
    Leave(Text),
    /// Each member of the group is notified.
    Post {
        group: Text,
        target: Text,
        arguments: Items,
    },
    /// Each connection of the user is notified.
    Tell {
        user: Text,
        target: Text,
        arguments: Items,
    },
    /// The text is kept as the room's next row.
    Log {
        room: Text,
        text: Text,
    },
    /// The last rows of the room, `most` of them at most.
    History {
        room: Text,
        most: u32,
    },
}
