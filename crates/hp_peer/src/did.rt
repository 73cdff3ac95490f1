//! What a peer tells of what it took.

use hd_delivery::Got;
use hm_message::Ending;
use hv_value::{Items, Text, Value};

/// What one take did.
#[derive(Drop)]
pub enum Did {
    /// A call of the other side began the job of this number. `id` is `None` for a Notify.
    Began {
        job: u64,
        id: Option<Text>,
        target: Text,
        arguments: Items,
    },
    /// An item came for an own call.
    Item {
        call: u64,
        value: Value,
    },
    /// An own call has ended.
    Ended {
        call: u64,
        ending: Ending,
    },
    /// An item or the end came on the stream of this id, for a job.
    Fed(Text),
    /// The job of the call of this id is cancelled: its next turn is its end.
    Cancelled(Text),
    /// What came names this id, which no live call, job or stream has.
    Unknown(Text),
    /// The end took something that is no message of calls.
    Other(Got),
}
