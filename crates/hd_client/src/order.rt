//! What the lines of a client's script ask for.

use hd_calls::CallKind;
use hv_value::{Items, Text, Value};

/// What a line of a client's script asks for.
#[derive(Drop, PartialEq)]
pub enum Order {
    /// Its peer calls the server, with so many uploads. A peer's calls have numbers, of which the later orders name one.
    Call {
        kind: CallKind,
        target: Text,
        arguments: Items,
        uploads: u32,
    },
    /// An item of the upload of this call is sent.
    Item(u64, Value),
    /// The upload of this call ends.
    Done(u64),
    /// This call is to end early.
    Cancel(u64),
    /// The next lines wait until no call is live.
    Wait,
    /// The link is given up, if there is one.
    Lose,
}
