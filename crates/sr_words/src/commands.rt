//! The commands of the program, as values: what the words of a command line come to.

use crate::adding::Adding;
use crate::dialing::Dialing;
use crate::serving::Serving;
use hd_delivery::Side;
use hm_message::Codec;

/// What the words of a command line ask for.
#[derive(Drop, PartialEq, Eq)]
pub enum Command {
    /// To replay a script.
    Replay,
    /// To write down the session of a script, as a trace.
    Record,
    /// To judge a trace: of two ends, or of this one alone.
    Audit { side: Option<Side> },
    /// To let two peers do what numbers say that are drawn from this seed, in so many steps: at most [`MOST_STEPS`](crate::MOST_STEPS).
    Soak { seed: u64, steps: u32 },
    /// To tell of each frame what it says.
    Check { codec: Codec },
    /// To write each frame anew in another codec.
    Convert { from: Codec, to: Codec },
    /// To serve the hubs.
    Serve(Serving),
    /// To call methods of a hub by a script, over connections that are dialed.
    Client(Dialing),
    /// To add a user to a store.
    User(Adding),
}
