//! What crates above cite of the definitions. No function here does anything: its contract is the law.

ghost use Rattle.std.specs.Prelude.{◌≡◌};
ghost use Rattle.hw_socket.specs.Buffers.{most_reserved};
ghost use Rattle.hw_socket.specs.Limits.{most_message, most_frame};
ghost use Rattle.hw_socket.specs.Sessions.{ClientsAreHeard, ServersAreHeard, EndsOnce, WritesFrames, SessionsAreHeard};

use crate::front::MOST_RESERVED;
use crate::vocabulary::{MOST_FRAME, MOST_MESSAGE};

/// What a client's lane sent is what a server's lane reads, message by message, in whatever pieces its bytes come.
pub fn clients_are_heard()
    ensures { ClientsAreHeard }
{}

/// What a server's lane sent is what a client's lane reads, message by message, in whatever pieces its bytes come.
pub fn servers_are_heard()
    ensures { ServersAreHeard }
{}

/// A lane that is gone stays gone for the same cause, reads and sends nothing, and writes at most the close frame of this cause.
pub fn lanes_end_once()
    ensures { EndsOnce }
{}

/// In any session, what left a lane by `drop_out` and then what waits in `out` are whole frames: the messages that `send` took, in order,
/// pongs, and at most one close frame. It is the last, and its status says why the lane is gone.
pub fn lanes_write_frames()
    ensures { WritesFrames }
{}

/// In any session of two lanes, one of each side, each hears the other's messages in order, in whatever pieces the bytes leave and come,
/// and whatever else is done with both.
pub fn sessions_are_heard()
    ensures { SessionsAreHeard }
{}

/// The constants are the numbers of the definitions.
pub fn limits_are_named()
    ensures message { MOST_MESSAGE ≡ most_message }
    ensures frame { MOST_FRAME ≡ most_frame }
    ensures reserved { MOST_RESERVED ≡ most_reserved }
{}
