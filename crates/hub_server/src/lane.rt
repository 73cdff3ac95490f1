//! What is kept of a lane on which a connection is.

/// A lane on which a connection stands, or holds a poll.
#[derive(Clone, Copy, Debug, PartialEq, Eq)]
pub struct Lane {
    pub(crate) conn: u64,
    /// The connection holds a poll there. Else it is a WebSocket.
    pub(crate) polls: bool,
    /// The lane is to be shut after the reply to its request.
    pub(crate) is_last: bool,
    /// The door has shut it.
    pub(crate) is_refused: bool,
    /// The door answered to the last message that it is full, and hasn't said since that it has drained.
    pub(crate) is_full: bool,
}
