//! What an event means for the link over a connection's socket.

/// What an event means for the link over a connection's socket.
#[derive(Clone, Copy, Debug, Drop, PartialEq, Eq)]
pub enum News<'e> {
    Nothing,
    /// The socket is up on this lane: a link begins.
    Begins { lane: u64 },
    /// One whole message.
    Brings(&'e [u8]),
    /// The lane of the link was full, and isn't any more.
    Drains,
    /// The link is lost. The connection is dialed again.
    Ends,
}
