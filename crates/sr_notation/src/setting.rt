//! The options of an end.

use hd_delivery::Limits;
use hm_message::Codec;

/// An option of an end, as a line asks for it.
#[derive(Clone, Copy, Debug, PartialEq, Eq)]
pub enum Setting {
    /// The codec that the client asks for: JSON if no line says so.
    Codec(Codec),
    /// The version that the client asks for, 1 to 3: 2 if no line says so.
    Version(u8),
    /// Whether the connection is to be kept across links: it is if no line says so.
    Reconnect(bool),
    /// What each end may hold and read: 1,024 messages, 100,000 bytes and frames of 32,768 bytes if no line says so.
    Buffer(Limits),
    /// Calls go between the two ends, by peers: messages are sent as they are if no line says so.
    Peers,
}
