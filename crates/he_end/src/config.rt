//! How an end is begun.

use hm_message::Codec;
use hq_resend::Limits;

/// What an end is begun with.
#[derive(Clone, Copy, Debug, PartialEq, Eq)]
pub struct Config {
    /// The codec that a client asks for. A server takes that of the request.
    pub codec: Codec,
    /// The version that a client asks for: 1, 2 or 3. A server takes that of the request.
    pub version: u8,
    /// Whether the connection is to be kept across links. It is if the version is 2 or 3.
    pub reconnect: bool,
    pub limits: Limits,
}
