//! The messages that an end was handed to send.

ghost use Rattle.hm_message.specs.Message.{Fits};

use hm_message::Message;

/// A message that an end was handed to send.
#[derive(Drop)]
pub struct SentMessage {
    pub(crate) message: Message,
    /// How many bytes all messages up to this one have with their framing.
    pub(crate) sum: u64,
    ghost fits: { Fits message },
}
