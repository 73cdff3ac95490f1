//! What an end says of itself, in bytes that are written in memory taken at the start.
ghost use Rattle.std.specs.Prelude.{◌≡◌, ◌≤◌, [], length, IfOk, vec_capacity};
ghost use Rattle.hd_delivery.specs.Frames.{Request};
ghost use Rattle.he_wire.specs.Controls.{frame_of_control, most_control};
ghost use Rattle.he_wire.specs.Spelling.{spelling};

use crate::json_control::put_json;
use crate::pack_control::put_pack;
use crate::request::put_request;
use hd_delivery::Reason;
use hm_message::Codec;
use hs_shake::Shake;
use std::alloc::{AllocError, Global};
use std::marker::Model;

/// The most bytes of a control frame with its framing: a Sequence in JSON with two numbers of 20 digits. A request has fewer.
pub const MOST_CONTROL: usize = 77;

/// A control frame, which an end says of its own accord: it carries no message of the application.
#[derive(Clone, Copy, Debug, PartialEq, Eq)]
pub enum Control {
    /// Every message up to this number has been processed.
    Ack {
        upto: u64,
    },
    /// Where the messages of a link begin.
    Sequence {
        /// The number of the next message that is said.
        first: u64,
        /// How many messages have been processed, where that is told.
        received: Option<u64>,
    },
    /// The link is alive.
    Ping,
    Close {
        reason: Reason,
        /// Whether the other end may connect again.
        allow: bool,
    },
}

/// The frame that was written last. Only [`ControlBuffer::start`] takes memory.
#[derive(Drop)]
pub struct ControlBuffer {
    bytes: Vec<u8>,
}

impl Model for ControlBuffer {
    ghost use Rattle.std.specs.Prelude.{ℕ, List, ◌≤◌, vec_capacity};
    ghost use Rattle.he_wire.specs.declared.control_buffer.TheConstants.{MOST_CONTROL};

    ghost Value = { List ℕ };

    ghost view = { λ s. s.bytes.items };

    ghost invariant = { λ s. MOST_CONTROL ≤ vec_capacity s.bytes };
}

impl ControlBuffer {
    /// A slate with nothing on it, and with room for each control frame and request. It fails if it is out of memory.
    pub fn start(alloc: Global) -> Result<ControlBuffer, AllocError>
        ensures { IfOk result (λ control_buffer. control_buffer ≡ []) }
    {
        Ok(ControlBuffer {
            bytes: Vec::with_capacity(alloc, MOST_CONTROL)?,
        })
    }

    /// Writes the frame in this codec with its framing, in place of what stood there (HubProtocol.md, "JSON Encoding" and
    /// "MessagePack (MsgPack) encoding").
    pub fn write(&mut self, codec: Codec, control: Control)
        ensures written { self.new ≡ spelling codec (frame_of_control control) }
        ensures short { length self.new ≤ most_control }
    {
        self.bytes.clear();
        match codec {
            Codec::Json => put_json(control, &mut self.bytes),
            Codec::Pack => put_pack(control, &mut self.bytes),
        }
    }

    /// Writes the request for this codec and version with its separator, in place of what stood there (HubProtocol.md,
    /// "Overview").
    pub fn write_request(&mut self, shake: Shake)
        ensures written { self.new ≡ spelling shake.codec (Request shake.codec shake.version) }
        ensures short { length self.new ≤ most_control }
    {
        self.bytes.clear();
        put_request(shake, &mut self.bytes);
    }

    /// What was written last, or nothing.
    pub fn bytes(&self) -> &[u8]
        ensures { result.now ≡ self.now }
    {
        &self.bytes
    }
}
