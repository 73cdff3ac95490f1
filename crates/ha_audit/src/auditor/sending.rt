//! Messages that an end is handed to send: they need room.

ghost use Rattle.std.specs.Prelude.{◌≡◌, ◌↔◌, ◌≤◌, ◌+◌, IsTrue, IfOk, OnOk, length};
ghost use Rattle.hm_codec.specs.Frames.{IsSaid, frame_of};
ghost use Rattle.hd_delivery.specs.Worlds.{IsAsRead};
ghost use Rattle.ha_audit.specs.AuditState.{framed_size, sum_of_first};
ghost use Rattle.ha_audit.specs.AuditSteps.{HasRoomFor, SendsSo, released_by};
ghost use Rattle.ha_audit.specs.Grammar.{HasText};

use super::audited_end::AuditedEnd;
use super::sent::SentMessage;
use hd_delivery::{Limits, MOST_MESSAGES};
use hd_trace::Rule;
use he_wire::unframed_size;
use hm_codec::{one_meaning, write_message};
use hm_message::{Codec, Message};
use std::alloc::{AllocError, Global};

/// How many bytes a message's frame has.
#[derive(Clone, Copy, Debug, PartialEq, Eq)]
struct Size {
    frame: usize,
    framed: usize,
}

impl AuditedEnd {
    /// It is handed a message to send: the rule that this breaks, if it breaks any. More bytes of messages than a `u64` counts are answered as out
    /// of memory.
    pub(crate) fn send(
        &mut self,
        alloc: Global,
        limits: &Limits,
        message: Message,
    ) -> Result<Option<Rule>, AllocError>
        requires { HasText message }
        ensures { IfOk result (SendsSo self.old self.new limits.now message) }
    {
        if self.marks.closed || !self.marks.shaken {
            return Ok(Some(Rule::State));
        }
        let size = size_of(alloc, self.marks.codec, &message)?;
        let Some(sum) = self.sum_of_all().checked_add(size.framed as u64) else {
            return Err(AllocError);
        };
        if !self.has_room(limits, size.frame, sum) {
            return Ok(Some(Rule::Room));
        }
        self.sent.push(SentMessage { message, sum })?;
        self.marks = self.marks.send();
        Ok(None)
    }

    /// The sizes of all that it sent.
    fn sum_of_all(&self) -> u64
        ensures { result ≡ sum_of_first self.now.sent.items (length self.now.sent.items) }
    {
        sum_of_first(self.sent.as_slice(), self.sent.len() as u64)
    }

    /// Whether a message has room whose frame has so many bytes, and with which all have this sum.
    fn has_room(&self, limits: &Limits, frame: usize, sum: u64) -> bool
        ensures { (m : Message) → frame ≡ length (frame_of self.now.marks.codec m) →
            sum ≡ sum_of_first self.now.sent.items (length self.now.sent.items) + framed_size self.now.marks.codec m →
            IsTrue result ↔ HasRoomFor self.now limits.now m }
    {
        let released = self.released();
        if self.marks.sent >= MOST_MESSAGES {
            return false;
        }
        if frame > limits.frame() {
            return false;
        }
        let count = (limits.count() as u64).saturating_add(released);
        if self.marks.sent >= count {
            return false;
        }
        let bytes = (limits.bytes() as u64).saturating_add(sum_of_first(
            self.sent.as_slice(),
            released,
        ));
        sum <= bytes
    }

    /// Up to which place the messages that it sent aren't held any more.
    fn released(&self) -> u64
        ensures { result ≡ released_by self.now.marks }
    {
        if self.marks.resumable {
            return self.marks.acked;
        }
        self.marks.furthest
    }
}

/// The sizes of the first messages.
fn sum_of_first(sent: &[SentMessage], count: u64) -> u64
    ensures { result ≡ sum_of_first sent.now count }
{
    if count == 0 {
        return 0;
    }
    match sent.get((count - 1) as usize) {
        Some(last) => last.sum,
        None => 0,
    }
}

/// The size of the message's frame, without its framing and with it.
fn size_of(alloc: Global, codec: Codec, message: &Message) -> Result<Size, AllocError>
    requires { HasText message.now }
    ensures frame { IfOk result (λ size. size.frame ≡ length (frame_of codec message.now)) }
    ensures framed { IfOk result (λ size. size.framed ≡ framed_size codec message.now) }
    ensures said { OnOk result (IsSaid codec message.now) }
    ensures as_read { OnOk result (IsAsRead codec message.now) }
{
    one_meaning();
    let mut bytes = Vec::new(alloc);
    write_message(alloc, codec, message, &mut bytes)?;
    let frame = unframed_size(codec, bytes.as_slice());
    let framed = bytes.len();
    Ok(Size { frame, framed })
}
