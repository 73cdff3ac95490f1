//! Frames that an end says: each is the one that is due, in the bytes of its codec.

ghost use Rattle.std.specs.Prelude.{◌≡◌, ◌↔◌, ◌<◌, ◌+◌, List, Option, Some, IsTrue, IfOk, OnOk, length, max, option_map, slice_get, true};
ghost use Rattle.hm_message.specs.declared.message.Message.{Message};
ghost use Rattle.hd_delivery.specs.Frames.{LinkFrame};
ghost use Rattle.hd_delivery.specs.Histories.{Config};
ghost use Rattle.hd_delivery.specs.Numbers.{most_of_64_bits};
ghost use Rattle.hd_trace.specs.declared.owed.Owed.TheVariants as owed;
ghost use Rattle.hd_trace.specs.Owed.{HasNextNumbers, owed_frame};
ghost use Rattle.he_wire.specs.Controls.{frame_of_control};
ghost use Rattle.he_wire.specs.Spelling.{spelling};
ghost use Rattle.ha_audit.specs.AuditState.{bytes_of, has_link, messages_of, said_on};
ghost use Rattle.ha_audit.specs.AuditSteps.{Adds, LendsSo, Says};

use super::audited_end::AuditedEnd;
use super::said::SaidFrame;
use hd_delivery::{MOST_MESSAGES, Side};
use hd_trace::{Farewell, Owed, Rule};
use he_wire::{Control, ControlBuffer};
use hm_codec::write_message;
use hm_message::Codec;
use hs_shake::{Shake, response};
use std::alloc::{AllocError, Global};

impl AuditedEnd {
    /// It says these bytes on its link: the rule that this breaks, if it breaks any. `shake` is what it was begun to ask for. More frames on one
    /// link than there can be messages are answered as out of memory.
    pub(crate) fn lend(
        &mut self,
        alloc: Global,
        side: Side,
        shake: Shake,
        control: &mut ControlBuffer,
        bytes: &[u8],
    ) -> Result<Option<Rule>, AllocError>
        ensures { IfOk result (λ verdict. (c : Config) → c.side ≡ side → c.codec ≡ shake.codec → c.version ≡ shake.version →
            length self.old.sent.items ≡ self.old.marks.sent → HasNextNumbers self.old.marks → LendsSo c self.old self.new bytes.now verdict) }
    {
        let Some(link) = self.marks.link else {
            return Ok(Some(Rule::Link));
        };
        let Some(owed) = self.marks.due(side) else {
            return Ok(Some(Rule::Due));
        };
        if !self.is_spelled(alloc, owed, shake, control, bytes)? {
            return Ok(Some(Rule::Due));
        }
        self.say(link, owed, bytes)?;
        Ok(None)
    }

    /// Whether these bytes are what is owed, in the codec of the end.
    fn is_spelled(
        &self,
        alloc: Global,
        owed: Owed,
        shake: Shake,
        control: &mut ControlBuffer,
        bytes: &[u8],
    ) -> Result<bool, AllocError>
        ensures { IfOk result (λ answer. (c : Config) → c.codec ≡ shake.codec → c.version ≡ shake.version →
            IsTrue answer ↔ (option_map (spelling self.now.marks.codec) (owed_frame c
            (slice_get (messages_of self.now.sent.items) (max self.now.marks.acked self.now.marks.written)) (Some owed)) ≡ Some bytes.now)) }
    {
        let codec = self.marks.codec;
        match owed {
            Owed::Request => {
                control.write_request(shake);
                Ok(control.bytes() == bytes)
            }
            Owed::Response => Ok(response(None) == bytes),
            Owed::Message => self.is_next_message(alloc, bytes),
            Owed::Sequence { first, received } => {
                Ok(is_control(control, codec, Control::Sequence { first, received }, bytes))
            }
            Owed::Ack(upto) => Ok(is_control(control, codec, Control::Ack { upto }, bytes)),
            Owed::Ping => Ok(is_control(control, codec, Control::Ping, bytes)),
            Owed::Close(farewell) => {
                let Farewell { reason, allow } = farewell;
                Ok(is_control(control, codec, Control::Close { reason, allow }, bytes))
            }
        }
    }

    /// Whether these bytes are the frame of the next message.
    fn is_next_message(&self, alloc: Global, bytes: &[u8]) -> Result<bool, AllocError>
        ensures { IfOk result (λ answer. (c : Config) →
            IsTrue answer ↔ (option_map (spelling self.now.marks.codec) (owed_frame c
            (slice_get (messages_of self.now.sent.items) (max self.now.marks.acked self.now.marks.written)) (Some owed.Message)) ≡ Some bytes.now)) }
    {
        let Some(next) = self.sent.get(self.next_place()) else {
            return Ok(false);
        };
        let mut framed = Vec::new(alloc);
        write_message(alloc, self.marks.codec, &next.message, &mut framed)?;
        Ok(framed.as_slice() == bytes)
    }

    /// Which of the messages that it sent is the next one, from 0.
    fn next_place(&self) -> usize
        ensures { result ≡ max self.now.marks.acked self.now.marks.written }
    {
        self.marks.acked.max(self.marks.written) as usize
    }

    /// It said this on its link, in these bytes.
    fn say(&mut self, link: u64, owed: Owed, bytes: &[u8]) -> Result<(), AllocError>
        ensures { OnOk result ((c : Config) (f : LinkFrame) → HasNextNumbers self.old.marks →
            owed_frame c (slice_get (messages_of self.old.sent.items) (max self.old.marks.acked self.old.marks.written)) (Some owed) ≡ Some f →
            Says c self.old self.new link f bytes.now) }
    {
        let place = self.next_place();
        self.add(link, owed, place, bytes)?;
        self.marks = self.marks.lend(owed);
        Ok(())
    }

    /// One frame more was said on the link, which the end began.
    fn add(&mut self, link: u64, owed: Owed, place: usize, bytes: &[u8]) -> Result<(), AllocError>
        ensures links { OnOk result (has_link self.old.links link ≡ true → Adds self.old.links self.new.links link
            (record { owed = owed; place = place; end = length (bytes_of (said_on self.old.links link)) + length bytes.now }) bytes.now) }
        ensures rest { OnOk result (self.new ≡ record self.old { links = self.new.links }) }
    {
        let Some(said) = self.links.get_mut(&link) else {
            return Ok(());
        };
        if said.frames.len() as u64 >= MOST_MESSAGES {
            return Err(AllocError);
        }
        said.bytes.extend_from_slice(bytes)?;
        let end = said.bytes.len();
        said.frames.push(SaidFrame { owed, place, end })?;
        Ok(())
    }
}

/// Whether these bytes are this frame.
fn is_control(buffer: &mut ControlBuffer, codec: Codec, control: Control, bytes: &[u8]) -> bool
    ensures { IsTrue result ↔ (spelling codec (frame_of_control control) ≡ bytes.now) }
{
    buffer.write(codec, control);
    buffer.bytes() == bytes
}
