//! Frames that an end alone deals with: each is read from the bytes that it was fed.

ghost use Rattle.std.specs.Prelude.{◌≡◌, ◌≤◌, ◌↔◌, ℕ, suc, true, false, Option, Some, None, IsTrue, IfOk, OnOk, IfSome, IfNone, option_map, if◌then◌else◌};
ghost use Rattle.hm_message.specs.Message.{Fits};
ghost use Rattle.hm_message.specs.Reads.{MessageIs};
ghost use Rattle.hd_delivery.specs.declared.vocabulary.Got.TheVariants as gives;
ghost use Rattle.hd_delivery.specs.declared.vocabulary.Got.TheVariants.{Shaken, Skipped};
ghost use Rattle.hd_delivery.specs.declared.vocabulary.Why.TheVariants.{NotUsed};
ghost use Rattle.hd_delivery.specs.Frames.{LinkFrame, count, frame_of, one_more, received_of};
ghost use Rattle.hd_delivery.specs.Histories.{HasFit, as_told};
ghost use Rattle.hd_delivery.specs.Numbers.{most_messages};
ghost use Rattle.he_wire.specs.Gives.{Begins};
ghost use Rattle.sr_notation.specs.Words.{got_words};
ghost use Rattle.hd_trace.specs.declared.trace.ToldStep.TheVariants as tells;
ghost use Rattle.hd_trace.specs.Marks.{took};
ghost use Rattle.hd_trace.specs.ByMarks.{ack_given, frame_given, message_given, next_number_by, sequence_given};
ghost use Rattle.ha_audit.specs.AloneKeeps.{JudgesAlone};
ghost use Rattle.ha_audit.specs.AloneSteps.{FindsNone, FindsSome, Passes, frame_read};

use super::auditor::AuditAlone;
use super::laws::kept_alone_is_known;
use hd_delivery::{Got, MOST_MESSAGES, Why, frames_are_taken, next_is_read, unread_moves};
use hd_trace::{Marks, Rule, marks_follow, takes_are_marked};
use he_wire::{Handshake, HandshakeFault, LinkFault, read_handshake, read_wire_message};
use hf_split::one_beginning;
use hm_message::{Message, Read};
use hs_shake::Shake;
use hv_value::Text;
use sr_notation::push_got_words;
use std::alloc::{AllocError, Global};

/// What the next frame of a link gives, and the number of the next message after it.
#[derive(Drop)]
pub(crate) struct Taken {
    pub(crate) next: Option<u64>,
    pub(crate) got: Got,
}

impl AuditAlone {
    pub(crate) fn take(&mut self, alloc: Global, words: &Text) -> Result<Option<Rule>, AllocError>
        ensures { IfOk result (JudgesAlone self.old self.new (tells.Take words.now)) }
    {
        frames_are_taken();
        kept_alone_is_known();
        marks_follow();
        next_is_read();
        one_beginning();
        takes_are_marked();
        unread_moves();
        let Some(link) = self.end.marks.link else {
            return Ok(Some(Rule::Link));
        };
        if self.end.marks.closed {
            return Ok(Some(Rule::State));
        }
        let Some(taken) = self.next(alloc, link)? else {
            return Ok(Some(Rule::Took));
        };
        if !is_told(alloc, self.end.marks.processed, &taken.got, words)? {
            return Ok(Some(Rule::Took));
        }
        self.pass(&taken);
        Ok(None)
    }

    /// The next frame was dealt with, which gave this.
    fn pass(&mut self, taken: &Taken)
        requires { Begins self.old.splitter }
        ensures { Passes self.old self.new taken.now }
    {
        self.end.marks = after(self.end.marks, self.head.reconnect, taken);
        let framing = self.framing();
        self.splitter.pass();
        self.splitter.reframe(framing);
    }

    /// What the next frame gives, if one was fed and it is no fault.
    fn next(&mut self, alloc: Global, link: u64) -> Result<Option<Taken>, AllocError>
        ensures rest { OnOk result (self.new ≡ record self.old { scratch = self.new.scratch }) }
        ensures found { IfOk result (λ r. IfSome r (FindsSome self.old link)) }
        ensures begins { IfOk result (λ r. IfSome r (λ _. Begins self.old.splitter)) }
        ensures fits { IfOk result (λ r. IfSome r (λ taken. HasFit taken.got)) }
        ensures none { IfOk result (λ r. IfNone r (FindsNone self.old link)) }
    {
        if self.end.marks.shaken {
            return self.next_message(alloc, link);
        }
        self.next_handshake(alloc)
    }

    /// What the handshake gives.
    fn next_handshake(&self, alloc: Global) -> Result<Option<Taken>, AllocError>
        requires { self.now.end.marks.shaken ≡ false }
        ensures found { IfOk result (λ r. IfSome r (λ taken. (l : ℕ) → FindsSome self.now l taken)) }
        ensures begins { IfOk result (λ r. IfSome r (λ _. Begins self.now.splitter)) }
        ensures fits { IfOk result (λ r. IfSome r (λ taken. HasFit taken.got)) }
        ensures none { IfOk result (λ r. IfNone r ((l : ℕ) → FindsNone self.now l)) }
    {
        match read_handshake(alloc, self.side, &self.splitter) {
            Ok(Some(Handshake::Request(shake))) => Ok(Some(shaken(shake))),
            Ok(Some(Handshake::Response)) => Ok(Some(shaken(Shake {
                codec: self.head.codec,
                version: self.head.version,
            }))),
            Ok(None) => Ok(None),
            Err(HandshakeFault::NoMemory) => Err(AllocError),
            Err(HandshakeFault::Split(_)) => Ok(None),
            Err(HandshakeFault::Shake(_)) => Ok(None),
        }
    }

    /// What a frame after the handshake gives.
    fn next_message(&mut self, alloc: Global, link: u64) -> Result<Option<Taken>, AllocError>
        requires { self.old.end.marks.shaken ≡ true }
        ensures rest { OnOk result (self.new ≡ record self.old { scratch = self.new.scratch }) }
        ensures found { IfOk result (λ r. IfSome r (FindsSome self.old link)) }
        ensures begins { IfOk result (λ r. IfSome r (λ _. Begins self.old.splitter)) }
        ensures fits { IfOk result (λ r. IfSome r (λ taken. HasFit taken.got)) }
        ensures none { IfOk result (λ r. IfNone r (FindsNone self.old link)) }
    {
        let marks = self.end.marks;
        match read_wire_message(alloc, marks.codec, &mut self.scratch, &self.splitter) {
            Ok(Some(read)) => {
                let next = next_after(marks.next, &read);
                match gives(marks, link, read) {
                    Some(got) => Ok(Some(Taken { next, got })),
                    None => Ok(None),
                }
            }
            Ok(None) => Ok(None),
            Err(LinkFault::NoMemory) => Err(AllocError),
            Err(LinkFault::Refused { .. }) => Ok(None),
        }
    }
}

/// What a handshake gives.
fn shaken(shake: Shake) -> Taken
    ensures { (result.got ≡ Shaken shake.codec shake.version) × (result.next ≡ Some 1) }
{
    let Shake { codec, version } = shake;
    Taken {
        next: Some(1),
        got: Got::Shaken { codec, version },
    }
}

/// Whether these words tell what a frame gave, after so many messages.
fn is_told(alloc: Global, processed: u64, got: &Got, words: &Text) -> Result<bool, AllocError>
    requires { HasFit got.now }
    ensures { IfOk result (λ answer. processed ≤ most_messages → IsTrue answer ↔ (got_words (suc processed) got.now ≡ words.now)) }
{
    let number = processed.saturating_add(1);
    let mut text = Vec::new(alloc);
    push_got_words(alloc, &mut text, number, got)?;
    Ok(text.as_slice() == words.as_str().as_bytes())
}

/// What a frame after the handshake gives, or `None` for a fault.
fn gives(marks: Marks, link: u64, read: Read) -> Option<Got>
    ensures value { marks.processed ≤ most_messages → result ≡ frame_given marks (next_number_by marks link) (frame_read read) }
    ensures fits { IfSome result (λ got. MessageIs read Fits → HasFit got) }
{
    match read {
        Read::Unknown(n) => Some(Got::Skipped(Why::Unknown(n))),
        Read::Message(message) => message_gives(marks, link, message),
    }
}

fn message_gives(marks: Marks, link: u64, message: Message) -> Option<Got>
    ensures value { marks.processed ≤ most_messages → result ≡ frame_given marks (next_number_by marks link) (frame_of message) }
    ensures fits { IfSome result (λ got. Fits message → HasFit got) }
{
    match message {
        Message::Ping => Some(Got::Ping),
        Message::Close { error, allow } => Some(Got::Closed { error, allow }),
        Message::Ack { upto } => ack_gives(marks, upto),
        Message::Sequence { first, received } => sequence_gives(marks, first, received),
        message => numbered_gives(marks, link, message),
    }
}

fn ack_gives(marks: Marks, upto: u64) -> Option<Got>
    ensures value { result ≡ (if marks.resumable then ack_given marks upto else Some (Skipped NotUsed)) }
    ensures fits { IfSome result HasFit }
{
    if !marks.resumable {
        return Some(Got::Skipped(Why::NotUsed));
    }
    if upto > marks.furthest {
        return None;
    }
    Some(Got::Acked(upto))
}

fn sequence_gives(marks: Marks, first: u64, received: Option<u64>) -> Option<Got>
    ensures value { marks.processed ≤ most_messages →
        result ≡ (if marks.resumable then sequence_given marks first (received_of received) else Some (Skipped NotUsed)) }
    ensures fits { IfSome result HasFit }
{
    if !marks.resumable {
        return Some(Got::Skipped(Why::NotUsed));
    }
    if first > marks.processed.saturating_add(1) {
        return None;
    }
    if !marks.three {
        return Some(Got::Sequenced(first));
    }
    resume_gives(marks, first, received.unwrap_or(0))
}

fn resume_gives(marks: Marks, first: u64, received: u64) -> Option<Got>
    ensures some { received ≤ marks.furthest → result ≡ Some (gives.Resumed first received) }
    ensures none { (received ≤ marks.furthest → ⊥) → result ≡ None }
    ensures fits { IfSome result HasFit }
{
    if received > marks.furthest {
        return None;
    }
    Some(Got::Resumed { first, received })
}

fn numbered_gives(marks: Marks, link: u64, message: Message) -> Option<Got>
    ensures value { marks.processed ≤ most_messages → result ≡ message_given marks.processed (next_number_by marks link) message }
    ensures fits { IfSome result (λ got. Fits message → HasFit got) }
{
    let Some(number) = marks.next_number(link) else {
        return Some(Got::Skipped(Why::BeforeSequence));
    };
    if number == MOST_MESSAGES + 1 {
        return None;
    }
    if number == marks.processed.saturating_add(1) {
        return Some(Got::Message(message));
    }
    Some(Got::Skipped(Why::Duplicate(number)))
}

/// The number of the next message after a frame, in 64 bits.
fn next_after(next: Option<u64>, read: &Read) -> Option<u64>
    ensures { result ≡ option_map as_told (count next (frame_read read.now)) }
{
    match read {
        Read::Unknown(_) => next,
        Read::Message(message) => after_message(next, message),
    }
}

fn after_message(next: Option<u64>, message: &Message) -> Option<u64>
    ensures { result ≡ option_map as_told (count next (frame_of message.now)) }
{
    match message {
        Message::Ping => next,
        Message::Close { .. } => next,
        Message::Ack { .. } => next,
        Message::Sequence { first, .. } => Some(*first),
        Message::Invocation { .. } => one_more(next),
        Message::StreamItem { .. } => one_more(next),
        Message::Completion { .. } => one_more(next),
        Message::StreamInvocation { .. } => one_more(next),
        Message::CancelInvocation { .. } => one_more(next),
    }
}

fn one_more(next: Option<u64>) -> Option<u64>
    ensures { result ≡ option_map as_told (one_more next) }
{
    match next {
        None => None,
        Some(number) => Some(number.saturating_add(1)),
    }
}

/// The marks once this frame was dealt with.
fn after(marks: Marks, reconnect: bool, taken: &Taken) -> Marks
    ensures { (f : LinkFrame) → marks.processed ≤ most_messages → result ≡ record (took reconnect f taken.now.got marks) { next = taken.now.next } }
{
    let next = taken.next;
    match taken.got {
        Got::Shaken { codec, version } => Marks {
            next,
            shaken: true,
            codec,
            resumable: reconnect && (version == 2 || version == 3),
            three: version == 3,
            ..marks
        },
        Got::Message(_) => Marks {
            next,
            processed: marks.processed.saturating_add(1),
            ..marks
        },
        Got::Acked(upto) => Marks {
            next,
            acked: upto.max(marks.acked),
            ..marks
        },
        Got::Resumed { first: _, received } => Marks {
            next,
            acked: received.max(marks.acked),
            resumed: true,
            ..marks
        },
        Got::Closed { .. } => Marks {
            next,
            closed: true,
            ..marks
        },
        Got::Sequenced(_) => Marks { next, ..marks },
        Got::Ping => Marks { next, ..marks },
        Got::Skipped(_) => Marks { next, ..marks },
    }
}
