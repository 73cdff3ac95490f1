//! What the next frame of a link gives, by the marks of the end that takes it. The frame is one that the other end said, named as code names it.

ghost use Rattle.std.specs.Prelude.{◌≡◌, ◌≤◌, Some, if◌then◌else◌};
ghost use Rattle.hm_message.specs.declared.message.Message.{Message};
ghost use Rattle.hd_delivery.specs.Frames.{received_of};
ghost use Rattle.hd_delivery.specs.Histories.{Config};
ghost use Rattle.hd_delivery.specs.declared.vocabulary.Got.TheVariants.{Skipped};
ghost use Rattle.hd_delivery.specs.declared.vocabulary.Side.TheVariants.{Client, Server};
ghost use Rattle.hd_delivery.specs.declared.vocabulary.Why.TheVariants.{NotUsed};
ghost use Rattle.hd_delivery.specs.Numbers.{most_messages};
ghost use Rattle.hd_trace.specs.ByNumbers.{taken_by};
ghost use Rattle.hd_trace.specs.ByMarks.{ack_given, frame_given, greets_by, message_given, next_number_by, sequence_given};
ghost use Rattle.hd_trace.specs.Given.{IsGiven, said_frame};

use crate::marks::{Farewell, Marks};
use crate::owed::Owed;
use hd_delivery::{MOST_MESSAGES, Side, Why};

/// What a frame gives to the end that takes it, where the frame itself is known.
#[derive(Clone, Copy, Debug, PartialEq, Eq)]
pub enum Given {
    /// The handshake is complete, in the codec and version that the client asked for.
    Shaken,
    /// The message is the next one.
    Message,
    Acked(u64),
    Sequenced(u64),
    Resumed { first: u64, received: u64 },
    Ping,
    Skipped(Why),
    Closed(Farewell),
}

impl Marks {
    /// The number of a message that comes next on this link, if it has one; the end has handed out at most 2^62 messages.
    pub fn next_number(self, link: u64) -> Option<u64>
        ensures { self.processed ≤ most_messages → result ≡ next_number_by self link }
    {
        if !self.three && self.resumable {
            return self.next;
        }
        if self.next.is_none() || !(self.first == Some(link) || self.opened) {
            return None;
        }
        Some(self.processed.saturating_add(1))
    }

    /// What a message gives that has this number.
    fn message_gives(self, number: Option<u64>) -> Option<Given>
        ensures { (c oc : Config) (msg : Message) → self.processed ≤ most_messages →
            IsGiven c oc msg result (message_given self.processed number msg) }
    {
        let Some(number) = number else {
            return Some(Given::Skipped(Why::BeforeSequence));
        };
        if number == MOST_MESSAGES + 1 {
            return None;
        }
        if number == self.processed.saturating_add(1) {
            return Some(Given::Message);
        }
        Some(Given::Skipped(Why::Duplicate(number)))
    }

    fn ack_gives(self, upto: u64) -> Option<Given>
        ensures { (c oc : Config) (msg : Message) → IsGiven c oc msg result (ack_given self upto) }
    {
        if upto <= self.furthest {
            return Some(Given::Acked(upto));
        }
        None
    }

    fn sequence_gives(self, first: u64, received: u64) -> Option<Given>
        ensures { (c oc : Config) (msg : Message) → self.processed ≤ most_messages →
            IsGiven c oc msg result (sequence_given self first received) }
    {
        if first > self.processed.saturating_add(1) {
            return None;
        }
        if !self.three {
            return Some(Given::Sequenced(first));
        }
        if received > self.furthest {
            return None;
        }
        Some(Given::Resumed { first, received })
    }

    /// What a frame gives at this side, of which the other end named what it said on the link; `None` for a fault.
    pub fn gives(self, side: Side, link: u64, said: Owed) -> Option<Given>
        ensures { (c oc : Config) (msg : Message) → c.side ≡ side → self.processed ≤ most_messages →
            IsGiven c oc msg result (taken_by c self link (Some (said_frame oc msg said))) }
    {
        if !self.shaken {
            return greets(side, said);
        }
        self.frame_gives(link, said)
    }

    /// What a frame gives after the handshake.
    fn frame_gives(self, link: u64, said: Owed) -> Option<Given>
        ensures { (c oc : Config) (msg : Message) → self.processed ≤ most_messages →
            IsGiven c oc msg result (frame_given self (next_number_by self link) (said_frame oc msg said)) }
    {
        match said {
            Owed::Request => None,
            Owed::Response => None,
            Owed::Sequence { first, received } => self.sequence_or_unused(first, received),
            Owed::Ack(upto) => self.ack_or_unused(upto),
            Owed::Message => self.next_message_gives(link),
            Owed::Ping => Some(Given::Ping),
            Owed::Close(farewell) => Some(Given::Closed(farewell)),
        }
    }

    fn next_message_gives(self, link: u64) -> Option<Given>
        ensures { (c oc : Config) (msg : Message) → self.processed ≤ most_messages →
            IsGiven c oc msg result (message_given self.processed (next_number_by self link) msg) }
    {
        let number = self.next_number(link);
        self.message_gives(number)
    }

    fn ack_or_unused(self, upto: u64) -> Option<Given>
        ensures { (c oc : Config) (msg : Message) →
            IsGiven c oc msg result (if self.resumable then ack_given self upto else Some (Skipped NotUsed)) }
    {
        if !self.resumable {
            return Some(Given::Skipped(Why::NotUsed));
        }
        self.ack_gives(upto)
    }

    fn sequence_or_unused(self, first: u64, received: Option<u64>) -> Option<Given>
        ensures { (c oc : Config) (msg : Message) → self.processed ≤ most_messages →
            IsGiven c oc msg result (if self.resumable then sequence_given self first (received_of received) else Some (Skipped NotUsed)) }
    {
        if !self.resumable {
            return Some(Given::Skipped(Why::NotUsed));
        }
        let count = received_count(received);
        self.sequence_gives(first, count)
    }
}

/// How much a Sequence tells as received, where nothing counts as 0.
fn received_count(received: Option<u64>) -> u64
    ensures { result ≡ received_of received }
{
    match received {
        None => 0,
        Some(count) => count,
    }
}

/// What the first frame gives at this side, where it is the other side's handshake.
fn greets(side: Side, said: Owed) -> Option<Given>
    ensures { (c oc : Config) (msg : Message) → c.side ≡ side → IsGiven c oc msg result (greets_by c.side c (said_frame oc msg said)) }
{
    match side {
        Side::Client => client_greets(said),
        Side::Server => server_greets(said),
    }
}

fn client_greets(said: Owed) -> Option<Given>
    ensures { (c oc : Config) (msg : Message) → c.side ≡ Client → IsGiven c oc msg result (greets_by Client c (said_frame oc msg said)) }
{
    match said {
        Owed::Response => Some(Given::Shaken),
        Owed::Request => None,
        Owed::Sequence { .. } => None,
        Owed::Ack(_) => None,
        Owed::Message => None,
        Owed::Ping => None,
        Owed::Close(_) => None,
    }
}

fn server_greets(said: Owed) -> Option<Given>
    ensures { (c oc : Config) (msg : Message) → c.side ≡ Server → IsGiven c oc msg result (greets_by Server c (said_frame oc msg said)) }
{
    match said {
        Owed::Request => Some(Given::Shaken),
        Owed::Response => None,
        Owed::Sequence { .. } => None,
        Owed::Ack(_) => None,
        Owed::Message => None,
        Owed::Ping => None,
        Owed::Close(_) => None,
    }
}
