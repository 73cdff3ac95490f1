//! What an end owes on its link, by its marks.

ghost use Rattle.std.specs.Prelude.{◌≡◌, ◌<◌, List, length, Option, Some, None, is_some};
ghost use Rattle.hm_message.specs.declared.message.Message.{Message};
ghost use Rattle.hd_delivery.specs.Histories.{Config};
ghost use Rattle.hd_trace.specs.ByMarks.{ack_by, close_by, due_by, message_by, next_by, opening_by, ping_by, sequence_by};
ghost use Rattle.hd_delivery.specs.Numbers.{most_of_64_bits};
ghost use Rattle.hd_trace.specs.Owed.{IsOwed};

use crate::marks::{Farewell, Marks};
use hd_delivery::Side;

/// What is due on a link.
#[derive(Clone, Copy, Debug, PartialEq, Eq)]
pub enum Owed {
    /// The client's handshake, in the codec and version with which it was begun.
    Request,
    /// The server's handshake.
    Response,
    Sequence {
        /// The number of the next message.
        first: u64,
        /// How many messages of the other end were handed out (version 3).
        received: Option<u64>,
    },
    /// That this many messages of the other end were handed out.
    Ack(u64),
    /// The next message that wasn't said on the link.
    Message,
    Ping,
    Close(Farewell),
}

impl Marks {
    /// What is due at an end of this side, which sent as many messages as the marks say; the other end acknowledged fewer than 2^64 - 1.
    pub fn due(self, side: Side) -> Option<Owed>
        ensures { (c : Config) (sent : List Message) → c.side ≡ side → length sent ≡ self.sent →
            self.acked < most_of_64_bits → IsOwed c (next_by self sent) result (due_by c self sent) }
    {
        let Some(link) = self.link else {
            return None;
        };
        if !self.opened {
            return self.opening(side, link);
        }
        self.sequence()
            .or(self.ack())
            .or(self.message(link))
            .or(self.ping())
            .or(self.parting())
    }

    fn opening(self, side: Side, link: u64) -> Option<Owed>
        ensures { (c : Config) (next : Option Message) → c.side ≡ side → self.acked < most_of_64_bits →
            IsOwed c next result (opening_by c self link) }
    {
        if self.first != Some(link) {
            let first = self.acked.saturating_add(1);
            let received = if self.three {
                Some(self.processed)
            } else {
                None
            };
            return Some(Owed::Sequence { first, received });
        }
        match side {
            Side::Client => if self.closed {
                None
            } else {
                Some(Owed::Request)
            },
            Side::Server => if self.shaken {
                Some(Owed::Response)
            } else {
                None
            },
        }
    }

    /// Whether a message waits.
    fn waits(self) -> bool
        ensures { (sent : List Message) → length sent ≡ self.sent → result ≡ is_some (next_by self sent) }
    {
        self.acked.max(self.written) < self.sent
    }

    fn sequence(self) -> Option<Owed>
        ensures { (c : Config) (sent : List Message) → length sent ≡ self.sent →
            IsOwed c (next_by self sent) result (sequence_by self sent) }
    {
        let place = self.acked.max(self.written).saturating_add(1);
        if self.three || !self.waits() || self.said == Some(place) {
            return None;
        }
        Some(Owed::Sequence {
            first: place,
            received: None,
        })
    }

    fn ack(self) -> Option<Owed>
        ensures { (c : Config) (next : Option Message) → IsOwed c next result (ack_by self) }
    {
        if self.resumable && !self.closed && self.reported < self.processed {
            return Some(Owed::Ack(self.processed));
        }
        None
    }

    fn message(self, link: u64) -> Option<Owed>
        ensures { (c : Config) (sent : List Message) → length sent ≡ self.sent →
            IsOwed c (next_by self sent) result (message_by self sent link) }
    {
        if (!self.three || self.first == Some(link) || self.resumed) && self.waits() {
            return Some(Owed::Message);
        }
        None
    }

    fn ping(self) -> Option<Owed>
        ensures { (c : Config) (next : Option Message) → IsOwed c next result (ping_by self) }
    {
        if !self.closed && self.shaken && self.link.is_some() && self.quiet {
            return Some(Owed::Ping);
        }
        None
    }

    fn parting(self) -> Option<Owed>
        ensures { (c : Config) (next : Option Message) → IsOwed c next result (close_by self) }
    {
        if !self.shaken || self.parted {
            return None;
        }
        match self.farewell {
            Some(farewell) => Some(Owed::Close(farewell)),
            None => None,
        }
    }
}
