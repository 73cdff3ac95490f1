//! What a session has to say next, and that it was said.

ghost use Rattle.std.specs.Prelude.{◌≡◌, ◌↔◌, ℕ, List, [], ◌∷◌, true, Some, None, option_map, IsNone, length, if◌then◌else◌};
ghost use Rattle.std.specs.Borrow.{sem};
ghost use Rattle.hm_message.specs.declared.message.Message.{Message};
ghost use Rattle.hm_codec.specs.Frames.{framed};
ghost use Rattle.hd_delivery.specs.Frames.{LinkFrame, Numbered, count, told_count};
ghost use Rattle.hd_delivery.specs.Histories.{Config, EndEvent, Lent, codec_of, is_three, lent_frames, processed_messages};
ghost use Rattle.hd_delivery.specs.Due.{due, due_after, opening, sequence_due, ack_due, may_write, message_due, ping_due, close_due, has_close};
ghost use Rattle.he_end.specs.Remembers.{Remembers, OfLink};
ghost use Rattle.he_end.specs.Says.{IsDue, HasNoMessage};
ghost use Rattle.he_end.specs.Lending.{EndsAs};

use crate::link::{Farewell, Link};
use crate::session::Session;
use hd_delivery::{Side, State};
use hq_resend::buffer_is_within;

/// What is due on a link, in the order in which it is looked for.
#[derive(Clone, Copy, Debug, PartialEq, Eq)]
pub enum NextFrame {
    /// The client's handshake.
    Request,
    /// The server's, where it took the request.
    Response,
    /// The server's, where it refused the request.
    Refusal,
    /// The number of the next message on the link and, at version 3, how many were processed.
    Sequence { first: u64, received: Option<u64> },
    /// How many messages were processed.
    Ack(u64),
    /// The next message that this link hasn't carried.
    Message,
    Ping,
    Close(Farewell),
}

impl NextFrame {
    /// The number that the other end gives the next message after this, if it gave `said` before. A message isn't counted here:
    /// `say_message` does that.
    fn counted(self, said: Option<u64>) -> Option<u64>
        ensures { (c : Config) (k : List EndEvent) (f : LinkFrame) →
            IsDue c k (Some f) (Some self) → (self ≡ NextFrame.Message → ⊥) → result ≡ count said f }
    {
        match self {
            NextFrame::Request | NextFrame::Response => Some(1),
            NextFrame::Sequence { first, .. } => Some(first),
            _ => said,
        }
    }

    /// How many messages it tells to be processed.
    fn told(self) -> u64
        ensures { (c : Config) (k : List EndEvent) (f : LinkFrame) →
            IsDue c k (Some f) (Some self) → result ≡ told_count f }
    {
        match self {
            NextFrame::Sequence { received, .. } => received.unwrap_or(0),
            NextFrame::Ack(upto) => upto,
            _ => 0,
        }
    }

    fn is_close(self) -> bool
        ensures { (c : Config) (k : List EndEvent) (f : LinkFrame) →
            IsDue c k (Some f) (Some self) → result ≡ has_close (f ∷ []) }
    {
        match self {
            NextFrame::Close(_) => true,
            _ => false,
        }
    }
}

impl Session {
    /// What is due on the link, if anything is. Nothing is without a link.
    pub fn due(&self) -> Option<NextFrame>
        ensures { (c : Config) (k : List EndEvent) → Remembers c self.now k →
            IsDue c k (due c k) result }
    {
        let Some(link) = self.link else { return None };
        if self.answer.is_some() {
            return if link.opened {
                None
            } else {
                Some(NextFrame::Refusal)
            };
        }
        if link.opened {
            self.later(&link)
        } else {
            self.opening(&link)
        }
    }

    /// The first frame of the link.
    fn opening(&self, link: &Link) -> Option<NextFrame>
        ensures { (c : Config) (k : List EndEvent) (l : ℕ) → Remembers c self.now k →
            OfLink self.now c k link.now l → IsDue c k (opening c k l) result }
    {
        if !link.first {
            let first = self.ring.first_held();
            let received = self.received();
            return Some(NextFrame::Sequence { first, received });
        }
        match self.side {
            Side::Client if self.closed => None,
            Side::Client => Some(NextFrame::Request),
            Side::Server if self.agreed.is_some() => Some(NextFrame::Response),
            Side::Server => None,
        }
    }

    /// How many messages were processed, which version 3 tells at the opening of a later link.
    fn received(&self) -> Option<u64>
        ensures { (c : Config) (k : List EndEvent) → Remembers c self.now k →
            result ≡ (if is_three k then Some (length (processed_messages k)) else None) }
    {
        if self.is_three() {
            return Some(self.intake.processed());
        }
        None
    }

    /// A later frame of the link.
    fn later(&self, link: &Link) -> Option<NextFrame>
        requires { link.now.opened ≡ true }
        ensures { (c : Config) (k : List EndEvent) (l : ℕ) → Remembers c self.now k →
            OfLink self.now c k link.now l → IsDue c k (due_after c k l (lent_frames l k)) result }
    {
        self.sequence_due(link)
            .or(self.ack_due(link))
            .or(self.message_due(link))
            .or(self.ping_due(link))
            .or(self.close_due(link))
    }

    /// A further Sequence, up to version 2.
    fn sequence_due(&self, link: &Link) -> Option<NextFrame>
        ensures { (c : Config) (k : List EndEvent) (l : ℕ) → Remembers c self.now k →
            OfLink self.now c k link.now l → IsDue c k (sequence_due k (lent_frames l k)) result }
    {
        let next = self.ring.next_number();
        if self.is_three() || !self.ring.has_unwritten() || link.counts(next) {
            return None;
        }
        Some(NextFrame::Sequence {
            first: next,
            received: None,
        })
    }

    fn ack_due(&self, link: &Link) -> Option<NextFrame>
        ensures { (c : Config) (k : List EndEvent) (l : ℕ) → Remembers c self.now k →
            OfLink self.now c k link.now l → IsDue c k (ack_due c k (lent_frames l k)) result }
    {
        let processed = self.intake.processed();
        if self.is_resumable() && !self.closed && link.told < processed {
            return Some(NextFrame::Ack(processed));
        }
        None
    }

    fn message_due(&self, link: &Link) -> Option<NextFrame>
        ensures { (c : Config) (k : List EndEvent) (l : ℕ) → Remembers c self.now k →
            OfLink self.now c k link.now l → IsDue c k (message_due k l) result }
    {
        if self.may_write(link) && self.ring.has_unwritten() {
            return Some(NextFrame::Message);
        }
        None
    }

    /// Whether messages may be said: at version 3 on a later link only once the other end said how many it has processed.
    fn may_write(&self, link: &Link) -> bool
        ensures { (c : Config) (k : List EndEvent) (l : ℕ) → Remembers c self.now k →
            OfLink self.now c k link.now l → result ≡ may_write k l }
    {
        !self.is_three() || link.first || link.resumed
    }

    fn ping_due(&self, link: &Link) -> Option<NextFrame>
        ensures { (c : Config) (k : List EndEvent) (l : ℕ) → Remembers c self.now k →
            OfLink self.now c k link.now l → IsDue c k (ping_due c k) result }
    {
        if link.quiet && self.state() == State::Ready {
            return Some(NextFrame::Ping);
        }
        None
    }

    fn close_due(&self, link: &Link) -> Option<NextFrame>
        ensures { (c : Config) (k : List EndEvent) (l : ℕ) → Remembers c self.now k →
            OfLink self.now c k link.now l → IsDue c k (close_due k (lent_frames l k)) result }
    {
        if self.agreed.is_none() || link.parted {
            return None;
        }
        match self.farewell {
            Some(farewell) => Some(NextFrame::Close(farewell)),
            None => None,
        }
    }

    /// Nothing is due: of what was said, only what is kept stays in memory.
    pub fn let_go(&mut self)
        ensures { self.new ≡ self.old }
    {
        self.ring.written_is_done();
    }

    /// This, which was due and is no message, is said.
    pub fn say(&mut self, said: NextFrame)
        ensures said { (c : Config) (k : List EndEvent) (f : LinkFrame) → Remembers c self.old k →
            due c k ≡ Some f → IsDue c k (Some f) (Some said) → (said ≡ NextFrame.Message → ⊥) →
            Remembers c self.new (Lent f ∷ k) }
        ensures limits { self.new.ring.limits ≡ self.old.ring.limits }
    {
        let Some(link) = self.link else { return };
        self.link = Some(Link {
            opened: true,
            said: said.counted(link.said),
            told: link.told.max(said.told()),
            parted: link.parted || said.is_close(),
            quiet: false,
            wrote: self.moment,
            ..link
        });
    }

    /// Lends the next message's bytes, with their framing, and counts it as said. It is for what `due` named a message: without
    /// a link, or if no message waits, it answers `None` and changes nothing.
    pub fn say_message(&mut self) -> Option<&[u8]>
        ensures* after { sem 𝓛 (EndsAs self.entry (λ s. (s.ring.limits ≡ self.old.ring.limits) ×
            ((c : Config) (k : List EndEvent) (m : Message) → Remembers c self.old k → due c k ≡ Some (Numbered m) →
            Remembers c s (Lent (Numbered m) ∷ k)) × (HasNoMessage self.old → s ≡ self.old))) }
        ensures bytes { (c : Config) (k : List EndEvent) (m : Message) → Remembers c self.old k →
            due c k ≡ Some (Numbered m) →
            option_map (λ bytes. bytes.now) result ≡ Some (framed (codec_of c k) m) }
        ensures none { HasNoMessage self.old ↔ IsNone result }
    {
        buffer_is_within(&self.ring);
        let Some(link) = self.link else { return None };
        if !self.ring.has_unwritten() {
            return None;
        }
        self.link = Some(Link {
            opened: true,
            said: Some(self.ring.next_number() + 1),
            quiet: false,
            wrote: self.moment,
            ..link
        });
        match self.ring.next_unwritten() {
            Some((_, bytes)) => Some(bytes),
            None => None,
        }
    }
}
