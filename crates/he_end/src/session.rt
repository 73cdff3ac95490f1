//! One end, frame by frame: what it remembers, and what changes that from outside. It doesn't know a link's bytes.

ghost use Rattle.std.specs.Prelude.{◌≡◌, ◌≤◌, ◌<◌, ◌⊎◌, ℕ, max, true, false, List, [], ◌∷◌, IfOk, IfErr, OnOk, OnErr, IsTrue, Some, None, length, is_some, nat_lt, if◌then◌else◌};
ghost use Rattle.hm_message.specs.declared.message.Message.{Message};
ghost use Rattle.hm_message.specs.Message.{is_sequenced};
ghost use Rattle.hm_codec.specs.Frames.{framed};
ghost use Rattle.hd_delivery.specs.Histories as of;
ghost use Rattle.hd_delivery.specs.Histories.{Config, EndEvent, Attached, Detached, Fed, Sent, Ticked, Silenced, present_link, was_on, first_link, is_shaken, is_resumable, is_closed, is_silence, state};
ghost use Rattle.hq_resend.specs.Buffers.{IsPushFault, HasRoom, after_rewind};
ghost use Rattle.hd_delivery.specs.Bounds.{most_size};
ghost use Rattle.hd_delivery.specs.Frames.{LinkFrame};
ghost use Rattle.hd_delivery.specs.Due.{is_unseen};
ghost use Rattle.hd_delivery.specs.Numbers.{most_messages, most_of_64_bits};
ghost use Rattle.he_end.specs.Remembers.{Remembers, begun};

use crate::link::{Agreed, Answer, Farewell, Link};
use hd_delivery::{PING_AFTER, Reason, SILENCE_AFTER, Side, State};
use hm_message::Codec;
use hq_resend::{Frame, Intake, Limits, PushError, Resend, buffer_is_within};
use std::alloc::{AllocError, Global};
use std::error::Error;
use std::fmt;

/// Why a link isn't taken. Nothing is changed then.
#[derive(Clone, Copy, Debug, PartialEq, Eq)]
pub enum AttachError {
    /// The end is closed.
    Closed,
    /// There was a link, and the connection isn't kept across links, or its handshake isn't complete.
    NotGranted,
}

impl fmt::Display for AttachError {
    ghost use Rattle.std.specs.Prelude.{Some};
    ghost use Rattle.he_end.specs.Words.{attach_words};

    ghost output = { λ error. Some (attach_words error) };

    fn fmt<W: fmt::Write>(&self, f: &mut fmt::Formatter<W>) -> fmt::Result {
        match self {
            AttachError::Closed => f.write_str("Closed"),
            AttachError::NotGranted => f.write_str("NotGranted"),
        }
    }
}

impl Error for AttachError {}

/// What an end remembers of its history, and nothing of the bytes of its link.
#[derive(Drop)]
pub struct Session {
    pub(crate) side: Side,
    pub(crate) codec: Codec,
    pub(crate) version: u8,
    pub(crate) reconnect: bool,
    pub(crate) agreed: Option<Agreed>,
    pub(crate) closed: bool,
    pub(crate) farewell: Option<Farewell>,
    // what answers a refused request
    pub(crate) answer: Option<Answer>,
    // the session's own number of its latest link
    pub(crate) number: Option<u64>,
    pub(crate) link: Option<Link>,
    pub(crate) ring: Resend,
    pub(crate) intake: Intake,
    pub(crate) moment: u64,
}

impl Session {
    /// A session before its first link.
    pub fn start(
        alloc: Global,
        side: Side,
        codec: Codec,
        version: u8,
        reconnect: bool,
        limits: Limits,
    ) -> Result<Session, AllocError>
        ensures remembers { IfOk result (λ session. Remembers (record {
          side = side;
          codec = codec;
          version = version;
          reconnect = reconnect;
        }) session []) }
        ensures limits { IfOk result (λ s. s.ring.limits ≡ limits) }
    {
        Ok(Session {
            side,
            codec,
            version,
            reconnect,
            agreed: None,
            closed: false,
            farewell: None,
            answer: None,
            number: None,
            link: None,
            ring: Resend::start(alloc, limits, false)?,
            intake: Intake::start(),
            moment: 0,
        })
    }

    /// Whether the connection is kept across links.
    pub fn is_resumable(&self) -> bool
        ensures { (c : Config) (k : List EndEvent) →
            Remembers c self.now k → result ≡ is_resumable c k }
    {
        match self.agreed {
            Some(agreed) => agreed.kept,
            None => false,
        }
    }

    /// On a link, the moment before which a tick changes nothing but the moment.
    pub fn deadline(&self) -> u64
        ensures { (c : Config) (k : List EndEvent) →
            Remembers c self.now k → is_some (of.present_link k) ≡ true → (now : ℕ) → now < most_of_64_bits →
            nat_lt now result ≡ is_unseen c now k }
    {
        match self.link {
            Some(link) => link.deadline(self.closed),
            None => u64::MAX,
        }
    }

    /// Whether the handshake gave version 3.
    pub fn is_three(&self) -> bool
        ensures { (c : Config) (k : List EndEvent) →
            Remembers c self.now k → result ≡ of.is_three k }
    {
        match self.agreed {
            Some(agreed) => agreed.three,
            None => false,
        }
    }

    /// What the session can do.
    pub fn state(&self) -> State
        ensures { (c : Config) (k : List EndEvent) → Remembers c self.now k → result ≡ state c k }
    {
        if self.closed {
            return State::Closed;
        }
        if self.agreed.is_none() {
            return State::Opening;
        }
        if self.link.is_none() {
            return State::Away;
        }
        State::Ready
    }

    /// Begins a link at this moment, in milliseconds. The link on which it stood is left.
    pub fn attach(&mut self, now: u64) -> Result<(), AttachError>
        ensures ok { OnOk result ((c : Config) (k : List EndEvent) (l : ℕ) →
            Remembers c self.old k → was_on l k ≡ false → of.moment k ≤ now →
            (is_closed c k ≡ false) × ((first_link k ≡ None) ⊎ (is_resumable c k ≡ true)) ×
            Remembers c self.new (Attached l now ∷ k)) }
        ensures closed { IfErr result (λ e. e ≡ AttachError.Closed → (c : Config) (k : List EndEvent) →
            Remembers c self.old k → is_closed c k ≡ true) }
        ensures not_granted { IfErr result (λ e. e ≡ AttachError.NotGranted →
            (c : Config) (k : List EndEvent) → Remembers c self.old k →
            (is_closed c k ≡ false) × (is_resumable c k ≡ false) × (first_link k ≡ None → ⊥)) }
        ensures err { OnErr result (self.new ≡ self.old) }
        ensures limits { self.new.ring.limits ≡ self.old.ring.limits }
    {
        if self.closed {
            return Err(AttachError::Closed);
        }
        buffer_is_within(&self.ring);
        match self.number {
            None => self.begin(true, 0, now),
            Some(_) if !self.is_resumable() => return Err(AttachError::NotGranted),
            Some(last) => {
                self.intake.expect_sequence();
                self.begin(false, last.saturating_add(1), now);
            }
        }
        Ok(())
    }

    /// Stands on a link that begins at this moment, the first one or a later one.
    fn begin(&mut self, first: bool, number: u64, now: u64)
        ensures { self.new ≡ record self.old {
          ring = after_rewind self.old.ring;
          number = Some number;
          moment = max self.old.moment now;
          link = Some (begun first (max self.old.moment now));
        } }
    {
        self.ring.rewind();
        self.number = Some(number);
        self.moment = self.moment.max(now);
        self.link = Some(Link::begun(first, self.moment));
    }

    /// Leaves the link at this moment. A connection that isn't kept is closed by that.
    fn leave(&mut self, now: u64)
        ensures lost { (c : Config) (k : List EndEvent) →
            Remembers c self.old k → Remembers c self.new (Detached now ∷ k) }
        ensures silent { (c : Config) (k : List EndEvent) →
            Remembers c self.old k → Remembers c self.new (Silenced now ∷ k) }
        ensures limits { self.new.ring.limits ≡ self.old.ring.limits }
        ensures spoken { (self.new.side ≡ self.old.side) × (self.new.codec ≡ self.old.codec) × (self.new.agreed ≡ self.old.agreed) }
    {
        let kept = self.is_resumable();
        self.moment = self.moment.max(now);
        self.link = None;
        if !kept {
            self.closed = true;
        }
    }

    /// The link is lost at this moment. Without a link nothing changes.
    pub fn detach(&mut self, now: u64)
        ensures left { (c : Config) (k : List EndEvent) (l : ℕ) →
            Remembers c self.old k → present_link k ≡ Some l → of.moment k ≤ now →
            Remembers c self.new (Detached now ∷ k) }
        ensures none { (c : Config) (k : List EndEvent) →
            Remembers c self.old k → present_link k ≡ None → self.new ≡ self.old }
        ensures limits { self.new.ring.limits ≡ self.old.ring.limits }
    {
        if self.link.is_some() {
            self.leave(now);
        }
    }

    /// Something was fed on the link.
    pub fn hear(&mut self)
        ensures heard { (c : Config) (k : List EndEvent) (l : ℕ) (piece : List LinkFrame) →
            Remembers c self.old k → present_link k ≡ Some l → Remembers c self.new (Fed piece ∷ k) }
        ensures limits { self.new.ring.limits ≡ self.old.ring.limits }
    {
        if let Some(link) = self.link {
            self.link = Some(Link {
                heard: None,
                ..link
            });
        }
    }

    /// A moment came, in milliseconds. Answers whether it is a silence, which ends the link: nothing was heard on it for
    /// `SILENCE_AFTER`.
    pub fn tick(&mut self, now: u64) -> bool
        ensures ticked { (c : Config) (k : List EndEvent) → Remembers c self.old k → of.moment k ≤ now →
            (result ≡ is_silence c now k) ×
            Remembers c self.new ((if result then Silenced now else Ticked now) ∷ k) }
        ensures limits { self.new.ring.limits ≡ self.old.ring.limits }
        ensures spoken { (self.new.side ≡ self.old.side) × (self.new.codec ≡ self.old.codec) × (self.new.agreed ≡ self.old.agreed) }
    {
        let Some(link) = self.link else {
            self.moment = self.moment.max(now);
            return false;
        };
        if !self.closed && link.is_late(now) {
            self.leave(now);
            return true;
        }
        self.moment = self.moment.max(now);
        let heard = link.heard.or(Some(self.moment));
        let quiet = link.quiet || now.saturating_sub(link.wrote) >= PING_AFTER;
        self.link = Some(Link {
            heard,
            quiet,
            ..link
        });
        false
    }

    /// Closes the session for good, for this reason. One that is closed stays as it is.
    pub fn close(&mut self, reason: Reason, allow: bool)
        ensures live { (c : Config) (k : List EndEvent) →
            Remembers c self.old k → is_closed c k ≡ false →
            Remembers c self.new (of.Closed reason allow ∷ k) }
        ensures closed { (c : Config) (k : List EndEvent) →
            Remembers c self.old k → is_closed c k ≡ true → self.new ≡ self.old }
        ensures limits { self.new.ring.limits ≡ self.old.ring.limits }
    {
        if self.closed {
            return;
        }
        self.closed = true;
        self.farewell = Some(Farewell { reason, allow });
    }

    /// Takes the frame of a message to be said, with its framing, once the handshake is complete, and answers the message's
    /// number. It fails, and changes nothing, if there is no room for the frame, else if no number is left.
    pub fn push(&mut self, frame: Frame) -> Result<u64, PushError>
        requires { length frame ≤ most_size self.old.ring.limits }
        ensures ok { IfOk result (λ number. (c : Config) (k : List EndEvent) (m : Message) →
            Remembers c self.old k → is_shaken k ≡ true → frame ≡ framed self.old.codec m →
            (number ≡ length (of.sent_messages (Sent m ∷ k))) × Remembers c self.new (Sent m ∷ k)) }
        ensures room { OnOk result (HasRoom self.old.ring (length frame) ×
            (self.old.ring.sent < most_messages)) }
        ensures err { IfErr result (λ e. IsPushFault self.old.ring (length frame) e ×
            (self.new ≡ self.old)) }
        ensures limits { self.new.ring.limits ≡ self.old.ring.limits }
        ensures others { self.new ≡ record self.old { ring = self.new.ring } }
    {
        buffer_is_within(&self.ring);
        match self.ring.push(frame) {
            Ok(number) => Ok(number),
            Err((e, _)) => Err(e),
        }
    }
}
