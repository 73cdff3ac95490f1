//! What is read off the history of one end, as numbers: all that an auditor keeps of it beside its messages and its bytes.

ghost use Rattle.std.specs.Prelude.{◌≡◌, ◌+◌, ◌||◌, true, nat_le, if◌then◌else◌};
ghost use Rattle.hd_delivery.specs.Numbers.{ping_after};
ghost use Rattle.hd_trace.specs.ByMarks.{is_silence_by, state_by};
ghost use Rattle.hd_trace.specs.Marks.{attached, closed_for, heard_something, left, ticked};

use hd_delivery::{PING_AFTER, Reason, SILENCE_AFTER, State};
use hm_message::Codec;

/// How an end was closed by its own side, which the Close that it owes tells.
#[derive(Clone, Copy, Debug, PartialEq, Eq)]
pub struct Farewell {
    pub reason: Reason,
    /// Whether the other end may connect again.
    pub allow: bool,
}

/// What is read off the history of one end. Moments are in milliseconds.
#[derive(Clone, Copy, Debug, PartialEq, Eq)]
pub struct Marks {
    /// The link on which the end stands.
    pub link: Option<u64>,
    /// The link on which it stood first.
    pub first: Option<u64>,
    /// The codec in which it writes and reads.
    pub codec: Codec,
    /// Whether the handshake is complete.
    pub shaken: bool,
    /// Whether the connection outlives its links.
    pub resumable: bool,
    /// Whether its version is 3.
    pub three: bool,
    pub closed: bool,
    /// How its own side closed it last.
    pub farewell: Option<Farewell>,
    /// How many messages it was handed to send.
    pub sent: u64,
    /// How many messages of the other end it handed out.
    pub processed: u64,
    /// How many of its messages the other end reported as processed.
    pub acked: u64,
    /// The greatest place of a message that it said on its link.
    pub written: u64,
    /// The greatest place of a message that it ever said.
    pub furthest: u64,
    /// Whether it said anything on its link.
    pub opened: bool,
    /// The number of the next message that it says on its link, as the other end counts.
    pub said: Option<u64>,
    /// The most that it reported on its link: how many messages of the other end were processed.
    pub reported: u64,
    /// Whether it said a Close on its link.
    pub parted: bool,
    /// The number of the next message that it reads on its link, by what it read there.
    pub next: Option<u64>,
    /// Whether the other end said on the link how much it has processed (version 3).
    pub resumed: bool,
    /// The greatest moment so far.
    pub moment: u64,
    /// When its link was last heard, as ticks tell: none from what was fed last up to the next tick.
    pub heard: Option<u64>,
    /// When it last said something on its link, or when the link began.
    pub wrote: u64,
    /// Whether a tick came `PING_AFTER` or more after that.
    pub quiet: bool,
}

impl Marks {
    /// The marks once the end stands on this link.
    pub fn attach(self, link: u64, now: u64) -> Marks
        ensures { result ≡ attached link now self }
    {
        let moment = self.moment.max(now);
        Marks {
            link: Some(link),
            first: self.first.or(Some(link)),
            written: 0,
            opened: false,
            said: None,
            reported: 0,
            parted: false,
            next: None,
            resumed: false,
            moment,
            heard: Some(moment),
            wrote: moment,
            quiet: false,
            ..self
        }
    }

    /// The marks once its link is lost.
    pub fn leave(self, now: u64) -> Marks
        ensures { result ≡ left now self }
    {
        let closed = self.is_closed_by_loss();
        Marks {
            link: None,
            closed,
            opened: false,
            said: None,
            reported: 0,
            parted: false,
            next: None,
            moment: self.moment.max(now),
            ..self
        }
    }

    fn is_closed_by_loss(self) -> bool
        ensures { result ≡ (if self.resumable then self.closed else true) }
    {
        if self.resumable { self.closed } else { true }
    }

    /// The marks once it was fed.
    pub fn hear(self) -> Marks
        ensures { result ≡ heard_something self }
    {
        Marks {
            heard: None,
            ..self
        }
    }

    /// Whether a tick at this moment ends its link.
    pub fn is_silence(self, now: u64) -> bool
        ensures { result ≡ is_silence_by now self }
    {
        if self.link.is_none() || self.closed {
            return false;
        }
        match self.heard {
            None => false,
            Some(heard) => now.saturating_sub(heard) >= SILENCE_AFTER,
        }
    }

    /// The marks once a tick came that ends no link.
    pub fn tick(self, now: u64) -> Marks
        ensures { result ≡ ticked now self }
    {
        let moment = self.moment.max(now);
        let quiet = self.is_quiet_at(now);
        Marks {
            moment,
            heard: self.heard.or(Some(moment)),
            quiet,
            ..self
        }
    }

    fn is_quiet_at(self, now: u64) -> bool
        ensures { result ≡ (nat_le (self.wrote + ping_after) now || self.quiet) }
    {
        now.saturating_sub(self.wrote) >= PING_AFTER || self.quiet
    }

    /// The marks once its own side closed it.
    pub fn close(self, reason: Reason, allow: bool) -> Marks
        ensures { result ≡ closed_for reason allow self }
    {
        Marks {
            closed: true,
            farewell: Some(Farewell { reason, allow }),
            ..self
        }
    }

    /// What the end can do.
    pub fn state(self) -> State
        ensures { result ≡ state_by self }
    {
        if self.closed {
            return State::Closed;
        }
        if !self.shaken {
            return State::Opening;
        }
        match self.link {
            None => State::Away,
            Some(_) => State::Ready,
        }
    }
}
