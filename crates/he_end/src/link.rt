//! What a session remembers of the link on which it stands, and of the handshake.

ghost use Rattle.std.specs.Prelude.{◌≡◌, ◌<◌, ◌+◌, ◌&&◌, ◌||◌, ℕ, is_some, nat_lt, not};
ghost use Rattle.hd_delivery.specs.Histories.{is_late, is_this};
ghost use Rattle.hd_delivery.specs.Numbers.{most_of_64_bits, ping_after};
ghost use Rattle.he_end.specs.Remembers.{begun};
ghost use Rattle.hs_shake.specs.Responses.{IsAnswered, refusal_text};
ghost use Rattle.he_wire.specs.Spelling.{with_separator, error_frame};
ghost use Rattle.he_end.specs.Remembers.{answer_text};

use hd_delivery::{PING_AFTER, Reason, SILENCE_AFTER};
use hm_message::Field;
use hs_shake::{ShakeError, response};

/// What the handshake gave.
#[derive(Clone, Copy, Debug, PartialEq, Eq)]
pub struct Agreed {
    /// Whether the connection is kept across links.
    pub kept: bool,
    /// Whether its version is 3, in which each later link begins after what was received.
    pub three: bool,
}

/// The Close with which a session that was closed by its own side takes leave.
#[derive(Clone, Copy, Debug, PartialEq, Eq)]
pub struct Farewell {
    pub reason: Reason,
    /// Whether the other end may connect again.
    pub allow: bool,
}

/// What a server answers to a request that it refuses.
#[derive(Clone, Copy, Debug, PartialEq, Eq)]
pub enum Answer {
    NotJson,
    LacksField,
    Unspoken,
    UnknownVersion,
}

impl Answer {
    /// The answer to this refusal of a request.
    pub fn to(refusal: &ShakeError) -> Answer
        ensures { IsAnswered refusal.now → answer_text result ≡ refusal_text refusal.now }
    {
        match refusal {
            ShakeError::Missing(_) | ShakeError::Wrong(_) => Answer::LacksField,
            ShakeError::Unspoken => Answer::Unspoken,
            ShakeError::Version(_) => Answer::UnknownVersion,
            ShakeError::NotJson | ShakeError::Refused(_) | ShakeError::NoMemory => Answer::NotJson,
        }
    }

    /// Its frame, with the separator.
    pub fn bytes(self) -> &'static [u8]
        ensures { result.now ≡ with_separator (error_frame (answer_text self)) }
    {
        match self {
            Answer::NotJson => response(Some(&ShakeError::NotJson)),
            Answer::LacksField => response(Some(&ShakeError::Missing(Field::Protocol))),
            Answer::Unspoken => response(Some(&ShakeError::Unspoken)),
            Answer::UnknownVersion => response(Some(&ShakeError::Version(0))),
        }
    }
}

/// The link on which a session stands.
#[derive(Clone, Copy, Debug, PartialEq, Eq)]
pub struct Link {
    /// Whether it is the connection's first.
    pub first: bool,
    /// Whether anything was said on it.
    pub opened: bool,
    /// The number that the other end gives the next message on this link. Up to version 2.
    pub said: Option<u64>,
    /// The most messages that were told to be processed on this link.
    pub told: u64,
    /// Whether the other end has said on this link how much it has processed. At version 3.
    pub resumed: bool,
    /// Whether a Close was said.
    pub parted: bool,
    /// Whether a Ping is due because nothing was said for a while.
    pub quiet: bool,
    /// When something was said last, or the link began.
    pub wrote: u64,
    /// When something was heard last, as ticks tell it.
    pub heard: Option<u64>,
}

impl Link {
    /// A link that begins at this moment.
    pub fn begun(first: bool, now: u64) -> Link
        ensures { result ≡ begun first now }
    {
        Link {
            first,
            opened: false,
            said: None,
            told: 0,
            resumed: false,
            parted: false,
            quiet: false,
            wrote: now,
            heard: Some(now),
        }
    }

    /// Whether the other end gives the next message on this link this number.
    pub fn counts(&self, next: u64) -> bool
        ensures { result ≡ is_this next self.now.said }
    {
        self.said == Some(next)
    }

    /// Whether nothing was heard for `SILENCE_AFTER` milliseconds, as ticks tell it.
    pub fn is_late(&self, now: u64) -> bool
        ensures { result ≡ is_late now self.now.heard }
    {
        match self.heard {
            Some(heard) => now.saturating_sub(heard) >= SILENCE_AFTER,
            None => false,
        }
    }

    /// The moment before which a tick changes nothing but the moment, or the greatest number if each tick is so. `closed`: no tick is a
    /// silence, since the session is closed.
    pub fn deadline(&self, closed: bool) -> u64
        ensures { (now : ℕ) → now < most_of_64_bits → nat_lt now result ≡
            ((is_some self.now.heard && not (not closed && is_late now self.now.heard)) && (self.now.quiet || nat_lt now (self.now.wrote + ping_after))) }
    {
        self.silent_from(closed).min(self.quiet_from())
    }

    /// The moment before which no tick is a silence, nor finds out when something was heard.
    fn silent_from(&self, closed: bool) -> u64
        ensures { (now : ℕ) → now < most_of_64_bits → nat_lt now result ≡ (is_some self.now.heard && not (not closed && is_late now self.now.heard)) }
    {
        match self.heard {
            None => 0,
            Some(_) if closed => u64::MAX,
            Some(heard) => heard.saturating_add(SILENCE_AFTER),
        }
    }

    /// The moment before which no tick makes a Ping due.
    fn quiet_from(&self) -> u64
        ensures { (now : ℕ) → now < most_of_64_bits → nat_lt now result ≡ (self.now.quiet || nat_lt now (self.now.wrote + ping_after)) }
    {
        if self.quiet {
            return u64::MAX;
        }
        self.wrote.saturating_add(PING_AFTER)
    }
}
