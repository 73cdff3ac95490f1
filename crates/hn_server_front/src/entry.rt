//! What is kept of a connection until it is let go.

ghost use Rattle.std.specs.Prelude.{◌≡◌, ℕ, List, ◌∷◌, option_map};
ghost use Rattle.hd_server.specs.Lives.{ConnectionEvent, ends_then, is_fresh, is_polling, is_resumable_promise, life_of, past as past_of, poll_of, since as since_of, standing as standing_of};
ghost use Rattle.hn_server_front.specs.Entries.{HasEnded, HasPolled, IsLost, IsNew, Remembers, moment_told, note_of};

use crate::moments::is_past;
use crate::token::Token;
use hd_server::{LIVES_FOR, Life};

/// A token, the moment at which it was told, and whether its connection can be resumed.
#[derive(Drop)]
pub struct Told {
    pub(crate) token: Token,
    pub(crate) now: u64,
    pub(crate) reconnect: bool,
}

/// A poll that is held: its lane, and the moment at which it came.
#[derive(Clone, Copy, Debug, PartialEq, Eq)]
pub struct Held {
    pub lane: u64,
    pub since: u64,
}

/// What may be noted of a connection, with its moment.
#[derive(Clone, Copy, Debug, PartialEq, Eq)]
pub enum EntryEvent {
    /// It stands on this lane, which is a WebSocket.
    Socket { lane: u64, now: u64 },
    /// A poll came on this lane.
    Poll { lane: u64, now: u64 },
    /// The poll on this lane ended.
    Answer { lane: u64, now: u64 },
    /// The lane was lost.
    Loss { lane: u64, now: u64 },
    /// Its token is ending.
    End { now: u64 },
}

/// What is kept of a connection. Moments are in milliseconds.
#[derive(Drop)]
pub struct Entry {
    /// None: it was opened without one.
    pub(crate) told: Option<Told>,
    /// The lane on which it stands, which is a WebSocket.
    pub(crate) socket: Option<u64>,
    /// When that was lost, if it stands on none since.
    pub(crate) lost: Option<u64>,
    pub(crate) poll: Option<Held>,
    /// When its last poll ended, if none came since.
    pub(crate) polled: Option<u64>,
    /// When its token began to end.
    pub(crate) ended: Option<u64>,
}

impl Entry {
    /// A connection that was just made.
    pub(crate) fn new(told: Option<Told>) -> Entry
        ensures { IsNew result told }
    {
        Entry {
            told,
            socket: None,
            lost: None,
            poll: None,
            polled: None,
            ended: None,
        }
    }

    /// Something is noted of it.
    pub(crate) fn note(&mut self, noted: EntryEvent)
        ensures noted { (c : ℕ) (h : List ConnectionEvent) → Remembers self.old c h → Remembers self.new c (note_of c noted ∷ h) }
        ensures told { self.new.told ≡ self.old.told }
    {
        match noted {
            EntryEvent::Socket { lane, now: _ } => {
                self.socket = Some(lane);
                self.lost = None;
            }
            EntryEvent::Poll { lane, now } => {
                self.poll = Some(Held { lane, since: now });
                self.polled = None;
            }
            EntryEvent::Answer { lane, now } => self.end_poll(lane, now),
            EntryEvent::Loss { lane, now } => {
                self.lose(lane, now);
                self.end_poll(lane, now);
            }
            EntryEvent::End { now } => self.end(now),
        }
    }

    /// The socket on this lane is lost, if it stands there.
    fn lose(&mut self, lane: u64, now: u64)
        ensures { IsLost self.old self.new lane now }
    {
        if self.socket == Some(lane) {
            self.socket = None;
            self.lost = Some(now);
        }
    }

    /// The poll on this lane ended, if it is the one that is held.
    fn end_poll(&mut self, lane: u64, now: u64)
        ensures { HasPolled self.old self.new lane now }
    {
        let Some(held) = self.poll else {
            return;
        };
        if held.lane == lane {
            self.poll = None;
            self.polled = Some(now);
        }
    }

    /// Its token begins to end, if it didn't.
    fn end(&mut self, now: u64)
        ensures { HasEnded self.old self.new now }
    {
        if self.ended.is_none() {
            self.ended = Some(now);
        }
    }

    /// Whether it polls.
    pub(crate) fn polls(&self) -> bool
        ensures { (c : ℕ) (h : List ConnectionEvent) → Remembers self.now c h → result ≡ is_polling c h }
    {
        self.poll.is_some() || self.polled.is_some()
    }

    /// Since when it holds the poll that it holds.
    pub(crate) fn held_since(&self) -> Option<u64>
        ensures { (c : ℕ) (h : List ConnectionEvent) → Remembers self.now c h → result ≡ option_map (λ poll. poll.1) (poll_of c h) }
    {
        match self.poll {
            Some(held) => Some(held.since),
            None => None,
        }
    }

    /// Its life but for moments.
    pub(crate) fn standing(&self) -> Life
        ensures { (c : ℕ) (h : List ConnectionEvent) → Remembers self.now c h → result ≡ standing_of c h }
    {
        if self.ended.is_some() {
            return Life::Ending;
        }
        if let Some(lane) = self.socket {
            return Life::Socket { lane };
        }
        if self.lost.is_some() {
            return Life::Lost;
        }
        if self.polls() {
            Life::Polling
        } else {
            Life::Fresh
        }
    }

    /// From when on its life counts towards its end, if it does.
    pub(crate) fn since(&self) -> Option<u64>
        ensures { (c : ℕ) (h : List ConnectionEvent) → Remembers self.now c h → result ≡ since_of c (standing_of c h) h }
    {
        match self.standing() {
            Life::Fresh => told_at(&self.told),
            Life::Lost => self.lost,
            Life::Polling => self.polled,
            Life::Ending => self.ended,
            Life::Unknown => None,
            Life::Socket { lane: _ } => None,
        }
    }

    /// Its life at a moment.
    pub(crate) fn life(&self, now: u64) -> Life
        ensures { (c : ℕ) (h : List ConnectionEvent) → Remembers self.now c h → result ≡ life_of c now h }
    {
        let standing = self.standing();
        match self.since() {
            Some(since) if is_past(since, LIVES_FOR, now) => past(standing),
            _ => standing,
        }
    }

    /// Whether nobody used it yet, and its moment hasn't come.
    pub(crate) fn is_unused(&self, now: u64) -> bool
        ensures { (c : ℕ) (h : List ConnectionEvent) → Remembers self.now c h → result ≡ is_fresh (life_of c now h) }
    {
        is_fresh(self.life(now))
    }

    /// Whether its token begins to end when its moment comes. Else it is let go then.
    pub(crate) fn ends_then(&self) -> bool
        ensures { (c : ℕ) (h : List ConnectionEvent) → Remembers self.now c h → result ≡ ends_then c h }
    {
        self.standing() == Life::Polling
    }

    /// Whether its connection can be resumed, by its token.
    pub(crate) fn is_resumable_promise(&self) -> bool
        ensures { (c : ℕ) (h : List ConnectionEvent) → Remembers self.now c h → result ≡ is_resumable_promise c h }
    {
        match &self.told {
            Some(told) => told.reconnect,
            None => false,
        }
    }
}

/// When a token was told, if there is one.
pub(crate) fn told_at(told: &Option<Told>) -> Option<u64>
    ensures { result ≡ moment_told told.now }
{
    match told {
        Some(told) => Some(told.now),
        None => None,
    }
}

/// Whether it is the life of one that nobody used yet.
fn is_fresh(life: Life) -> bool
    ensures { result ≡ is_fresh life }
{
    match life {
        Life::Fresh => true,
        _ => false,
    }
}

/// What a life is past its moment: one that polls is closed, and every other is unknown.
fn past(life: Life) -> Life
    ensures { result ≡ past_of life }
{
    match life {
        Life::Polling => Life::Ending,
        _ => Life::Unknown,
    }
}
