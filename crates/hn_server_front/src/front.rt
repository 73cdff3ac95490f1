//! The connections of a server: what is noted of them, and the lives of their tokens.

ghost use Rattle.std.specs.Prelude.{◌≡◌, ◌↔◌, ℕ, ◌+◌, ◌≤◌, ◌&&◌, suc, [], true, false, Err, IfOk, IfErr, IfSome, OnOk, OnErr, length, is_some};
ghost use Rattle.indexmap.specs.IndexMap.{index_map_len};
ghost use Rattle.hd_server.specs.Numbers.{most_connections};
ghost use Rattle.hd_server.specs.Lives.{Answered, Ended, LaneLost, Removed, ConnectionEvent, Polled, Socketed};
ghost use Rattle.hd_server.specs.Lives.{ended_at, ends_then, first_fresh, gives_way, is_busy, is_full, is_made, is_polling, is_resumable_promise, known_conn, life, life_of, live, overdue};
ghost use Rattle.hn_server_front.specs.Calls.{Expires, GivesWay, IsFirst, IsNoted, OfEach, Opens, Stays, Tells, is_held_long, lane_of, poll_held};
ghost use Rattle.hn_server_front.specs.Moments.{IsInOrder, at, is_within};
ghost use Rattle.hn_server_front.specs.Entries.{held_as, note_of};
ghost use Rattle.hn_server_front.specs.Routes.{RoutesTo};
ghost use Rattle.hn_server_front.specs.Stands.{HasRoom, IsEntered, IsRoomier, Stands, is_there};
ghost use Rattle.hn_server_front.specs.declared.bodies.Transports.TheVariants.{All, Sockets};
ghost use Rattle.hn_server_front.specs.declared.errors.FrontError.TheVariants.{Busy};

use crate::bodies::{Transports, body};
use crate::entry::{Entry, EntryEvent, Held, Told, told_at};
use crate::errors::FrontError;
use crate::moments::{Moments, Waiting, lesser};
use crate::route::Route;
use crate::token::{Token, token_for};
use hd_server::{HELD_FOR, LIVES_FOR, Life, LiveLimit, MOST_CONNECTIONS, tokens_differ};
use hw_lanes::{Request, Vec8};
use indexmap::IndexMap;
use std::alloc::{AllocError, Global};
use std::collections::BTreeMap;

/// A connection that was made, and the body that tells its token.
#[derive(Drop)]
pub struct Made {
    /// Its number, from 1.
    pub conn: u64,
    /// JSON.
    pub body: Vec8,
    /// The connection that gave way to it, of which nothing is kept any more.
    pub gone: Option<u64>,
}

/// A connection that was made without a token.
#[derive(Clone, Copy, Debug, PartialEq, Eq)]
pub struct Opened {
    /// Its number, from 1.
    pub conn: u64,
    /// The connection that gave way to it, of which nothing is kept any more.
    pub gone: Option<u64>,
}

/// The connections of a server, by their numbers and by their tokens. Moments are in milliseconds.
#[derive(Drop)]
pub struct Front {
    /// How many may live.
    live: LiveLimit,
    /// How many were made.
    made: u64,
    /// Those that aren't let go.
    entries: IndexMap<u64, Entry>,
    tokens: BTreeMap<Token, u64>,
    /// Those whose lives count towards their ends.
    moments: Moments,
    /// Those that hold polls.
    polls: Moments,
}

/// The number of the next connection, and who gives way to it.
#[derive(Clone, Copy, Debug, PartialEq, Eq)]
struct Next {
    conn: u64,
    gone: Option<u64>,
}

impl Front {
    /// No connections, of which so many may live at one moment.
    pub fn start(alloc: Global, live: LiveLimit) -> Result<Front, AllocError>
        ensures none { IfOk result (λ front. Stands front []) }
        ensures limit { IfOk result (λ front. front.live ≡ live) }
    {
        Ok(Front {
            live,
            made: 0,
            entries: IndexMap::new(alloc),
            tokens: BTreeMap::new(alloc),
            moments: Moments::start(alloc, LIVES_FOR),
            polls: Moments::start(alloc, HELD_FOR),
        })
    }

    // ---- requests

    /// Where a request leads at a server of this base, such as `/hub`.
    pub fn route(&self, alloc: Global, base: &[u8], request: &Request) -> Result<Route, AllocError>
        ensures { IfOk result (λ route. RoutesTo base.now request.now route) }
    {
        Route::of(alloc, base, request)
    }

    /// The life of a token at a moment.
    pub fn life(&self, token: &Token, now: u64) -> Life
        ensures { OfEach self.now (λ h. result ≡ life token.now now h) }
    {
        match self.tokens.get(token) {
            Some(conn) => self.life_at(*conn, now),
            None => Life::Unknown,
        }
    }

    /// The token's connection, as long as the token's life is known.
    pub fn conn_of(&self, token: &Token, now: u64) -> Option<u64>
        ensures known { OfEach self.now (λ h. result ≡ known_conn token.now now h) }
        ensures made { OfEach self.now (λ h. IfSome result (λ conn. is_made conn h ≡ true)) }
    {
        if self.life(token, now) == Life::Unknown {
            return None;
        }
        self.tokens.get(token).copied()
    }

    // ---- connections

    /// The life of a connection at a moment.
    pub fn life_at(&self, conn: u64, now: u64) -> Life
        ensures { OfEach self.now (λ h. result ≡ life_of conn now h) }
    {
        match self.entries.get(&conn) {
            Some(entry) => entry.life(now),
            None => Life::Unknown,
        }
    }

    /// The lane of the socket on which a connection stands.
    pub fn lane(&self, conn: u64) -> Option<u64>
        ensures { OfEach self.now (λ h. result ≡ lane_of conn h) }
    {
        match self.entries.get(&conn) {
            Some(entry) => entry.socket,
            None => None,
        }
    }

    /// Whether a connection polls, and isn't let go.
    pub fn polls(&self, conn: u64) -> bool
        ensures { OfEach self.now (λ h. result ≡ (is_there conn h && is_polling conn h)) }
    {
        match self.entries.get(&conn) {
            Some(entry) => entry.polls(),
            None => false,
        }
    }

    /// Whether a connection's token is ending, and it isn't let go.
    pub fn is_ending(&self, conn: u64) -> bool
        ensures { OfEach self.now (λ h. result ≡ (is_there conn h && is_some (ended_at conn h))) }
    {
        match self.entries.get(&conn) {
            Some(entry) => entry.ended.is_some(),
            None => false,
        }
    }

    /// The poll that a connection holds.
    pub fn held(&self, conn: u64) -> Option<Held>
        ensures { OfEach self.now (λ h. held_as result ≡ poll_held conn h) }
    {
        match self.entries.get(&conn) {
            Some(entry) => entry.poll,
            None => None,
        }
    }

    /// The connections whose polls have been held for 90,000 milliseconds or longer, with the moments at which these came, in the order of
    /// these moments, and at one moment of their numbers. Each is there once.
    pub fn held_long(&self, now: u64) -> &[Waiting]
        ensures held { OfEach self.now (λ h. (since c : ℕ) → is_within (at since c) result.now ≡ is_held_long now since c h) }
        ensures order { OfEach self.now (λ h. IsInOrder result.now) }
    {
        self.polls.due(now)
    }

    /// Whether the connection's token was told with reconnect, and it isn't let go.
    pub fn is_resumable_promise(&self, conn: u64) -> bool
        ensures { OfEach self.now (λ h. result ≡ (is_there conn h && is_resumable_promise conn h)) }
    {
        match self.entries.get(&conn) {
            Some(entry) => entry.is_resumable_promise(),
            None => false,
        }
    }

    /// Whether no further connection can be made: as many live as may and each was used, or 2^62 were made.
    pub fn busy(&self, now: u64) -> bool
        ensures { OfEach self.now (λ h. result ≡ is_busy self.now.live now h) }
    {
        self.next(now).is_err()
    }

    /// Makes a connection with a token of the 16 bytes that were drawn. `asked`: it can be resumed. If as many live as may, the one of the
    /// least number that nobody used gives way: it is let go. After an error nothing has changed.
    pub fn negotiate(
        &mut self,
        alloc: Global,
        asked: bool,
        drawn: [u8; 16],
        now: u64,
    ) -> Result<Made, FrontError>
        ensures ok { IfOk result (λ made_now. OfEach self.old (λ h. Tells All self.old.live self.new h asked drawn now made_now)) }
        ensures busy { OfEach self.old (λ h. (is_busy self.old.live now h ≡ true) ↔ (result ≡ Err Busy)) }
        ensures unchanged { OnErr result (Stays self.old self.new) }
    {
        self.tell(alloc, Transports::All, asked, drawn, now)
    }

    /// The same where only sockets are offered.
    pub fn negotiate_sockets(
        &mut self,
        alloc: Global,
        asked: bool,
        drawn: [u8; 16],
        now: u64,
    ) -> Result<Made, FrontError>
        ensures ok { IfOk result (λ made_now. OfEach self.old (λ h. Tells Sockets self.old.live self.new h asked drawn now made_now)) }
        ensures busy { OfEach self.old (λ h. (is_busy self.old.live now h ≡ true) ↔ (result ≡ Err Busy)) }
        ensures unchanged { OnErr result (Stays self.old self.new) }
    {
        self.tell(alloc, Transports::Sockets, asked, drawn, now)
    }

    /// Makes a connection without a token, to which another gives way as to one with a token. After an error nothing has changed.
    pub fn open(&mut self, now: u64) -> Result<Opened, FrontError>
        ensures ok { IfOk result (λ opened. OfEach self.old (λ h. Opens self.old.live self.new h now opened)) }
        ensures busy { OfEach self.old (λ h. (is_busy self.old.live now h ≡ true) ↔ (result ≡ Err Busy)) }
        ensures unchanged { OnErr result (Stays self.old self.new) }
    {
        let next = self.next(now)?;
        self.make_room()?;
        self.enter(next.conn, None);
        self.give_way(next.gone);
        Ok(Opened {
            conn: next.conn,
            gone: next.gone,
        })
    }

    // ---- what is noted, which takes no memory. Of a number that no connection has nothing is noted

    /// It stands on this lane from now on, which is a WebSocket.
    pub fn socket(&mut self, conn: u64, lane: u64, now: u64)
        ensures { IsNoted self.old self.new conn (Socketed conn lane now) }
    {
        self.note(conn, EntryEvent::Socket { lane, now });
    }

    /// A poll came on this lane.
    pub fn poll(&mut self, conn: u64, lane: u64, now: u64)
        ensures { IsNoted self.old self.new conn (Polled conn lane now) }
    {
        self.note(conn, EntryEvent::Poll { lane, now });
    }

    /// The poll on this lane ended.
    pub fn answered(&mut self, conn: u64, lane: u64, now: u64)
        ensures { IsNoted self.old self.new conn (Answered conn lane now) }
    {
        self.note(conn, EntryEvent::Answer { lane, now });
    }

    /// The lane was lost.
    pub fn lost(&mut self, conn: u64, lane: u64, now: u64)
        ensures { IsNoted self.old self.new conn (LaneLost conn lane now) }
    {
        self.note(conn, EntryEvent::Loss { lane, now });
    }

    /// Its token is ending from now on.
    pub fn ending(&mut self, conn: u64, now: u64)
        ensures { IsNoted self.old self.new conn (Ended conn now) }
    {
        self.note(conn, EntryEvent::End { now });
    }

    /// It is let go.
    pub fn closed(&mut self, conn: u64)
        ensures { IsNoted self.old self.new conn (Removed conn) }
    {
        self.forget(conn);
    }

    /// Of the connections whose moment has come, and that weren't handed out for it, the one of the least number.
    pub fn overdue(&self, now: u64) -> Option<u64>
        ensures { OfEach self.now (λ h. IsFirst result (overdue now h)) }
    {
        self.moments.first_due(now)
    }

    /// The one that is overdue comes to its moment, and is handed out: one that only polled begins to end, if it doesn't yet, and every
    /// other is let go.
    pub fn expired(&mut self, now: u64) -> Option<u64>
        ensures expires { OfEach self.old (λ h. Expires self.new h now result) }
        ensures limit { OfEach self.old (λ _. self.new.live ≡ self.old.live) }
    {
        let conn = self.moments.first_due(now)?;
        if self.ends_then(conn) {
            self.note(conn, EntryEvent::End { now });
        } else {
            self.forget(conn);
        }
        Some(conn)
    }

    // ---- parts of these

    /// The next connection, if one can be made.
    fn next(&self, now: u64) -> Result<Next, FrontError>
        ensures ok { IfOk result (λ next. (next.conn ≡ suc self.now.made) × (next.conn ≤ most_connections)) }
        ensures gone { IfOk result (λ next. OfEach self.now (λ h. next.gone ≡ gives_way self.now.live now h)) }
        ensures free { OnOk result (OfEach self.now (λ h. is_busy self.now.live now h ≡ false)) }
        ensures busy { OnErr result (OfEach self.now (λ h. is_busy self.now.live now h ≡ true)) }
        ensures refused { IfErr result (λ e. e ≡ Busy) }
    {
        if self.made >= MOST_CONNECTIONS {
            return Err(FrontError::Busy);
        }
        let conn = self.made + 1;
        if !self.is_full(now) {
            return Ok(Next { conn, gone: None });
        }
        let Some(gone) = self.first_fresh(now) else {
            return Err(FrontError::Busy);
        };
        Ok(Next {
            conn,
            gone: Some(gone),
        })
    }

    /// Whether as many connections live as may.
    fn is_full(&self, now: u64) -> bool
        ensures { OfEach self.now (λ h. result ≡ is_full self.now.live now h) }
    {
        let most = self.live.most();
        let there = self.entries.len() as u64;
        there >= most && there.saturating_sub(self.forgotten(now)) >= most
    }

    /// The connection of the least number that nobody used yet. It goes through all that aren't let go.
    fn first_fresh(&self, now: u64) -> Option<u64>
        ensures { OfEach self.now (λ h. result ≡ first_fresh now h) }
    {
        let mut first = None;
        for (conn, entry) in self.entries.iter() {
            if entry.is_unused(now) {
                first = Some(lesser(first, *conn));
            }
        }
        first
    }

    /// How many of those that aren't let go yet are unknown at a moment.
    fn forgotten(&self, now: u64) -> u64
        ensures { OfEach self.now (λ h. result + length (live now h) ≡ index_map_len self.now.entries) }
    {
        let mut count = 0;
        for waiting in self.moments.due(now) {
            if self.life_at(waiting.conn, now) == Life::Unknown {
                count += 1;
            }
        }
        count
    }

    /// Makes a connection with a token, and the body that tells it.
    fn tell(
        &mut self,
        alloc: Global,
        transports: Transports,
        asked: bool,
        drawn: [u8; 16],
        now: u64,
    ) -> Result<Made, FrontError>
        ensures ok { IfOk result (λ made_now. OfEach self.old (λ h. Tells transports self.old.live self.new h asked drawn now made_now)) }
        ensures busy { OfEach self.old (λ h. (is_busy self.old.live now h ≡ true) ↔ (result ≡ Err Busy)) }
        ensures unchanged { OnErr result (Stays self.old self.new) }
    {
        // A law: so the token is no other connection's.
        tokens_differ();
        let next = self.next(now)?;
        let conn = next.conn;
        let token = token_for(alloc, drawn, conn)?;
        let body = body(alloc, transports, conn, &token, asked)?;
        let own = token.copy()?;
        self.make_room()?;
        if self.tokens.insert(own, conn).is_err() {
            return Err(FrontError::NoMemory);
        }
        self.enter(
            conn,
            Some(Told {
                token,
                now,
                reconnect: asked,
            }),
        );
        self.give_way(next.gone);
        Ok(Made {
            conn,
            body,
            gone: next.gone,
        })
    }

    /// Nothing is kept of the connection that gives way, if one does.
    fn give_way(&mut self, gone: Option<u64>)
        ensures { GivesWay self.old self.new gone }
    {
        if let Some(gone) = gone {
            self.forget(gone);
        }
    }

    /// Makes room for one more connection, and for all that is noted of it.
    fn make_room(&mut self) -> Result<(), AllocError>
        ensures room { OnOk result (HasRoom self.new) }
        ensures same { IsRoomier self.old self.new }
    {
        self.entries.reserve(1)?;
        let count = self.entries.len() + 1;
        self.moments.reserve(count)?;
        self.polls.reserve(count)
    }

    /// Enters the connection of this number, for which there is room.
    fn enter(&mut self, conn: u64, told: Option<Told>)
        requires { HasRoom self.old }
        ensures { IsEntered self.old self.new conn told }
    {
        let since = told_at(&told);
        let _ = self.entries.insert(conn, Entry::new(told));
        self.moments.change(conn, None, since);
        self.made = conn;
    }

    /// Something is noted of a connection.
    fn note(&mut self, conn: u64, noted: EntryEvent)
        ensures { IsNoted self.old self.new conn (note_of conn noted) }
    {
        let Some(entry) = self.entries.get_mut(&conn) else {
            return;
        };
        let before = entry.since();
        let held_before = entry.held_since();
        entry.note(noted);
        let after = entry.since();
        let held_after = entry.held_since();
        self.moments.change(conn, before, after);
        self.polls.change(conn, held_before, held_after);
    }

    /// Nothing is kept of a connection any more.
    fn forget(&mut self, conn: u64)
        ensures { IsNoted self.old self.new conn (Removed conn) }
    {
        let Some(entry) = self.entries.swap_remove(&conn) else {
            return;
        };
        self.moments.change(conn, entry.since(), None);
        self.polls.change(conn, entry.held_since(), None);
        if let Some(told) = entry.told {
            let _ = self.tokens.remove(&told.token);
        }
    }

    /// Whether a connection's token begins to end when its moment comes.
    fn ends_then(&self, conn: u64) -> bool
        ensures { OfEach self.now (λ h. result ≡ (is_there conn h && ends_then conn h)) }
    {
        match self.entries.get(&conn) {
            Some(entry) => entry.ends_then(),
            None => false,
        }
    }
}
