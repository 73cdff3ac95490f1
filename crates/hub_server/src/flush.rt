//! Ticks, and what is said at the end of an event, connection by connection.

ghost use Rattle.std.specs.Prelude.{◌≡◌, ◌+◌, ℕ, List, IfOk, OnOk, Some as Given, None as Absent, nat_le, true, not};
ghost use Rattle.hd_calls.specs.Peers.{is_shut};
ghost use Rattle.hd_server.specs.Doings.{ServerEvent, has_peer, moment, notes, was_refused};
ghost use Rattle.hd_server.specs.Lives.{is_polling, poll_of, socket_of};
ghost use Rattle.hd_server.specs.Plans.{frames_reply, onto, shutting};
ghost use Rattle.hd_server.specs.Serves.{ending, is_withheld, ticking, ticks};
ghost use Rattle.hj_jobs.specs.Meaning.{meaning};
ghost use Rattle.hd_server.specs.Numbers.{held_for};
ghost use Rattle.hub_server.specs.Lanes.{is_at, settled};
ghost use Rattle.hub_machine.specs.Machines.{OfConn, idle_peer_at};
ghost use Rattle.hub_machine.specs.Sleeping.{KeepsOthers};
ghost use Rattle.hub_server.specs.Servers.{OfEach, Standing};
ghost use Rattle.hub_server.specs.Steps.{IsFlushed};
ghost use Rattle.hub_server.specs.Flushes.{FlushesOne, FlushesPoll, Writes};

use crate::requests::bare;
use crate::server::Server;
use hd_server::HELD_FOR;
use hj_jobs::Hub;
use hn_server_front::Held;
use hw_lanes::{BodyKind, Reply, Vec8};
use std::alloc::{AllocError, Global};

impl<H: Hub> Server<H> {
    // ---- ticks

    /// Each end on a link ticks once.
    pub(crate) fn tick_all(&mut self, alloc: Global) -> Result<(), AllocError>
        ensures ticked { OnOk result (OfEach (meaning H.begin_of H.step_of) self.old (λ s u before h. u ≡ settled →
            Standing (meaning H.begin_of H.step_of) s u before self.new (onto (ticks (moment h) h) h))) }
        ensures clock { OnOk result (self.new.machine.idle_set.clock.moment ≡ self.old.moment) }
    {
        hub_machine::connections_are_numbered();
        hd_server::parts_of_turns();
        self.machine.wake_expired(alloc, self.moment)?;
        let conns = self.machine.awake(alloc)?;
        self.machine.advance_clock(self.moment);
        for &conn in &conns {
            self.tick(conn)?;
        }
        Ok(())
    }

    /// The end of a connection ticks, if it stands on a link. A silence is a loss, and its lane is to end.
    fn tick(&mut self, conn: u64) -> Result<(), AllocError>
        ensures ticked { OnOk result (OfEach (meaning H.begin_of H.step_of) self.old (λ s u before h. u ≡ settled → has_peer conn h ≡ true →
            Standing (meaning H.begin_of H.step_of) s u before self.new (onto (ticking (moment h) conn h) h))) }
        ensures clock { OnOk result (self.new.machine.idle_set.clock ≡ self.old.machine.idle_set.clock) }
    {
        let Some(granted) = self.machine.tick_there(conn, self.moment) else {
            return Ok(());
        };
        let Some(lane) = self.front.lane(conn) else {
            return Ok(());
        };
        let shuts = self.may_shut(lane);
        self.lose(conn, lane, granted);
        if shuts {
            self.words.shut(lane)?;
        }
        Ok(())
    }

    /// Whether the door hasn't shut a lane on which a connection is.
    pub(crate) fn may_shut(&self, lane: u64) -> bool
        ensures { OfEach (meaning H.begin_of H.step_of) self.now (λ s u before h. (c : ℕ) → is_at lane c h ≡ true → result ≡ not (was_refused lane h)) }
    {
        match self.lanes.get(&lane) {
            Some(kept) => !kept.is_refused,
            None => true,
        }
    }

    /// The lane of a connection is to end, unless the door has shut it.
    pub(crate) fn shut(&mut self, lane: u64) -> Result<(), AllocError>
        ensures shuts { OnOk result (OfEach (meaning H.begin_of H.step_of) self.old (λ s u before h. (c : ℕ) → is_at lane c h ≡ true →
            Standing (meaning H.begin_of H.step_of) s u before self.new (onto (shutting lane h) h))) }
        ensures machine { self.new.machine ≡ self.old.machine }
    {
        if !self.may_shut(lane) {
            return Ok(());
        }
        self.words.shut(lane)?;
        Ok(())
    }

    // ---- what is said

    /// Each connection says what is due.
    pub(crate) fn flush_all(&mut self, alloc: Global) -> Result<(), AllocError>
        ensures { OnOk result (OfEach (meaning H.begin_of H.step_of) self.old (λ s u before h. u ≡ settled → self.old.machine.idle_set.clock.moment ≡ moment h →
            IsFlushed (meaning H.begin_of H.step_of) s before self.new h)) }
    {
        hub_machine::connections_are_numbered();
        hd_server::parts_of_turns();
        self.wake_pollers();
        let conns = self.machine.awake(alloc)?;
        for &conn in &conns {
            self.flush(alloc, conn)?;
        }
        Ok(())
    }

    /// Connections whose polls were held for as long as they may be wake.
    fn wake_pollers(&mut self)
        ensures stands { OfEach (meaning H.begin_of H.step_of) self.old (λ s u before h. Standing (meaning H.begin_of H.step_of) s u before self.new h) }
        ensures awake { OfEach (meaning H.begin_of H.step_of) self.old (λ s u before h. (c lane since : ℕ) → poll_of c (notes h) ≡ Given (lane, since) → has_peer c h ≡ true →
            nat_le (since + held_for) (moment h) ≡ true → idle_peer_at self.new.machine c ≡ Absent) }
        ensures clock { self.new.machine.idle_set.clock ≡ self.old.machine.idle_set.clock }
    {
        for waiting in self.front.held_long(self.moment) {
            self.machine.wake(waiting.conn);
        }
    }

    /// A connection says what is due, on its socket or by the poll that it holds. Of one that is closed nothing is kept once that is said.
    fn flush(&mut self, alloc: Global, conn: u64) -> Result<(), AllocError>
        ensures flushed { OnOk result (OfEach (meaning H.begin_of H.step_of) self.old (λ s u before h. u ≡ settled → has_peer conn h ≡ true →
            FlushesOne (meaning H.begin_of H.step_of) s before self.new conn (socket_of conn (notes h)) (poll_of conn (notes h)) h)) }
        ensures keeps { OnOk result (KeepsOthers self.old.machine self.new.machine conn) }
    {
        match self.front.lane(conn) {
            Some(lane) => self.flush_socket(alloc, conn, lane),
            None if self.front.polls(conn) => self.flush_poller(alloc, conn),
            None => {
                if self.machine.is_closed(conn) {
                    self.remove_conn(conn);
                    return Ok(());
                }
                self.machine.park(conn)
            }
        }
    }

    /// On a socket: in one message, if anything is due, unless the lane is full and the connection open.
    fn flush_socket(&mut self, alloc: Global, conn: u64, lane: u64) -> Result<(), AllocError>
        ensures flushed { OnOk result (OfEach (meaning H.begin_of H.step_of) self.old (λ s u before h. u ≡ settled → has_peer conn h ≡ true → socket_of conn (notes h) ≡ Given lane →
            FlushesOne (meaning H.begin_of H.step_of) s before self.new conn (Given lane) (poll_of conn (notes h)) h)) }
        ensures keeps { OnOk result (KeepsOthers self.old.machine self.new.machine conn) }
    {
        if self.withholds(conn, lane) {
            return Ok(());
        }
        if !self.write(alloc, conn, lane)? {
            return self.machine.park(conn);
        }
        self.shut(lane)?;
        self.remove_conn(conn);
        Ok(())
    }

    /// Whether what is due on the socket stays due: its lane is full, and the connection open.
    fn withholds(&self, conn: u64, lane: u64) -> bool
        ensures { OfEach (meaning H.begin_of H.step_of) self.now (λ s u before h. has_peer conn h ≡ true → is_at lane conn h ≡ true → result ≡ is_withheld conn lane h) }
    {
        let Some(kept) = self.lanes.get(&lane) else {
            return false;
        };
        if !kept.is_full {
            return false;
        }
        !self.machine.is_closed(conn)
    }

    /// What is due is written there. True exactly if the end is closed.
    fn write(&mut self, alloc: Global, conn: u64, lane: u64) -> Result<bool, AllocError>
        ensures closed { IfOk result (λ closed. OfConn (meaning H.begin_of H.step_of) self.new.machine conn (λ w t k. closed ≡ is_shut t k)) }
        ensures written { OnOk result (OfEach (meaning H.begin_of H.step_of) self.old (λ s u before h. has_peer conn h ≡ true →
            Writes (meaning H.begin_of H.step_of) s u before self.new conn lane h)) }
        ensures keeps { KeepsOthers self.old.machine self.new.machine conn }
    {
        let mut bytes = Vec::new(alloc);
        let spoken = self.machine.speak(conn, &mut bytes)?;
        if !spoken.any {
            return Ok(spoken.closed);
        }
        self.words.bytes(lane, Vec8::from_vec(bytes), spoken.text)?;
        Ok(spoken.closed)
    }

    /// Of one that polls: by the poll that it holds. If it is closed, its token is ending.
    fn flush_poller(&mut self, alloc: Global, conn: u64) -> Result<(), AllocError>
        ensures flushed { OnOk result (OfEach (meaning H.begin_of H.step_of) self.old (λ s u before h. u ≡ settled → has_peer conn h ≡ true → socket_of conn (notes h) ≡ Absent →
            is_polling conn (notes h) ≡ true → FlushesOne (meaning H.begin_of H.step_of) s before self.new conn Absent (poll_of conn (notes h)) h)) }
        ensures keeps { OnOk result (KeepsOthers self.old.machine self.new.machine conn) }
    {
        hd_server::parts_of_turns();
        self.end_poller(conn);
        match self.front.held(conn) {
            Some(held) => self.flush_poll(alloc, conn, held),
            None => Ok(()),
        }
    }

    /// The token of one that polls is ending, if it is closed.
    fn end_poller(&mut self, conn: u64)
        ensures ends { OfEach (meaning H.begin_of H.step_of) self.old (λ s u before h. has_peer conn h ≡ true → is_polling conn (notes h) ≡ true →
            Standing (meaning H.begin_of H.step_of) s u before self.new (onto (ending (moment h) conn h) h)) }
        ensures machine { self.new.machine ≡ self.old.machine }
    {
        if !self.machine.is_closed(conn) {
            return;
        }
        if self.front.is_ending(conn) {
            return;
        }
        self.front.ending(conn, self.moment);
    }

    /// The poll that is held ends with what is due; without any, if its connection is closed, of which nothing is kept then; or after 90,000
    /// milliseconds.
    fn flush_poll(&mut self, alloc: Global, conn: u64, held: Held) -> Result<(), AllocError>
        ensures flushed { OnOk result (OfEach (meaning H.begin_of H.step_of) self.old (λ s u before h. u ≡ settled → has_peer conn h ≡ true →
            poll_of conn (notes h) ≡ Given (held.lane, held.since) →
            FlushesPoll (meaning H.begin_of H.step_of) s before self.new conn (held.lane, held.since) h)) }
        ensures keeps { OnOk result (KeepsOthers self.old.machine self.new.machine conn) }
    {
        let mut body = Vec::new(alloc);
        if self.machine.say_some(conn, &mut body)? {
            return self.answer_poll(conn, held.lane, frames(body));
        }
        if self.machine.is_closed(conn) {
            self.reply_held(held.lane, bare(alloc, 204))?;
            self.remove_conn(conn);
            return Ok(());
        }
        if self.moment.saturating_sub(held.since) >= HELD_FOR {
            return self.answer_poll(conn, held.lane, bare(alloc, 200));
        }
        self.machine.park(conn)
    }
}

/// The frames of a poll, as its reply.
fn frames(body: Vec<u8>) -> Reply
    ensures { result ≡ frames_reply body.items }
{
    Reply {
        status: 200,
        kind: BodyKind::Octets,
        body: Vec8::from_vec(body),
        accept: None,
        field: None,
        close: false,
    }
}
