//! Events: what a server does about each, but for requests; and what a moment ends.

ghost use Rattle.std.specs.Prelude.{◌≡◌, ℕ, List, OnOk, Some as Given, None as Absent, true};
ghost use Rattle.hd_server.specs.Doings.{ServerEvent, moment};
ghost use Rattle.hd_server.specs.Lives.{overdue};
ghost use Rattle.hd_server.specs.Plans.{conn_on, losing_lane, onto, poller_on};
ghost use Rattle.hd_server.specs.Serves.{IsFed};
ghost use Rattle.hj_jobs.specs.Meaning.{meaning};
ghost use Rattle.hub_server.specs.Lanes.{lane_of, settled};
ghost use Rattle.hub_server.specs.Servers.{IsRested, OfEach, Standing};
ghost use Rattle.hub_server.specs.Steps.{CanHandle, Handles, NoneOverdue, outside, expired_by, lost_in};
ghost use Rattle.hub_server.specs.Events.{Expires, HasHeardBytes};
ghost use Rattle.hd_server.specs.declared.vocabulary.Said.{Said as SaidMeant};
ghost use Rattle.hd_server.specs.Plans.{Setup};

use crate::server::Server;
use hd_delivery::Reason;
use hd_server::Life;
use hj_jobs::Hub;
use hk_keeper::Keeper;
use hw_door::{Event, Lots};
use std::alloc::{AllocError, Global};

impl<H: Hub> Server<H> {
    /// The event that was heard is handled.
    pub(crate) fn handle<K: Keeper, L: Lots>(
        &mut self,
        alloc: Global,
        event: Event,
        hub: &H,
        keeper: &mut K,
        lots: &mut L,
    ) -> Result<(), AllocError>
        ensures { OnOk result ((s : Setup) (before : List SaidMeant) (h : List ServerEvent) → Standing (meaning H.begin_of H.step_of) s (lane_of (lost_in event)) before self.old h →
            ((c : ℕ) → IsRested c h) → CanHandle event h → NoneOverdue h → Handles (meaning H.begin_of H.step_of) s before self.new
            (outside (K.holds keeper.old) (K.answers keeper.old) (K.faults keeper.old) (L.drawn lots.old) (L.faults lots.old))
            (outside (K.holds keeper.new) (K.answers keeper.new) (K.faults keeper.new) (L.drawn lots.new) (L.faults lots.new))
            event h) }
    {
        hd_server::parts_of_turns();
        match event {
            Event::Request { lane, request } => {
                self.on_request(alloc, lane, request, hub, keeper, lots)
            }
            Event::Bytes { lane, bytes } => self.on_bytes(alloc, hub, lane, bytes.bytes()),
            Event::Lost { lane } => {
                self.on_loss(lane);
                Ok(())
            }
            Event::Refused {
                lane: _,
                refusal: _,
            } => Ok(()),
            Event::Response {
                lane: _,
                status: _,
                body: _,
            } => Ok(()),
            Event::Upgraded { lane: _ } => Ok(()),
            Event::Drained { lane: _ } => Ok(()),
            Event::Quiet => Ok(()),
        }
    }

    /// Bytes came on a lane: they are fed to the connection that stands there.
    fn on_bytes(
        &mut self,
        alloc: Global,
        hub: &H,
        lane: u64,
        bytes: &[u8],
    ) -> Result<(), AllocError>
        ensures { OnOk result (OfEach (meaning H.begin_of H.step_of) self.old (λ s u before h.
            HasHeardBytes (meaning H.begin_of H.step_of) s u before self.new lane bytes.now h)) }
    {
        hub_machine::connections_are_found();
        match self.lanes.get(&lane) {
            Some(kept) if !kept.polls => {
                let conn = kept.conn;
                self.feed(alloc, hub, conn, bytes)
            }
            _ => Ok(()),
        }
    }

    /// A lane was lost: its connection waits for its next link, polls again or ends.
    fn on_loss(&mut self, lane: u64)
        ensures { OfEach (meaning H.begin_of H.step_of) self.old (λ s u before h. u ≡ lane_of (Given lane) →
            Standing (meaning H.begin_of H.step_of) s settled before self.new
            (onto (losing_lane (conn_on lane h) (poller_on lane h) lane (moment h) h) h)) }
    {
        hub_machine::connections_are_found();
        let Some(kept) = self.lanes.get(&lane).copied() else {
            return;
        };
        if kept.polls {
            self.front.lost(kept.conn, lane, self.moment);
            self.lanes.remove(&lane);
            return;
        }
        let granted = self.may_resume(kept.conn);
        self.machine.detach(kept.conn, self.moment);
        self.lose(kept.conn, lane, granted);
    }

    // ---- moments

    /// What the moment has ended is closed, or nothing is kept of it.
    pub(crate) fn expire(&mut self)
        ensures expired { OfEach (meaning H.begin_of H.step_of) self.old (λ s u before h. u.conn ≡ Absent →
            Standing (meaning H.begin_of H.step_of) s u before self.new (expired_by h)) }
        ensures over { OfEach (meaning H.begin_of H.step_of) self.old (λ s u before h. NoneOverdue (expired_by h)) }
    {
        hd_server::moments_come_once();
        hd_server::parts_of_turns();
        for _expired in 0..u64::MAX {
            if !self.expire_next() {
                return;
            }
        }
    }

    /// The first connection that is overdue comes to its moment. True exactly if there is one.
    fn expire_next(&mut self) -> bool
        ensures { OfEach (meaning H.begin_of H.step_of) self.old (λ s u before h. u.conn ≡ Absent → Expires (meaning H.begin_of H.step_of) s u before self.new h result) }
    {
        let Some(conn) = self.front.overdue(self.moment) else {
            return false;
        };
        if let Life::Ending = self.front.life_at(conn, self.moment) {
            self.machine.close(conn, Reason::Expired);
            let _conn = self.front.expired(self.moment);
            return true;
        }
        self.detach_lanes(conn);
        self.callers.remove(&conn);
        self.machine.remove_conn(conn);
        let _conn = self.front.expired(self.moment);
        true
    }
}
