//! How connections begin, stand on lanes, poll and end.

ghost use Rattle.std.specs.Prelude.{◌≡◌, ℕ, true, false, List, ◌∷◌, ◌++◌, [], IfOk, OnOk, Some as Given, None as Absent, option_copied, unwrap_or};
ghost use Rattle.hw_lanes.specs.Replies.{IsReply};
ghost use Rattle.hd_delivery.specs.declared.vocabulary.Reason.TheVariants as reason;
ghost use Rattle.hd_server.specs.declared.vocabulary.Outcome.TheVariants.{FirstPoll, NextPoll};
ghost use Rattle.hd_server.specs.Doings.{ServerEvent, Notes, has_peer, history, may_resume, moment, notes};
ghost use Rattle.hd_server.specs.Lives as note;
ghost use Rattle.hd_server.specs.Plans.{PendingRequest as OccasionMeant, Setup, closing, connecting, ending_held, ends_lane, removing_conn, losing, onto, replying, request_plan, standing_on};
ghost use Rattle.hj_jobs.specs.Meaning.{meaning};
ghost use Rattle.hub_machine.specs.Machines.{peer_at};
ghost use Rattle.hub_machine.specs.Sleeping.{KeepsOthers};
ghost use Rattle.hub_server.specs.Lanes.{conn_of, cut_of, is_at, lane_of, poll_lane, settled};
ghost use Rattle.hd_delivery.specs.Histories.{present_link};
ghost use Rattle.hub_server.specs.Servers.{OfEach, Standing};
ghost use Rattle.hub_server.specs.Steps.{Follows, HasCome};
ghost use Rattle.hub_server.specs.Connections.{CanHold, CanStand, Frees, HasLeft, IsFedTo, IsKnown};
ghost use Rattle.std.specs.Fmt.{decimal};

use crate::lane::Lane;
use crate::requests::{PendingRequest, bare, ends_after};
use crate::server::Server;
use hd_delivery::Reason;
use he_end::Config;
use hj_jobs::Hub;
use hm_message::Codec;
use hv_value::Text;
use hw_lanes::{BodyKind, Reply, Text8, Vec8};
use std::alloc::{AllocError, Global};

impl<H: Hub> Server<H> {
    /// Whether the connection's end may be resumed.
    pub(crate) fn may_resume(&self, conn: u64) -> bool
        ensures { OfEach (meaning H.begin_of H.step_of) self.now (λ s u before h. result ≡ may_resume conn h) }
    {
        self.machine.may_resume(conn)
    }

    // ---- sockets

    /// The connection stands on the lane from now on, and is told so. Its peer begins, if it has none; `resumable`: it can be resumed.
    pub(crate) fn attach_socket(
        &mut self,
        alloc: Global,
        conn: u64,
        at: PendingRequest,
        resumable: bool,
        accept: Text8,
    ) -> Result<(), AllocError>
        ensures stands { OnOk result (OfEach (meaning H.begin_of H.step_of) self.old (λ s u before h. u ≡ settled → HasCome at.lane at.is_last h → CanStand conn h →
            (o : OccasionMeant) → o.now ≡ moment h → o.lane ≡ at.lane → o.request.upgrade ≡ Given accept →
            Standing (meaning H.begin_of H.step_of) s u before self.new (onto (standing_on s o conn resumable h) h))) }
    {
        self.connect(alloc, conn, resumable)?;
        // Its end is open and kept, or new.
        let _attached = self.machine.attach(conn, self.moment);
        if let Some(older) = self.front.lane(conn) {
            self.lanes.remove(&older);
        }
        self.front.socket(conn, at.lane, self.moment);
        let lane = Lane {
            conn,
            polls: false,
            is_last: at.is_last,
            is_refused: false,
            is_full: false,
        };
        self.lanes.insert(at.lane, lane)?;
        let reply = Reply {
            status: 101,
            kind: BodyKind::None,
            body: Vec8::from_vec(Vec::new(alloc)),
            accept: Some(accept),
            field: None,
            close: false,
        };
        self.words.reply(at.lane, reply)?;
        Ok(())
    }

    /// The connection gets its peer, if it has none.
    fn connect(&mut self, alloc: Global, conn: u64, resumable: bool) -> Result<(), AllocError>
        ensures connects { OnOk result (OfEach (meaning H.begin_of H.step_of) self.old (λ s u before h. u ≡ settled → IsKnown conn h →
            Standing (meaning H.begin_of H.step_of) s (conn_of conn) before self.new (onto (connecting s conn resumable h) h))) }
    {
        if self.machine.peer(conn).is_some() {
            return Ok(());
        }
        let user = self.callers.remove(&conn);
        let who = name_of(alloc, conn, user.as_ref())?;
        let config = Config {
            codec: Codec::Json,
            version: 1,
            reconnect: resumable,
            limits: self.resend.limits(),
        };
        self.machine
            .connect(alloc, conn, config, who, user.as_ref())?;
        Ok(())
    }

    // ---- polls

    /// The first poll of a connection, which begins with it: it is answered at once.
    pub(crate) fn first_poll(
        &mut self,
        alloc: Global,
        hub: &H,
        conn: u64,
        at: PendingRequest,
    ) -> Result<(), AllocError>
        ensures polled { OnOk result (OfEach (meaning H.begin_of H.step_of) self.old (λ s u before h. u ≡ settled → HasCome at.lane at.is_last h → CanStand conn h →
            has_peer conn h ≡ false → note.socket_of conn (notes h) ≡ Absent → note.lost_at conn (notes h) ≡ Absent → (o : OccasionMeant) → o.now ≡ moment h → o.lane ≡ at.lane →
            (after : List ServerEvent) × Follows (request_plan s o Absent conn h FirstPoll) h after × Standing (meaning H.begin_of H.step_of) s u before self.new after)) }
    {
        self.connect(alloc, conn, false)?;
        let _attached = self.machine.attach(conn, self.moment);
        self.feed(alloc, hub, conn, &[])?;
        self.front.poll(conn, at.lane, self.moment);
        self.front.answered(conn, at.lane, self.moment);
        self.reply(at, bare(alloc, 200))?;
        Ok(())
    }

    /// A further poll of a connection that polls: one that is held ends, and this one is held from now on.
    pub(crate) fn next_poll(
        &mut self,
        alloc: Global,
        hub: &H,
        conn: u64,
        at: PendingRequest,
    ) -> Result<(), AllocError>
        ensures polled { OnOk result (OfEach (meaning H.begin_of H.step_of) self.old (λ s u before h. HasCome at.lane at.is_last h → u ≡ settled →
            CanHold conn h → (o : OccasionMeant) → o.now ≡ moment h → o.lane ≡ at.lane →
            (after : List ServerEvent) × Follows (request_plan s o Absent conn h NextPoll) h after × Standing (meaning H.begin_of H.step_of) s u before self.new after)) }
    {
        self.end_held(alloc, conn)?;
        self.feed(alloc, hub, conn, &[])?;
        self.hold_poll(conn, at)?;
        Ok(())
    }

    /// The connection holds this poll from now on.
    pub(crate) fn hold_poll(&mut self, conn: u64, at: PendingRequest) -> Result<(), AllocError>
        ensures held { OnOk result (OfEach (meaning H.begin_of H.step_of) self.old (λ s u before h. u ≡ settled → HasCome at.lane at.is_last h → CanHold conn h →
            Standing (meaning H.begin_of H.step_of) s u before self.new (Notes (note.Polled conn at.lane (moment h)) ∷ h))) }
    {
        if let Some(older) = self.front.held(conn) {
            self.lanes.remove(&older.lane);
        }
        self.front.poll(conn, at.lane, self.moment);
        let lane = Lane {
            conn,
            polls: true,
            is_last: at.is_last,
            is_refused: false,
            is_full: false,
        };
        self.lanes.insert(at.lane, lane)?;
        Ok(())
    }

    /// A poll that is held ends with 204.
    pub(crate) fn end_held(&mut self, alloc: Global, conn: u64) -> Result<(), AllocError>
        ensures ended { OnOk result (OfEach (meaning H.begin_of H.step_of) self.old (λ s u before h. u ≡ settled → IsKnown conn h →
            Standing (meaning H.begin_of H.step_of) s u before self.new (onto (ending_held conn (moment h) h) h))) }
    {
        match self.front.held(conn) {
            Some(held) => self.answer_poll(conn, held.lane, bare(alloc, 204)),
            None => Ok(()),
        }
    }

    /// The poll that the connection holds on this lane ends with this reply.
    pub(crate) fn answer_poll(
        &mut self,
        conn: u64,
        lane: u64,
        reply: Reply,
    ) -> Result<(), AllocError>
        requires { IsReply reply }
        ensures answered { OnOk result (OfEach (meaning H.begin_of H.step_of) self.old (λ s u before h. u ≡ settled → has_peer conn h ≡ true → poll_lane conn (notes h) ≡ Given lane →
            Standing (meaning H.begin_of H.step_of) s u before self.new (Notes (note.Answered conn lane (moment h)) ∷ onto (replying lane reply h) h))) }
        ensures machine { self.new.machine ≡ self.old.machine }
    {
        self.reply_held(lane, reply)?;
        self.front.answered(conn, lane, self.moment);
        self.lanes.remove(&lane);
        Ok(())
    }

    /// The reply to the poll that is held on this lane, on which its connection still is.
    pub(crate) fn reply_held(&mut self, lane: u64, reply: Reply) -> Result<(), AllocError>
        requires { IsReply reply }
        ensures said { OnOk result (OfEach (meaning H.begin_of H.step_of) self.old (λ s u before h. u ≡ settled → (c : ℕ) → is_at lane c h ≡ true →
            Standing (meaning H.begin_of H.step_of) s (lane_of (Given lane)) before self.new (onto (replying lane reply h) h))) }
        ensures machine { self.new.machine ≡ self.old.machine }
    {
        let ends = self.ends_held(lane, reply.status);
        self.words.answer(lane, reply, ends)?;
        Ok(())
    }

    /// Whether a lane on which a connection is ends after a reply of this status.
    fn ends_held(&self, lane: u64, status: u16) -> bool
        ensures { OfEach (meaning H.begin_of H.step_of) self.now (λ s u before h. (c : ℕ) → is_at lane c h ≡ true → result ≡ ends_lane lane status h) }
    {
        match self.lanes.get(&lane) {
            Some(kept) => {
                let ends = ends_after(status, kept.is_last);
                ends && !kept.is_refused
            }
            None => false,
        }
    }

    // ---- bytes

    /// The connection is fed these bytes, and every whole frame is taken.
    pub(crate) fn feed(
        &mut self,
        alloc: Global,
        hub: &H,
        conn: u64,
        bytes: &[u8],
    ) -> Result<(), AllocError>
        ensures fed { OnOk result (OfEach (meaning H.begin_of H.step_of) self.old (λ s u before h. has_peer conn h ≡ true →
            IsFedTo (meaning H.begin_of H.step_of) s u before self.new conn bytes.now h)) }
    {
        hub_machine::moves_come_first();
        self.machine.feed_all(alloc, hub, conn, self.moment, bytes)?;
        Ok(())
    }

    // ---- ends

    /// The connection's own side closes it, since it is deleted, and nothing is kept of it.
    pub(crate) fn close_done(&mut self, conn: u64)
        ensures closed { OfEach (meaning H.begin_of H.step_of) self.old (λ s u before h. IsKnown conn h →
            Standing (meaning H.begin_of H.step_of) s u before self.new (onto (closing conn reason.Done h ++ removing_conn conn h) h)) }
    {
        self.machine.close(conn, Reason::Done);
        self.remove_conn(conn);
    }

    /// Nothing is kept of the connection.
    pub(crate) fn remove_conn(&mut self, conn: u64)
        ensures gone { OfEach (meaning H.begin_of H.step_of) self.old (λ s u before h. IsKnown conn h →
            Frees (meaning H.begin_of H.step_of) s u before self.new conn h (onto (removing_conn conn h) h)) }
        ensures absent { peer_at self.new.machine conn ≡ Absent }
        ensures keeps { KeepsOthers self.old.machine self.new.machine conn }
    {
        self.detach_lanes(conn);
        self.callers.remove(&conn);
        self.machine.remove_conn(conn);
        self.front.closed(conn);
    }

    /// The connection is on no lane any more.
    pub(crate) fn detach_lanes(&mut self, conn: u64)
        ensures left { OfEach (meaning H.begin_of H.step_of) self.old (λ s u before h. IsKnown conn h → HasLeft conn self.old self.new h) }
        ensures machine { self.new.machine ≡ self.old.machine }
    {
        if let Some(lane) = self.front.lane(conn) {
            self.lanes.remove(&lane);
        }
        if let Some(held) = self.front.held(conn) {
            self.lanes.remove(&held.lane);
        }
    }

    /// The connection has lost this lane. One that may be resumed waits for its next link; of every other nothing is kept.
    pub(crate) fn lose(&mut self, conn: u64, lane: u64, granted: bool)
        ensures lost { OfEach (meaning H.begin_of H.step_of) self.old (λ s u before h. u ≡ cut_of lane → has_peer conn h ≡ true → present_link (history conn h) ≡ Absent →
            note.socket_of conn (notes h) ≡ Given lane → granted ≡ may_resume conn h →
            Standing (meaning H.begin_of H.step_of) s settled before self.new (onto (losing conn lane (moment h) h) h)) }
        ensures clock { self.new.machine.idle_set.clock ≡ self.old.machine.idle_set.clock }
    {
        if granted {
            self.front.lost(conn, lane, self.moment);
            self.lanes.remove(&lane);
        } else {
            self.remove_conn(conn);
        }
    }
}

/// The name under which hubs know a connection: its user's or, without one, its number.
fn name_of(alloc: Global, conn: u64, user: Option<&Text>) -> Result<Text, AllocError>
    ensures { IfOk result (λ who. who ≡ unwrap_or (option_copied user.entry) (decimal conn)) }
{
    match user {
        Some(user) => user.copy(),
        None => Text::of(alloc, format!(in alloc; "{conn}")?.as_str()),
    }
}
