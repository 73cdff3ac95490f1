//! What one connection's end is fed, and what it says.

ghost use Rattle.std.specs.Prelude.{◌≡◌, ◌≤◌, ◌&&◌, not, OnOk, IfOk, is_some, true, false, [], None as Absent};
ghost use Rattle.hd_delivery.specs.Histories as of;
ghost use Rattle.hd_delivery.specs.Histories.{is_resumable, present_link};
ghost use Rattle.hd_calls.specs.Peers.{is_shut, steps};
ghost use Rattle.hd_server.specs.Serves.{is_text};
ghost use Rattle.hj_jobs.specs.Meaning.{meaning};
ghost use Rattle.hub_machine.specs.Machines.{OfConn, peer_at};
ghost use Rattle.hub_machine.specs.Sleeping.{KeepsOthers};
ghost use Rattle.hub_machine.specs.Traffic.{FeedsBytes, HasTicked, IsClear, LendsDue, LendsSome, IsServers};

use crate::machine::Machine;
use crate::peer_traffic::{
    feed_peer, is_attached, is_over, may_resume, say_body, say_due, says_texts,
};
use hj_jobs::Hub;
use std::alloc::{AllocError, Global};

/// What one connection said.
#[derive(Clone, Copy, Debug, PartialEq, Eq)]
pub struct Spoken {
    /// Something was due.
    pub any: bool,
    /// What it says are texts.
    pub text: bool,
    /// Its end is closed.
    pub closed: bool,
}

impl<H: Hub> Machine<H> {
    // ---- what it is

    /// Whether the end of a connection stands on a link.
    pub fn is_attached(&self, conn: u64) -> bool
        ensures there { OfConn (meaning H.begin_of H.step_of) self.now conn (λ w t h. result ≡ is_some (present_link (steps t h))) }
        ensures absent { peer_at self.now conn ≡ Absent → result ≡ false }
    {
        match self.peers.get(&conn) {
            Some(peer) => is_attached(peer),
            None => false,
        }
    }

    /// Whether it is there, and closed.
    pub fn is_closed(&self, conn: u64) -> bool
        ensures there { OfConn (meaning H.begin_of H.step_of) self.now conn (λ w t h. result ≡ is_shut t h) }
        ensures absent { peer_at self.now conn ≡ Absent → result ≡ false }
    {
        match self.peers.get(&conn) {
            Some(peer) => is_over(peer),
            None => false,
        }
    }

    /// Whether it is open, and kept when its link is lost.
    pub fn may_resume(&self, conn: u64) -> bool
        ensures there { OfConn (meaning H.begin_of H.step_of) self.now conn (λ w t h. result ≡ (not (is_shut t h) && is_resumable t.config (steps t h))) }
        ensures absent { peer_at self.now conn ≡ Absent → result ≡ false }
    {
        match self.peers.get(&conn) {
            Some(peer) => may_resume(peer),
            None => false,
        }
    }

    /// Whether what it says are texts.
    pub fn is_text(&self, conn: u64) -> bool
        ensures { OfConn (meaning H.begin_of H.step_of) self.now conn (λ w t h. IsServers t h → result ≡ is_text t.config (steps t h)) }
    {
        match self.peers.get(&conn) {
            Some(peer) => says_texts(peer),
            None => true,
        }
    }

    // ---- bytes that come

    /// The end is fed these bytes, as many as it takes each time, and every whole frame is taken after each.
    pub fn feed_all(
        &mut self,
        alloc: Global,
        hub: &H,
        conn: u64,
        now: u64,
        bytes: &[u8],
    ) -> Result<(), AllocError>
        ensures { OnOk result (OfConn (meaning H.begin_of H.step_of) self.old conn (λ w t h. IsClear t h →
            FeedsBytes (meaning H.begin_of H.step_of) self.new conn w t h now false bytes.now)) }
    {
        self.ensure_awake(conn);
        let Some(peer) = self.peers.get_mut(&conn) else {
            return Ok(());
        };
        feed_peer(alloc, &mut self.scratch, hub, peer, now, bytes)?;
        let over = is_over(peer);
        self.close_out_if(conn, over);
        Ok(())
    }

    // ---- moments that come

    /// A moment came, at a connection that stands on a link. A silence, by which the link is lost, is answered by whether the connection may be
    /// resumed.
    pub fn tick_there(&mut self, conn: u64, now: u64) -> Option<bool>
        ensures ticked { OfConn (meaning H.begin_of H.step_of) self.old conn (λ w t h. of.moment (steps t h) ≤ now →
            HasTicked (meaning H.begin_of H.step_of) self.new conn w t h now result) }
        ensures absent { peer_at self.old conn ≡ Absent → (result ≡ Absent) × (self.new ≡ self.old) }
        ensures clock { self.new.idle_set.clock ≡ self.old.idle_set.clock }
    {
        self.ensure_awake(conn);
        let Some(peer) = self.peers.get_mut(&conn) else {
            return None;
        };
        if !is_attached(peer) {
            return None;
        }
        let granted = may_resume(peer);
        let silent = peer.tick(now);
        let over = is_over(peer);
        self.close_out_if(conn, over);
        if silent {
            return Some(granted);
        }
        None
    }

    // ---- what is said

    /// Appends all that is due. True exactly if something was.
    pub fn say_all(&mut self, conn: u64, out: &mut Vec<u8>) -> Result<bool, AllocError>
        ensures { IfOk result (λ any. OfConn (meaning H.begin_of H.step_of) self.old conn (λ w t h.
            LendsDue (meaning H.begin_of H.step_of) self.new conn w t h any out.old.items out.new.items)) }
    {
        self.ensure_awake(conn);
        let Some(peer) = self.peers.get_mut(&conn) else {
            return Ok(false);
        };
        say_due(peer, out)
    }

    /// The body of a poll's reply: what is due, up to the frame with which it is full. True exactly if there was any.
    pub fn say_some(&mut self, conn: u64, body: &mut Vec<u8>) -> Result<bool, AllocError>
        ensures lent { IfOk result (λ any. OfConn (meaning H.begin_of H.step_of) self.old conn (λ w t h. body.old.items ≡ [] →
            LendsSome (meaning H.begin_of H.step_of) self.new conn w t h any body.new.items)) }
        ensures keeps { KeepsOthers self.old self.new conn }
    {
        self.ensure_awake(conn);
        let Some(peer) = self.peers.get_mut(&conn) else {
            return Ok(false);
        };
        say_body(peer, body)
    }

    /// Appends all that is due, and tells what `say_all`, `is_text` and, after it, `is_closed` would.
    pub fn speak(&mut self, conn: u64, out: &mut Vec<u8>) -> Result<Spoken, AllocError>
        ensures lent { IfOk result (λ spoken. OfConn (meaning H.begin_of H.step_of) self.old conn (λ w t h.
            LendsDue (meaning H.begin_of H.step_of) self.new conn w t h spoken.any out.old.items out.new.items)) }
        ensures text { IfOk result (λ spoken. OfConn (meaning H.begin_of H.step_of) self.old conn (λ w t h.
            IsServers t h → spoken.text ≡ is_text t.config (steps t h))) }
        ensures closed { IfOk result (λ spoken. OfConn (meaning H.begin_of H.step_of) self.new conn (λ w t h. spoken.closed ≡ is_shut t h)) }
        ensures keeps { KeepsOthers self.old self.new conn }
    {
        self.ensure_awake(conn);
        let Some(peer) = self.peers.get_mut(&conn) else {
            return Ok(Spoken {
                any: false,
                text: true,
                closed: false,
            });
        };
        let text = says_texts(peer);
        let any = say_due(peer, out)?;
        let closed = is_over(peer);
        Ok(Spoken { any, text, closed })
    }
}
