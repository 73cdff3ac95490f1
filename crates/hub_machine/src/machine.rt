//! The machine: the peers of a server's connections, by their numbers, and who is in which group.

ghost use Rattle.std.specs.Prelude.{◌≡◌, ◌≤◌, ◌<◌, ◌⊎◌, ℕ, true, false, List, [], ◌∷◌, ◌++◌, Some, None, IfOk, IfErr, OnOk, IfSome, OnErr, Ok, Err, length, take, is_some, option_copied, option_map, if◌then◌else◌};
ghost use Rattle.hs_shake.specs.Requests.{IsVersion};
ghost use Rattle.hd_delivery.specs.declared.vocabulary.Side.TheVariants.{Server};
ghost use Rattle.hd_delivery.specs.Histories as of;
ghost use Rattle.hd_delivery.specs.Histories.{Attached, Detached, Lent, Ticked, Silenced, present_link, was_on, first_link, is_resumable, is_silence};
ghost use Rattle.hd_delivery.specs.Due.{due};
ghost use Rattle.hd_delivery.specs.Bytes.{Wire, Bytes, Does as Step_of, unread};
ghost use Rattle.hd_delivery.specs.OneHistory.{next_reader};
ghost use Rattle.he_wire.specs.Wires.{IsHouseWire};
ghost use Rattle.he_end.specs.Calls.{taken_at};
ghost use Rattle.hd_calls.specs.Peers.{Plain, byte_steps, codec, is_shut, steps};
ghost use Rattle.hd_server.specs.Machine.{Connects, Does, Goes, MachineEvent, settings_of};
ghost use Rattle.hj_jobs.specs.Meaning.{meaning};
ghost use Rattle.hp_peer.specs.Stands.{settings};
ghost use Rattle.hub_machine.specs.Machines.{IsAsItWas, OfConn, peer_at, settings_there, StandsMachine};
ghost use Rattle.hub_machine.specs.Calls.{ClosesOut, ClosesOutIf, HasSaid, IsUntaken, Takes};
ghost use Rattle.hub_machine.specs.Sleeping.{KeepsOthers};

use crate::idle_set::IdleSet;
use crate::peer_traffic::{is_over, say_one};
use hd_delivery::{Reason, Side};
use he_end::{AttachError, Config};
use hg_groups::Registry;
use hj_jobs::Hub;
use hp_peer::{Did, Peer, PeerError};
use hv_value::Text;
use json::Scratch;
use std::alloc::{AllocError, Global};
use std::collections::BTreeMap;

/// The peers of connections, which are numbered from 1, and the groups and users that these belong to. A connection whose end is closed is
/// in no group, and is no user's.
///
/// Each call speaks of the connection that it names, and does what its peer's call of the same name does, or `next_out` for `say`. For one
/// that isn't there it does nothing.
///
/// Of those that sleep the peers lag behind: they haven't ticked, and no round has begun at them, since they fell asleep. When one is called it
/// wakes, and what was left out is made up for.
#[derive(Drop)]
pub struct Machine<H: Hub> {
    pub(crate) peers: BTreeMap<u64, Peer<H>>,
    pub(crate) registry: Registry,
    pub(crate) idle_set: IdleSet,
    /// Where the reader of JSON works. What it holds counts for nothing.
    pub(crate) scratch: Scratch,
}

impl<H: Hub> Machine<H> {
    /// No connections.
    pub fn start(alloc: Global) -> Result<Machine<H>, AllocError>
        ensures { IfOk result (λ machine. StandsMachine (meaning H.begin_of H.step_of) machine []) }
    {
        Ok(Machine {
            peers: BTreeMap::new(alloc),
            registry: Registry::start(alloc)?,
            idle_set: IdleSet::start(alloc),
            scratch: Scratch::new(alloc),
        })
    }

    /// The peer of a connection, to be looked at. That of one that sleeps hasn't ticked since.
    pub fn peer(&self, conn: u64) -> Option<&Peer<H>>
        ensures { option_copied result ≡ peer_at self.now conn }
    {
        self.peers.get(&conn)
    }

    /// A connection of a new number gets its peer, before its first link. `who` is the name under which hubs know it, and `user` is the user
    /// to whom it belongs, if any. Out of memory nothing more is said of the machine.
    pub fn connect(
        &mut self,
        alloc: Global,
        conn: u64,
        config: Config,
        who: Text,
        user: Option<&Text>,
    ) -> Result<(), AllocError>
        requires { IsVersion config.version }
        ensures { OnOk result ((w : List MachineEvent) (wire : Wire) → IsHouseWire config.limits.frame wire → 0 < conn → settings_of conn w ≡ None →
            StandsMachine (meaning H.begin_of H.step_of) self.old w →
            StandsMachine (meaning H.begin_of H.step_of) self.new (Connects conn (settings Server config wire who) (option_copied user.entry) ∷ w)) }
    {
        let peer = Peer::start(alloc, Side::Server, config, who)?;
        if let Some(user) = user {
            self.registry.name(alloc, user, conn)?;
        }
        self.idle_set.reserve(self.peers.len() + 1)?;
        self.peers.insert(conn, peer)?;
        self.idle_set.add(conn);
        Ok(())
    }

    /// Nothing is kept of a connection.
    pub fn remove_conn(&mut self, conn: u64)
        ensures gone { OfConn (meaning H.begin_of H.step_of) self.old conn (λ w t h. StandsMachine (meaning H.begin_of H.step_of) self.new (Goes conn ∷ w)) }
        ensures none { peer_at self.old conn ≡ None → self.new ≡ self.old }
        ensures absent { peer_at self.new conn ≡ None }
        ensures keeps { KeepsOthers self.old self.new conn }
    {
        if !self.peers.contains_key(&conn) {
            return;
        }
        self.peers.remove(&conn);
        self.registry.gone(conn);
        self.idle_set.forget(conn);
    }

    // ---- what the connection's end is told, and what it tells

    /// A link begins, at this moment.
    pub fn attach(&mut self, conn: u64, now: u64) -> Result<(), AttachError>
        ensures ok { OnOk result (OfConn (meaning H.begin_of H.step_of) self.old conn (λ w t h. (l : ℕ) → was_on l (steps t h) ≡ false → of.moment (steps t h) ≤ now →
            StandsMachine (meaning H.begin_of H.step_of) self.new (Does conn (Plain (Step_of (Attached l now))) ∷ w))) }
        ensures closed { IfErr result (λ e. e ≡ AttachError.Closed → OfConn (meaning H.begin_of H.step_of) self.old conn (λ w t h. is_shut t h ≡ true)) }
        ensures not_granted { IfErr result (λ e. e ≡ AttachError.NotGranted → OfConn (meaning H.begin_of H.step_of) self.old conn (λ w t h.
            (is_shut t h ≡ false) × (is_resumable t.config (steps t h) ≡ false) × (first_link (steps t h) ≡ None → ⊥))) }
        ensures unchanged { OnErr result (IsAsItWas (meaning H.begin_of H.step_of) self.old self.new) }
        ensures absent { peer_at self.old conn ≡ None → (result ≡ Err AttachError.Closed) × (self.new ≡ self.old) }
    {
        self.wake(conn);
        let Some(peer) = self.peers.get_mut(&conn) else {
            return Err(AttachError::Closed);
        };
        peer.attach(now)
    }

    /// The link is lost, at this moment.
    pub fn detach(&mut self, conn: u64, now: u64)
        ensures left { OfConn (meaning H.begin_of H.step_of) self.old conn (λ w t h. (l : ℕ) → present_link (steps t h) ≡ Some l → of.moment (steps t h) ≤ now →
            StandsMachine (meaning H.begin_of H.step_of) self.new (Does conn (Plain (Step_of (Detached now))) ∷ w)) }
        ensures none { OfConn (meaning H.begin_of H.step_of) self.old conn (λ w t h. present_link (steps t h) ≡ None →
            StandsMachine (meaning H.begin_of H.step_of) self.new w) }
        ensures absent { peer_at self.old conn ≡ None → self.new ≡ self.old }
    {
        self.wake(conn);
        if let Some(peer) = self.peers.get_mut(&conn) {
            peer.detach(now);
        }
        self.close_out(conn);
    }

    /// Takes the first bytes of what the link brings, and answers how many.
    pub fn feed(&mut self, conn: u64, piece: &[u8]) -> usize
        ensures within { result ≤ length piece.now }
        ensures count { OfConn (meaning H.begin_of H.step_of) self.old conn (λ w t h. (l : ℕ) → present_link (steps t h) ≡ Some l → is_shut t h ≡ false →
            result ≡ taken_at t.limits (next_reader t.wire t.config l (steps t h) (unread t.wire t.config l (byte_steps t h)))
            (length (unread t.wire t.config l (byte_steps t h))) (length piece.now)) }
        ensures fed { OfConn (meaning H.begin_of H.step_of) self.old conn (λ w t h. (l : ℕ) → present_link (steps t h) ≡ Some l → is_shut t h ≡ false →
            StandsMachine (meaning H.begin_of H.step_of) self.new (Does conn (Plain (Bytes (take result piece.now))) ∷ w)) }
        ensures none { OfConn (meaning H.begin_of H.step_of) self.old conn (λ w t h. (present_link (steps t h) ≡ None) ⊎ (is_shut t h ≡ true) →
            (result ≡ 0) × IsAsItWas (meaning H.begin_of H.step_of) self.old self.new) }
        ensures absent { peer_at self.old conn ≡ None → (result ≡ 0) × (self.new ≡ self.old) }
    {
        self.wake(conn);
        match self.peers.get_mut(&conn) {
            Some(peer) => peer.feed(piece),
            None => 0,
        }
    }

    /// Takes the message that waits or, if none does, the next frame of the link, and tells what it did.
    pub fn take(
        &mut self,
        alloc: Global,
        hub: &H,
        conn: u64,
        now: u64,
    ) -> Result<Option<Did>, PeerError>
        ensures ok { IfOk result (λ told. OfConn (meaning H.begin_of H.step_of) self.old conn (λ w t h. Takes (meaning H.begin_of H.step_of) self.new conn w t h now told)) }
        ensures refused { IfErr result (λ e. OfConn (meaning H.begin_of H.step_of) self.old conn (λ w t h. IsUntaken (meaning H.begin_of H.step_of) self.new conn w t h e)) }
        ensures absent { peer_at self.old conn ≡ None → (result ≡ Ok None) × (self.new ≡ self.old) }
    {
        self.wake(conn);
        let Some(peer) = self.peers.get_mut(&conn) else {
            return Ok(None);
        };
        let took = peer.take(alloc, hub, now);
        self.close_out(conn);
        took
    }

    /// A moment came. True exactly if it is a silence, by which the link is lost.
    pub fn tick(&mut self, conn: u64, now: u64) -> bool
        ensures ticks { OfConn (meaning H.begin_of H.step_of) self.old conn (λ w t h. of.moment (steps t h) ≤ now → (result ≡ is_silence t.config now (steps t h))
            × StandsMachine (meaning H.begin_of H.step_of) self.new (Does conn (Plain (Step_of (if result then Silenced now else Ticked now))) ∷ w)) }
        ensures absent { peer_at self.old conn ≡ None → (result ≡ false) × (self.new ≡ self.old) }
    {
        self.wake(conn);
        let silent = match self.peers.get_mut(&conn) {
            Some(peer) => peer.tick(now),
            None => false,
        };
        self.close_out(conn);
        silent
    }

    /// Closes the connection's end for this reason, without leave to come back.
    pub fn close(&mut self, conn: u64, reason: Reason)
        ensures live { OfConn (meaning H.begin_of H.step_of) self.old conn (λ w t h. is_shut t h ≡ false →
            StandsMachine (meaning H.begin_of H.step_of) self.new (Does conn (Plain (Step_of (of.Closed reason false))) ∷ w)) }
        ensures closed { OfConn (meaning H.begin_of H.step_of) self.old conn (λ w t h. is_shut t h ≡ true →
            StandsMachine (meaning H.begin_of H.step_of) self.new w) }
        ensures absent { peer_at self.old conn ≡ None → self.new ≡ self.old }
    {
        self.wake(conn);
        if let Some(peer) = self.peers.get_mut(&conn) {
            peer.close(reason, false);
        }
        self.close_out(conn);
    }

    /// Appends the next bytes to put on the link, whole frames, which count as said. False if nothing is due. Out of memory nothing more is
    /// said of the machine.
    pub fn say(&mut self, conn: u64, out: &mut Vec<u8>) -> Result<bool, AllocError>
        ensures said { IfOk result (λ more. OfConn (meaning H.begin_of H.step_of) self.old conn (λ w t h.
            HasSaid (meaning H.begin_of H.step_of) self.new conn w t h more out.old.items out.new.items)) }
        ensures absent { peer_at self.old conn ≡ None → (result ≡ Ok false) × (self.new ≡ self.old) × (out.new.items ≡ out.old.items) }
    {
        self.wake(conn);
        let Some(peer) = self.peers.get_mut(&conn) else {
            return Ok(false);
        };
        say_one(peer, out)
    }

    /// A connection whose end is closed leaves its groups, and is no user's any more.
    pub(crate) fn close_out(&mut self, conn: u64)
        ensures { ClosesOut (meaning H.begin_of H.step_of) self.old self.new conn }
    {
        let Some(peer) = self.peers.get(&conn) else {
            return;
        };
        let over = is_over(peer);
        self.close_out_if(conn, over);
    }

    /// The same of one whose end is closed if this says so.
    pub(crate) fn close_out_if(&mut self, conn: u64, over: bool)
        ensures { ClosesOutIf (meaning H.begin_of H.step_of) self.old self.new conn over }
    {
        if over {
            self.registry.gone(conn);
        }
    }
}
