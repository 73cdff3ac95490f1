//! Connections fall asleep and wake.

ghost use Rattle.std.specs.Prelude.{◌≡◌, ◌≤◌, ◌==◌, ◌⊎◌, ℕ, List, ◌∷◌, None as Absent, IfOk, IfSome, OnOk, is_some, true, false, if◌then◌else◌};
ghost use Rattle.hd_delivery.specs.Histories as of;
ghost use Rattle.hd_delivery.specs.Histories.{Ticked, is_silence};
ghost use Rattle.hd_delivery.specs.Bytes.{Does as Step_of};
ghost use Rattle.hd_delivery.specs.Due.{due};
ghost use Rattle.he_end.specs.Spoken.{spoken_in};
ghost use Rattle.hd_calls.specs.Peers.{PeerEvent, Plain, Rounds, Settings, steps};
ghost use Rattle.hd_server.specs.Machine.{MachineEvent};
ghost use Rattle.hv_value.specs.SortedSet.{IsFirstPast};
ghost use Rattle.hj_jobs.specs.Meaning.{meaning};
ghost use Rattle.hp_peer.specs.Stands.{OfEach, Stands};
ghost use Rattle.hub_machine.specs.MachineView.{MachineView, StandsFor};
ghost use Rattle.hub_machine.specs.Delivers.{codec_at};
ghost use Rattle.hub_machine.specs.Machines.{IsAtRest, IsIndexed, OfConn, Sleeps, StandsMachine, is_awake_at, idle_peer_at, peer_at};
ghost use Rattle.hub_machine.specs.Rounds.{AreNumbers};
ghost use Rattle.hub_machine.specs.Sleeping.{AreTimely, HasPassed, IsDrowsy, IsNapOf, IsUpWithCause, KeepsOthers, NoneRings, SleepOn};

use crate::idle_set::{IdleClock, IdlePeer};
use crate::machine::Machine;
use crate::peer_traffic::{is_attached, is_over};
use hd_calls::tables_agree;
use hd_server::idle_ticks;
use hj_jobs::Hub;
use hp_peer::Peer;
use std::alloc::{AllocError, Global};

impl<H: Hub> Machine<H> {
    /// A connection that sleeps wakes: what was left out is made up for.
    pub fn wake(&mut self, conn: u64)
        ensures stands { (w : List MachineEvent) → StandsMachine (meaning H.begin_of H.step_of) self.old w → StandsMachine (meaning H.begin_of H.step_of) self.new w }
        ensures stands_for { (a : MachineView) → StandsFor (meaning H.begin_of H.step_of) self.old a → StandsFor (meaning H.begin_of H.step_of) self.new a }
        ensures awake { idle_peer_at self.new conn ≡ Absent ⊎ peer_at self.new conn ≡ Absent }
        ensures others { (k : ℕ) → (conn == k) ≡ false → (peer_at self.new k ≡ peer_at self.old k) × (idle_peer_at self.new k ≡ idle_peer_at self.old k) }
        ensures there { is_some (peer_at self.new conn) ≡ is_some (peer_at self.old conn) }
        ensures codecs { (k : ℕ) → codec_at self.new k ≡ codec_at self.old k }
        ensures registry { self.new.registry ≡ self.old.registry }
        ensures absent { peer_at self.old conn ≡ Absent → self.new ≡ self.old }
        ensures clock { self.new.idle_set.clock ≡ self.old.idle_set.clock }
    {
        let Some(peer) = self.peers.get_mut(&conn) else {
            return;
        };
        let Some(idle_peer) = self.idle_set.wake(conn) else {
            return;
        };
        catch_up(peer, idle_peer, self.idle_set.clock);
    }

    /// As `wake`, at once for one that is listed as awake.
    pub(crate) fn ensure_awake(&mut self, conn: u64)
        ensures stands { (w : List MachineEvent) → StandsMachine (meaning H.begin_of H.step_of) self.old w → StandsMachine (meaning H.begin_of H.step_of) self.new w }
        ensures stands_for { (a : MachineView) → StandsFor (meaning H.begin_of H.step_of) self.old a → StandsFor (meaning H.begin_of H.step_of) self.new a }
        ensures awake { IsIndexed self.old → idle_peer_at self.new conn ≡ Absent ⊎ peer_at self.new conn ≡ Absent }
        ensures absent { peer_at self.old conn ≡ Absent → self.new ≡ self.old }
        ensures keeps { KeepsOthers self.old self.new conn }
    {
        if self.idle_set.is_awake(conn) {
            return;
        }
        self.wake(conn);
    }

    /// A connection of which nothing is due on its link falls asleep if it may, and only then: its end is open, and on no link or ticked with the
    /// others; no job is due.
    pub fn park(&mut self, conn: u64) -> Result<(), AllocError>
        ensures stands { OnOk result (OfConn (meaning H.begin_of H.step_of) self.old conn (λ w t h. due t.config (steps t h) ≡ Absent →
            StandsMachine (meaning H.begin_of H.step_of) self.new w)) }
        ensures rests { OnOk result (OfConn (meaning H.begin_of H.step_of) self.new conn (λ w t h.
            IsAtRest self.new.idle_set.clock (idle_peer_at self.new conn) t h)) }
        ensures cause { OnOk result (IsIndexed self.old → IsUpWithCause (meaning H.begin_of H.step_of) self.new conn) }
        ensures keeps { OnOk result (KeepsOthers self.old self.new conn) }
    {
        match self.idle_peer(conn) {
            Some(idle_peer) => self.idle_set.fall_asleep(conn, idle_peer),
            None => Ok(()),
        }
    }

    /// The nap that a connection may have.
    fn idle_peer(&self, conn: u64) -> Option<IdlePeer>
        ensures may { IfSome result (λ idle_peer. OfConn (meaning H.begin_of H.step_of) self.now conn (λ w t h. due t.config (steps t h) ≡ Absent →
            IsDrowsy self.now conn idle_peer t h)) }
        ensures now { IfSome result (λ idle_peer. idle_peer.rounds ≡ self.now.idle_set.clock.rounds) }
        ensures awake { IfSome result (λ idle_peer. IsIndexed self.now → idle_peer_at self.now conn ≡ Absent) }
        ensures cause { result ≡ Absent → IsIndexed self.now → IsUpWithCause (meaning H.begin_of H.step_of) self.now conn }
    {
        let peer = self.peers.get(&conn)?;
        if !self.idle_set.is_awake(conn) {
            return None;
        }
        let clock = self.idle_set.clock;
        let deadline = nap(peer, clock)?;
        Some(IdlePeer {
            deadline,
            rounds: clock.rounds,
        })
    }

    /// The connections whose alarms have come wake, and no others.
    pub fn wake_expired(&mut self, alloc: Global, now: u64) -> Result<(), AllocError>
        ensures stands { OnOk result ((w : List MachineEvent) → StandsMachine (meaning H.begin_of H.step_of) self.old w → StandsMachine (meaning H.begin_of H.step_of) self.new w) }
        ensures rung { OnOk result ((w : List MachineEvent) → StandsMachine (meaning H.begin_of H.step_of) self.old w → NoneRings self.new now) }
        ensures others { OnOk result (IsIndexed self.old → SleepOn self.old self.new now) }
    {
        let conns = self.idle_set.rung(alloc, now)?;
        for &conn in &conns {
            self.wake(conn);
        }
        Ok(())
    }

    /// The ends of those that sleep on a link tick, all at once.
    pub fn advance_clock(&mut self, now: u64)
        ensures passed { (w v : List MachineEvent) → StandsMachine (meaning H.begin_of H.step_of) self.old w → NoneRings self.old now → AreTimely now w →
            HasPassed self.old now w v → StandsMachine (meaning H.begin_of H.step_of) self.new v }
        ensures awake { (k : ℕ) → is_awake_at self.new k ≡ is_awake_at self.old k }
        ensures moment { self.new.idle_set.clock.moment ≡ now }
    {
        idle_ticks();
        self.idle_set.clock.moment = now;
    }

    /// Those that are awake, in order.
    pub fn awake(&self, alloc: Global) -> Result<Vec<u64>, AllocError>
        ensures { IfOk result (λ conns. (w : List MachineEvent) → StandsMachine (meaning H.begin_of H.step_of) self.now w → AreNumbers self.now conns.items) }
    {
        let awake = self.idle_set.awake.numbers();
        let mut conns = Vec::with_capacity(alloc, awake.len())?;
        conns.extend_from_slice(awake)?;
        Ok(conns)
    }

    /// The first past this one that is awake.
    pub(crate) fn next_awake(&self, passed: u64) -> Option<u64>
        ensures { (w : List MachineEvent) → StandsMachine (meaning H.begin_of H.step_of) self.now w → IsFirstPast passed self.now.idle_set.awake.numbers.items result }
    {
        self.idle_set.awake.next(passed)
    }
}

// ---- one peer

/// Until when a peer of which nothing is due on its link may sleep: for ever if its end is on no link. None: it may not sleep.
fn nap<H: Hub>(peer: &Peer<H>, clock: IdleClock) -> Option<Option<u64>>
    ensures { OfEach (meaning H.begin_of H.step_of) peer.now (λ t h. due t.config (steps t h) ≡ Absent → IsNapOf clock result t h) }
{
    if is_over(peer) {
        return None;
    }
    if peer.due() {
        return None;
    }
    if clock.rounds == u64::MAX && !peer.at_start() {
        return None;
    }
    if !is_attached(peer) {
        return Some(None);
    }
    let deadline = peer.end().deadline();
    if peer.end().moment() != clock.moment {
        return None;
    }
    if deadline <= clock.moment {
        return None;
    }
    Some(Some(deadline))
}

/// The peer of one that sleeps makes up for what was left out: the rounds that have begun, and ticks if its end is on a link.
fn catch_up<H: Hub>(peer: &mut Peer<H>, idle_peer: IdlePeer, clock: IdleClock)
    ensures stands { (t : Settings) (h : List PeerEvent) → Sleeps (meaning H.begin_of H.step_of) clock idle_peer t peer.old h →
        Stands (meaning H.begin_of H.step_of) t peer.new h }
    ensures codec { spoken_in peer.new.end ≡ spoken_in peer.old.end }
{
    idle_ticks();
    tables_agree();
    begin_if(peer, idle_peer.rounds != clock.rounds);
    tick_if(peer, idle_peer.deadline.is_some(), clock.moment);
}

/// A round begins at the peer, if this says so.
fn begin_if<H: Hub>(peer: &mut Peer<H>, begins: bool)
    ensures begun { OfEach (meaning H.begin_of H.step_of) peer.old (λ t h. Stands (meaning H.begin_of H.step_of) t peer.new (if begins then Rounds ∷ h else h)) }
    ensures codec { spoken_in peer.new.end ≡ spoken_in peer.old.end }
{
    if begins {
        peer.begin_round();
    }
}

/// Its end ticks, if this says so.
fn tick_if<H: Hub>(peer: &mut Peer<H>, ticks: bool, now: u64)
    ensures ticked { OfEach (meaning H.begin_of H.step_of) peer.old (λ t h. (ticks ≡ true → (of.moment (steps t h) ≤ now) × (is_silence t.config now (steps t h) ≡ false)) →
        Stands (meaning H.begin_of H.step_of) t peer.new (if ticks then Plain (Step_of (Ticked now)) ∷ h else h)) }
    ensures codec { spoken_in peer.new.end ≡ spoken_in peer.old.end }
{
    if ticks {
        let _silent = peer.tick(now);
    }
}
