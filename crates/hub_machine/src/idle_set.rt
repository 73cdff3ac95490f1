//! Which connections of a machine sleep. One sleeps while nothing can happen at it but that time passes: no job of it is due, nothing is due on
//! its link, and no tick does more than pass before its alarm. An event leaves those that sleep alone, however many they are.

ghost use Rattle.std.specs.Prelude.{◌≡◌, ◌≤◌, ◌==◌, ℕ, true, false, Some, None, OnOk, IfOk, is_some, if◌then◌else◌};
ghost use Rattle.std.specs.Vec.{vec_capacity};
ghost use Rattle.hv_value.specs.SortedSet.{HasPlace};
ghost use Rattle.hub_machine.specs.IdleSet.{AreRung, Changes, IsKept, after_round, is_awake_in, is_set_in, idle_peer_of};

use hv_value::SortedSet;
use std::alloc::{AllocError, Global};
use std::collections::{BTreeMap, BTreeSet};

/// That a connection sleeps.
#[derive(Clone, Copy, Debug, PartialEq, Eq)]
pub struct IdlePeer {
    /// Before this moment, in milliseconds, no tick does more than pass. None: its end is on no link, so that no tick comes.
    pub(crate) deadline: Option<u64>,
    /// How many rounds had begun when it fell asleep.
    pub(crate) rounds: u64,
}

/// How far those that sleep have come, at all of which the same happens.
#[derive(Clone, Copy, Debug, PartialEq, Eq)]
pub struct IdleClock {
    /// The moment to which those on a link have ticked.
    pub(crate) moment: u64,
    /// How many rounds have begun, as far as 64 bits count.
    pub(crate) rounds: u64,
}

/// A moment at which a connection is to wake. They are ordered by the moments, and at one moment by the numbers.
#[derive(Clone, Copy, Debug, PartialEq, Eq, PartialOrd, Ord)]
pub struct Deadline {
    pub(crate) moment: u64,
    pub(crate) conn: u64,
}

/// Which connections sleep, and which are awake. Room for all of them to be awake is taken beforehand, so that one can wake without more
/// memory.
#[derive(Drop)]
pub struct IdleSet {
    pub(crate) awake: SortedSet,
    pub(crate) idle_peers: BTreeMap<u64, IdlePeer>,
    pub(crate) deadlines: BTreeSet<Deadline>,
    pub(crate) clock: IdleClock,
}

impl IdleSet {
    /// No connections.
    pub(crate) fn start(alloc: Global) -> IdleSet
        ensures unchanged { IsKept result }
        ensures awake { (k : ℕ) → is_awake_in result k ≡ false }
        ensures idle_peers { (k : ℕ) → idle_peer_of result k ≡ None }
        ensures rounds { result.clock.rounds ≡ 0 }
    {
        IdleSet {
            awake: SortedSet::start(alloc),
            idle_peers: BTreeMap::new(alloc),
            deadlines: BTreeSet::new(alloc),
            clock: IdleClock {
                moment: 0,
                rounds: 0,
            },
        }
    }

    /// Takes room for this many connections in all.
    pub(crate) fn reserve(&mut self, count: usize) -> Result<(), AllocError>
        ensures room { OnOk result (count ≤ vec_capacity self.new.awake.numbers) }
        ensures same { (self.new.awake.numbers.items ≡ self.old.awake.numbers.items) × (self.new.idle_peers ≡ self.old.idle_peers)
            × (self.new.deadlines ≡ self.old.deadlines) × (self.new.clock ≡ self.old.clock) }
        ensures capacity { vec_capacity self.old.awake.numbers ≤ vec_capacity self.new.awake.numbers }
    {
        self.awake.reserve(count)
    }

    /// A connection is there, and awake.
    pub(crate) fn add(&mut self, conn: u64)
        ensures { IsKept self.old → HasPlace self.old.awake conn → idle_peer_of self.old conn ≡ None → Changes self.old self.new conn None true }
    {
        self.awake.add(conn);
    }

    /// Whether a connection is listed as awake.
    pub(crate) fn is_awake(&self, conn: u64) -> bool
        ensures { IsKept self.now → result ≡ is_awake_in self.now conn }
    {
        self.awake.numbers().binary_search(&conn).is_ok()
    }

    /// A connection is there no more.
    pub(crate) fn forget(&mut self, conn: u64)
        ensures kept { IsKept self.old → Changes self.old self.new conn None false }
        ensures idle_peers { (k : ℕ) → idle_peer_of self.new k ≡ (if conn == k then None else idle_peer_of self.old k) }
        ensures clock { self.new.clock ≡ self.old.clock }
    {
        self.awake.remove(conn);
        if let Some(idle_peer) = self.idle_peers.remove(&conn) {
            self.unset(conn, idle_peer);
        }
    }

    /// Its alarm is set no more, if it has one.
    fn unset(&mut self, conn: u64, idle_peer: IdlePeer)
        ensures own { (moment : ℕ) → (is_set_in self.old moment conn ≡ true → idle_peer.deadline ≡ Some moment) → is_set_in self.new moment conn ≡ false }
        ensures same { (self.new.awake ≡ self.old.awake) × (self.new.idle_peers ≡ self.old.idle_peers) × (self.new.clock ≡ self.old.clock) }
        ensures others { (k : ℕ) (moment : ℕ) → (conn == k) ≡ false → is_set_in self.new moment k ≡ is_set_in self.old moment k }
    {
        if let Some(moment) = idle_peer.deadline {
            self.deadlines.remove(&Deadline { moment, conn });
        }
    }

    /// A connection that sleeps wakes: its nap. None: it doesn't sleep.
    pub(crate) fn wake(&mut self, conn: u64) -> Option<IdlePeer>
        ensures idle_peer { result ≡ idle_peer_of self.old conn }
        ensures wakes { is_some result ≡ true → IsKept self.old → HasPlace self.old.awake conn → Changes self.old self.new conn None true }
        ensures idle_peers { is_some result ≡ true → (k : ℕ) → idle_peer_of self.new k ≡ (if conn == k then None else idle_peer_of self.old k) }
        ensures clock { self.new.clock ≡ self.old.clock }
        ensures none { result ≡ None → self.new ≡ self.old }
    {
        let idle_peer = self.idle_peers.get(&conn).copied()?;
        self.idle_peers.remove(&conn);
        self.unset(conn, idle_peer);
        self.awake.add(conn);
        Some(idle_peer)
    }

    /// A connection that is awake falls asleep.
    pub(crate) fn fall_asleep(&mut self, conn: u64, idle_peer: IdlePeer) -> Result<(), AllocError>
        ensures sleeps { OnOk result (IsKept self.old → idle_peer_of self.old conn ≡ None → Changes self.old self.new conn (Some idle_peer) false) }
        ensures idle_peers { OnOk result ((k : ℕ) → idle_peer_of self.new k ≡ (if conn == k then Some idle_peer else idle_peer_of self.old k)) }
        ensures clock { OnOk result (self.new.clock ≡ self.old.clock) }
    {
        if let Some(moment) = idle_peer.deadline {
            self.deadlines.insert(Deadline { moment, conn })?;
        }
        self.idle_peers.insert(conn, idle_peer)?;
        self.awake.remove(conn);
        Ok(())
    }

    /// A round begins.
    pub(crate) fn begin_round(&mut self)
        ensures { self.new ≡ record self.old { clock = after_round self.old.clock } }
    {
        if self.clock.rounds < u64::MAX {
            self.clock.rounds += 1;
        }
    }

    /// Those whose alarms have come.
    pub(crate) fn rung(&self, alloc: Global, now: u64) -> Result<Vec<u64>, AllocError>
        ensures { IfOk result (λ conns. AreRung self.now now conns.items) }
    {
        let mut conns = Vec::new(alloc);
        for deadline in self.deadlines.iter() {
            if deadline.moment > now {
                return Ok(conns);
            }
            conns.push(deadline.conn)?;
        }
        Ok(conns)
    }
}
