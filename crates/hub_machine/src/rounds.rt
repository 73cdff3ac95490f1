//! Rounds: each job that is due has one turn, connection by connection in the order of their numbers, and what a job hands up is carried out
//! before the next turn.

ghost use Rattle.std.specs.Prelude.{◌≡◌, ◌==◌, ◌<◌, ℕ, false, List, ◌∷◌, Some, None, IfOk, OnOk, is_some, not};
ghost use Rattle.std.specs.BTreeMap.{btree_map_len};
ghost use Rattle.hd_server.specs.Machine.{first_turn, MachineEvent, Rounds};
ghost use Rattle.hj_jobs.specs.Meaning.{meaning};
ghost use Rattle.hub_machine.specs.Machines.{StandsMachine, idle_peer_at, peer_at};
ghost use Rattle.hub_machine.specs.KeeperState.{keeper_state};
ghost use Rattle.hub_machine.specs.Rounds.{AreNumbers, HasBegun, HasRound, HasTurned, InRound, IsCountOfJobs, Steps as StepsTo, has_turn};

use crate::machine::Machine;
use crate::peer_traffic::is_over;
use hd_calls::Deed;
use hd_server::turns_are_tested;
use he_end::Steps;
use hj_jobs::Hub;
use hk_keeper::Keeper;
use std::alloc::{AllocError, Global};
use std::sync::ledger::Ledger;

impl<H: Hub> Machine<H> {
    /// A round: each job that is due has one turn, connection by connection in the order of their numbers, and what it hands up is carried out
    /// before the next. A message to many is spelled in `steps`, once for each codec among its members.
    ///
    /// A fault of the keeper is what its job is told. Out of memory the round is halfway, and nothing more is said of the machine.
    pub fn round<K: Keeper, L: Ledger>(
        &mut self,
        alloc: Global,
        hub: &H,
        keeper: &mut K,
        steps: &mut Steps<L>,
        now: u64,
    ) -> Result<(), AllocError>
        ensures turned { OnOk result ((w : List MachineEvent) → StandsMachine (meaning H.begin_of H.step_of) self.old w → HasRound (meaning H.begin_of H.step_of) self.new
            (keeper_state (K.holds keeper.old) (K.answers keeper.old) (K.faults keeper.old) steps.old)
            (keeper_state (K.holds keeper.new) (K.answers keeper.new) (K.faults keeper.new) steps.new) now w) }
        ensures moment { OnOk result (self.new.idle_set.clock.moment ≡ self.old.idle_set.clock.moment) }
    {
        hd_rooms::answers_join();
        turns_are_tested();
        let conns = self.awake(alloc)?;
        self.begin_rounds(&conns);
        let mut passed = 0;
        // The next one comes after the last, so the loop ends.
        while let Some(conn) = self.next_awake(passed)
            && passed < conn
        {
            self.turns(alloc, hub, keeper, steps, conn, now)?;
            passed = conn;
        }
        Ok(())
    }

    /// Whether a round that begins now would give no job a turn.
    pub fn idle(&self) -> bool
        ensures { (w : List MachineEvent) (now : ℕ) → StandsMachine (meaning H.begin_of H.step_of) self.now w → result ≡ not (is_some (first_turn now w)) }
    {
        turns_are_tested();
        for &conn in self.idle_set.awake.numbers() {
            if self.is_due(conn) {
                return false;
            }
        }
        true
    }

    /// Whether a round that begins now would give a job of this connection a turn.
    fn is_due(&self, conn: u64) -> bool
        ensures there { (w : List MachineEvent) (now : ℕ) → StandsMachine (meaning H.begin_of H.step_of) self.now w → idle_peer_at self.now conn ≡ None →
            result ≡ has_turn conn (Rounds now ∷ w) }
    {
        turns_are_tested();
        match self.peers.get(&conn) {
            Some(peer) => peer.due(),
            None => false,
        }
    }

    /// A round begins at each of these, which are all that are awake. At the others no job has a turn in it.
    fn begin_rounds(&mut self, conns: &[u64])
        ensures begun { (w : List MachineEvent) (now : ℕ) → AreNumbers self.old conns.now → StandsMachine (meaning H.begin_of H.step_of) self.old w →
            StandsMachine (meaning H.begin_of H.step_of) self.new (Rounds now ∷ w) }
        ensures moment { self.new.idle_set.clock.moment ≡ self.old.idle_set.clock.moment }
    {
        for &conn in conns {
            self.begin_round_at(conn);
        }
        self.idle_set.begin_round();
    }

    /// A round begins at the connection, if it is there.
    fn begin_round_at(&mut self, conn: u64)
        ensures begun { HasBegun (meaning H.begin_of H.step_of) (peer_at self.old conn) (peer_at self.new conn) }
        ensures others { (k : ℕ) → (conn == k) ≡ false → peer_at self.new k ≡ peer_at self.old k }
        ensures registry { self.new.registry ≡ self.old.registry }
        ensures idle_set { self.new.idle_set ≡ self.old.idle_set }
        ensures count { btree_map_len self.new.peers ≡ btree_map_len self.old.peers }
    {
        if let Some(peer) = self.peers.get_mut(&conn) {
            peer.begin_round();
        }
    }

    /// The turns of one connection's jobs.
    fn turns<K: Keeper, L: Ledger>(
        &mut self,
        alloc: Global,
        hub: &H,
        keeper: &mut K,
        steps: &mut Steps<L>,
        conn: u64,
        now: u64,
    ) -> Result<(), AllocError>
        ensures turned { OnOk result ((w r : List MachineEvent) → StandsMachine (meaning H.begin_of H.step_of) self.old r → InRound now w r conn →
            HasTurned (meaning H.begin_of H.step_of) self.new
            (keeper_state (K.holds keeper.old) (K.answers keeper.old) (K.faults keeper.old) steps.old)
            (keeper_state (K.holds keeper.new) (K.answers keeper.new) (K.faults keeper.new) steps.new) now w r conn) }
        ensures clock { OnOk result (self.new.idle_set.clock ≡ self.old.idle_set.clock) }
    {
        // Each deed takes the round past one job more, so after as many deeds as there are jobs none is left.
        hd_rooms::answers_join();
        let jobs = self.jobs(conn);
        for _deed in 0..jobs {
            let Some((job, deed)) = self.step_job(alloc, hub, conn, now)? else {
                return Ok(());
            };
            self.carry(alloc, keeper, steps, conn, job, deed)?;
        }
        Ok(())
    }

    /// How many calls have begun a job at this connection.
    fn jobs(&self, conn: u64) -> u64
        ensures { (r : List MachineEvent) → StandsMachine (meaning H.begin_of H.step_of) self.now r → IsCountOfJobs conn r result }
    {
        match self.peers.get(&conn) {
            Some(peer) => peer.begun(),
            None => 0,
        }
    }

    /// Jobs of a connection have turns, until one hands up a deed, which is told with the job's number.
    fn step_job(
        &mut self,
        alloc: Global,
        hub: &H,
        conn: u64,
        now: u64,
    ) -> Result<Option<(u64, Deed)>, AllocError>
        ensures stepped { IfOk result (λ found. (w r : List MachineEvent) → StandsMachine (meaning H.begin_of H.step_of) self.old r → InRound now w r conn →
            StepsTo (meaning H.begin_of H.step_of) self.new now w r conn found) }
        ensures clock { OnOk result (self.new.idle_set.clock ≡ self.old.idle_set.clock) }
    {
        turns_are_tested();
        self.ensure_awake(conn);
        let Some(peer) = self.peers.get_mut(&conn) else {
            return Ok(None);
        };
        let found = peer.step_job(alloc, hub, now)?;
        let over = is_over(peer);
        self.close_out_if(conn, over);
        Ok(found)
    }
}
