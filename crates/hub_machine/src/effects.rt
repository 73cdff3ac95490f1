//! Deeds that jobs hand up: each is carried out at once, and its job is told what came of it.

ghost use Rattle.std.specs.Prelude.{◌≡◌, ◌≤◌, ◌+◌, ℕ, true, suc, map, List, ◌∷◌, Some, None, nat_eq, OnOk, OnErr, IfOk, option_copied};
ghost use Rattle.std.specs.List.{IsDistinct};
ghost use Rattle.hv_value.specs.Tree.{text};
ghost use Rattle.hv_value.specs.declared.value.Value.TheVariants as value;
ghost use Rattle.hd_calls.specs.declared.vocabulary.Deed.{Deed as DeedMeant};
ghost use Rattle.hd_calls.specs.declared.vocabulary.Deed.TheVariants as deed;
ghost use Rattle.hd_calls.specs.Peers.{Answers};
ghost use Rattle.hd_calls.specs.Rules.{MayAnswer};
ghost use Rattle.hd_server.specs.Machine.{MachineEvent, OwesDeed, is_there, owed, notice_of};
ghost use Rattle.hj_jobs.specs.Meaning.{meaning};
ghost use Rattle.hub_machine.specs.Machines.{StandsMachine};
ghost use Rattle.hub_machine.specs.MachineView.{MachineView, AreSame, AreUp, StandsFor, fates_in, moved, told};
ghost use Rattle.hub_machine.specs.Delivers.{codec_at};
ghost use Rattle.hub_machine.specs.KeeperState.{keeper_state};
ghost use Rattle.hub_machine.specs.Rounds.{IsCarried};
ghost use Rattle.hub_machine.specs.Carrying.{AnswersAt, IsCarriedAlone, IsCarriedSpelling, NoticesOf};
ghost use Rattle.hub_machine.specs.Spreads.{codecs_among};

use crate::broadcast::spread;
use crate::machine::Machine;
use hd_calls::{Deed, Input};
use he_end::Steps;
use hj_jobs::Hub;
use hk_keeper::{KeepError, Keeper};
use hm_message::{Headers, Message};
use hv_value::{Items, Text, Texts, Value};
use std::alloc::{AllocError, Global};
use std::sync::ledger::Ledger;

impl<H: Hub> Machine<H> {
    /// Carries out what a job of this connection, which is there, handed up, and tells the job what came of it. A fault of the keeper is
    /// told to the job: the error is out of memory alone.
    pub(crate) fn carry<K: Keeper, L: Ledger>(
        &mut self,
        alloc: Global,
        keeper: &mut K,
        steps: &mut Steps<L>,
        conn: u64,
        job: u64,
        deed: Deed,
    ) -> Result<(), AllocError>
        ensures carried { OnOk result ((r : List MachineEvent) (j : ℕ) → job ≡ suc j → owed r ≡ OwesDeed conn j deed → is_there conn r ≡ true →
            StandsMachine (meaning H.begin_of H.step_of) self.old r → IsCarried (meaning H.begin_of H.step_of) self.new
            (keeper_state (K.holds keeper.old) (K.answers keeper.old) (K.faults keeper.old) steps.old)
            (keeper_state (K.holds keeper.new) (K.answers keeper.new) (K.faults keeper.new) steps.new) r conn j deed) }
        ensures clock { OnOk result (self.new.idle_set.clock ≡ self.old.idle_set.clock) }
        ensures faultless { OnErr result (K.faults keeper.new ≡ K.faults keeper.old) }
    {
        match deed {
            Deed::Join(group) => self.join(alloc, conn, job, &group),
            Deed::Leave(group) => {
                self.leave(conn, job, &group);
                Ok(())
            }
            Deed::Post {
                group,
                target,
                arguments,
            } => self.post(alloc, steps, conn, job, &group, target, arguments),
            Deed::Tell {
                user,
                target,
                arguments,
            } => self.tell(alloc, steps, conn, job, &user, target, arguments),
            Deed::Log { room, text } => self.log(alloc, keeper, conn, job, &room, &text),
            Deed::History { room, most } => self.history(alloc, keeper, conn, job, &room, most),
        }
    }

    /// The connection joins a group, if it may.
    fn join(&mut self, alloc: Global, conn: u64, job: u64, group: &Text) -> Result<(), AllocError>
        ensures carried { OnOk result ((r : List MachineEvent) (j : ℕ) → job ≡ suc j → owed r ≡ OwesDeed conn j (deed.Join group.now) → is_there conn r ≡ true →
            StandsMachine (meaning H.begin_of H.step_of) self.old r → IsCarriedAlone (meaning H.begin_of H.step_of) self.new r conn j (deed.Join group.now)) }
        ensures clock { OnOk result (self.new.idle_set.clock ≡ self.old.idle_set.clock) }
    {
        let may = self.registry.join(alloc, group, conn)?;
        if !may {
            self.answer(conn, job, Input::Failed);
            return Ok(());
        }
        self.answer(conn, job, Input::Done(Value::Null));
        Ok(())
    }

    /// It leaves one.
    fn leave(&mut self, conn: u64, job: u64, group: &Text)
        ensures carried { (r : List MachineEvent) (j : ℕ) → job ≡ suc j → owed r ≡ OwesDeed conn j (deed.Leave group.now) → is_there conn r ≡ true →
            StandsMachine (meaning H.begin_of H.step_of) self.old r → IsCarriedAlone (meaning H.begin_of H.step_of) self.new r conn j (deed.Leave group.now) }
        ensures clock { self.new.idle_set.clock ≡ self.old.idle_set.clock }
    {
        let _was_there = self.registry.remove(group, conn);
        self.answer(conn, job, Input::Done(Value::Null));
    }

    /// Each member of a group is notified.
    fn post<L: Ledger>(
        &mut self,
        alloc: Global,
        steps: &mut Steps<L>,
        conn: u64,
        job: u64,
        group: &Text,
        target: Text,
        arguments: Items,
    ) -> Result<(), AllocError>
        ensures carried { OnOk result ((r : List MachineEvent) (j : ℕ) → job ≡ suc j → owed r ≡ OwesDeed conn j (deed.Post group.now target arguments) →
            is_there conn r ≡ true → StandsMachine (meaning H.begin_of H.step_of) self.old r →
            IsCarriedSpelling (meaning H.begin_of H.step_of) self.new steps.old steps.new r conn j (deed.Post group.now target arguments)) }
        ensures clock { OnOk result (self.new.idle_set.clock ≡ self.old.idle_set.clock) }
    {
        let to = self.registry.members(alloc, group)?;
        self.notify(alloc, steps, &to, target, arguments)?;
        self.answer(conn, job, Input::Done(Value::Null));
        Ok(())
    }

    /// Each connection of a user is notified.
    fn tell<L: Ledger>(
        &mut self,
        alloc: Global,
        steps: &mut Steps<L>,
        conn: u64,
        job: u64,
        user: &Text,
        target: Text,
        arguments: Items,
    ) -> Result<(), AllocError>
        ensures carried { OnOk result ((r : List MachineEvent) (j : ℕ) → job ≡ suc j → owed r ≡ OwesDeed conn j (deed.Tell user.now target arguments) →
            is_there conn r ≡ true → StandsMachine (meaning H.begin_of H.step_of) self.old r →
            IsCarriedSpelling (meaning H.begin_of H.step_of) self.new steps.old steps.new r conn j (deed.Tell user.now target arguments)) }
        ensures clock { OnOk result (self.new.idle_set.clock ≡ self.old.idle_set.clock) }
    {
        let to = self.registry.of_user(alloc, user)?;
        self.notify(alloc, steps, &to, target, arguments)?;
        self.answer(conn, job, Input::Done(Value::Null));
        Ok(())
    }

    /// A line is logged in a room, in the name of the connection.
    fn log<K: Keeper>(
        &mut self,
        alloc: Global,
        keeper: &mut K,
        conn: u64,
        job: u64,
        room: &Text,
        text: &Text,
    ) -> Result<(), AllocError>
        ensures carried { OnOk result ((r : List MachineEvent) (j : ℕ) → job ≡ suc j → owed r ≡ OwesDeed conn j (deed.Log room.now text.now) → is_there conn r ≡ true →
            StandsMachine (meaning H.begin_of H.step_of) self.old r → (spelled : ℕ) →
            IsCarried (meaning H.begin_of H.step_of) self.new
            (keeper_state (K.holds keeper.old) (K.answers keeper.old) (K.faults keeper.old) spelled)
            (keeper_state (K.holds keeper.new) (K.answers keeper.new) (K.faults keeper.new) spelled) r conn j (deed.Log room.now text.now)) }
        ensures clock { OnOk result (self.new.idle_set.clock ≡ self.old.idle_set.clock) }
        ensures faultless { OnErr result (K.faults keeper.new ≡ K.faults keeper.old) }
    {
        let Some(peer) = self.peers.get(&conn) else {
            return Ok(());
        };
        match keeper.log(alloc, room, peer.who(), text) {
            Ok(()) => {
                self.answer(conn, job, Input::Done(Value::Null));
                Ok(())
            }
            Err(KeepError::Failed) => {
                self.answer(conn, job, Input::Failed);
                Ok(())
            }
            Err(KeepError::NoMemory) => Err(AllocError),
        }
    }

    /// The last rows of a room are asked for.
    fn history<K: Keeper>(
        &mut self,
        alloc: Global,
        keeper: &mut K,
        conn: u64,
        job: u64,
        room: &Text,
        most: u32,
    ) -> Result<(), AllocError>
        ensures carried { OnOk result ((r : List MachineEvent) (j : ℕ) → job ≡ suc j → owed r ≡ OwesDeed conn j (deed.History room.now most) → is_there conn r ≡ true →
            StandsMachine (meaning H.begin_of H.step_of) self.old r → (spelled : ℕ) →
            IsCarried (meaning H.begin_of H.step_of) self.new
            (keeper_state (K.holds keeper.old) (K.answers keeper.old) (K.faults keeper.old) spelled)
            (keeper_state (K.holds keeper.new) (K.answers keeper.new) (K.faults keeper.new) spelled) r conn j (deed.History room.now most)) }
        ensures clock { OnOk result (self.new.idle_set.clock ≡ self.old.idle_set.clock) }
        ensures faultless { OnErr result (K.faults keeper.new ≡ K.faults keeper.old) }
    {
        match keeper.history(alloc, room, most) {
            Ok(texts) => {
                let rows = rows_of(alloc, &texts)?;
                self.answer(conn, job, Input::Done(rows));
                Ok(())
            }
            Err(KeepError::Failed) => {
                self.answer(conn, job, Input::Failed);
                Ok(())
            }
            Err(KeepError::NoMemory) => Err(AllocError),
        }
    }

    /// Tells a job what came of its deed.
    fn answer(&mut self, conn: u64, job: u64, input: Input)
        ensures answered { (a : MachineView) (j : ℕ) → job ≡ suc j → AnswersAt (a.settings conn) j input (a.moves conn) →
            StandsFor (meaning H.begin_of H.step_of) self.old a → StandsFor (meaning H.begin_of H.step_of) self.new (moved conn (Answers j input) a) }
        ensures clock { self.new.idle_set.clock ≡ self.old.idle_set.clock }
    {
        self.wake(conn);
        if let Some(peer) = self.peers.get_mut(&conn) {
            let _ = peer.answer(job, input);
        }
    }

    /// Tells each of these connections, once and in order. One that has no room for it is closed as too slow. What nests too deep is told to
    /// nobody.
    fn notify<L: Ledger>(
        &mut self,
        alloc: Global,
        steps: &mut Steps<L>,
        to: &[u64],
        target: Text,
        arguments: Items,
    ) -> Result<(), AllocError>
        requires once { IsDistinct nat_eq to.now }
        ensures told { OnOk result ((a : MachineView) (d : DeedMeant) → NoticesOf d target arguments → AreUp a to.now →
            StandsFor (meaning H.begin_of H.step_of) self.old a → (b : MachineView) × AreSame (told d (fates_in a to.now target arguments) a) b × StandsFor (meaning H.begin_of H.step_of) self.new b) }
        ensures clock { OnOk result (self.new.idle_set.clock ≡ self.old.idle_set.clock) }
        ensures cost { steps.new ≤ steps.old + codecs_among (codec_at self.old) to.now }
    {
        hd_server::fates_are_refusals();
        let message = Message::Invocation {
            headers: Headers::none(alloc),
            id: None,
            target,
            arguments,
            streams: Texts::of(Vec::new(alloc)),
        };
        if !message.fits() {
            return Ok(());
        }
        spread(alloc, to, &message, self, steps)
    }
}

/// The texts as a value.
fn rows_of(alloc: Global, texts: &Texts) -> Result<Value, AllocError>
    ensures { IfOk result (λ rows. rows ≡ value.List (map text texts.now)) }
{
    let mut values = Vec::new(alloc);
    for text in texts.texts() {
        values.push(Value::Text(text.copy()?))?;
    }
    Ok(Value::List(Items::of(values).unwrap()))
}
