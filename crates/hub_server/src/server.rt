//! A server of hubs: what it hears event by event, and what it says.

ghost use Rattle.std.specs.Prelude.{◌≡◌, ◌<◌, ◌∷◌, ℕ, List, [], true, is_err, IfOk, OnOk, OnErr};
ghost use Rattle.hw_lanes.specs.Replies.{IsReply};
ghost use Rattle.hd_server.specs.Doings.{Hears, Sees, ServerEvent, has_peer, has_closed, history, may_resume, is_up, moment, name_now, notes, work};
ghost use Rattle.hd_server.specs.Plans.{Setup};
ghost use Rattle.hd_server.specs.Serves.{IsTurn, MayBeHeard};
ghost use Rattle.hd_server.specs.Serving.{is_idle};
ghost use Rattle.hj_jobs.specs.Meaning.{meaning};
ghost use Rattle.hub_server.specs.Lanes.{lane_of, settled};
ghost use Rattle.hub_server.specs.Words.{AreReplies};
ghost use Rattle.hub_server.specs.Servers.{IsRested, IsSetup, OfEach, Standing};
ghost use Rattle.hd_server.specs.declared.vocabulary.Said.{Said as SaidMeant};
ghost use Rattle.hub_server.specs.Steps.{HasTurn, IsRounded, StandsServer, TurnsTo, outside, lost_in};

use crate::lane::Lane;
use crate::resend::ResendLimits;
use crate::words::Words;
use hd_server::{LiveLimit, Said};
use he_end::Steps;
use hj_jobs::Hub;
use hk_keeper::Keeper;
use hn_server_front::Front;
use hub_machine::Machine;
use hv_value::Text;
use hw_door::{Event, Heard, Lots};
use std::alloc::{AllocError, Global};
use std::collections::BTreeMap;
use std::marker::Brand;
use std::sync::ledger::{Blank, Ledger};

/// A server of hubs at a base, such as `/hub`, whose ends hold so much, and of whose connections so many may live: its connections with their tokens, their peers and their groups. Moments are in milliseconds.
#[derive(Drop)]
pub struct Server<H: Hub> {
    pub(crate) base: Text,
    pub(crate) resend: ResendLimits,
    pub(crate) machine: Machine<H>,
    pub(crate) front: Front,
    /// Whose connections those are that have no peer yet.
    pub(crate) callers: BTreeMap<u64, Text>,
    /// The lanes on which connections are.
    pub(crate) lanes: BTreeMap<u64, Lane>,
    /// The moment of the event that was heard last.
    pub(crate) moment: u64,
    /// What is said at this event.
    pub(crate) words: Words,
    /// Memory ran out in the middle of an event.
    pub(crate) is_ended: bool,
}

impl<H: Hub> Server<H> {
    /// A server without connections.
    pub fn start(
        alloc: Global,
        base: Text,
        resend: ResendLimits,
        live: LiveLimit,
    ) -> Result<Server<H>, AllocError>
        ensures { IfOk result (λ server. (s : Setup) → IsSetup s base resend live → StandsServer (meaning H.begin_of H.step_of) s server []) }
    {
        Ok(Server {
            base,
            resend,
            machine: Machine::start(alloc)?,
            front: Front::start(alloc, live)?,
            callers: BTreeMap::new(alloc),
            lanes: BTreeMap::new(alloc),
            moment: 0,
            words: Words::new(alloc),
            is_ended: false,
        })
    }

    /// What the server does at an event, and what it says there: its replies, the bytes for WebSockets, and the lanes that are to end.
    /// Moments never fall from one event to the next, and a request comes only on a lane that is no WebSocket and waits for no reply.
    ///
    /// A fault of the keeper or the lots ends nothing: the request is answered with 500, the job is told. Out of memory the server is
    /// ended, and every further call is answered so too; the keeper may have been asked meanwhile.
    pub fn step<K: Keeper, L: Lots>(
        &mut self,
        alloc: Global,
        heard: Heard,
        hub: &H,
        keeper: &mut K,
        lots: &mut L,
    ) -> Result<Vec<Said>, AllocError>
        ensures turn { IfOk result (λ words. (s : Setup) (h : List ServerEvent) → StandsServer (meaning H.begin_of H.step_of) s self.old h → MayBeHeard heard h →
            HasTurn (meaning H.begin_of H.step_of) s self.new
            (outside (K.holds keeper.old) (K.answers keeper.old) (K.faults keeper.old) (L.drawn lots.old) (L.faults lots.old))
            (outside (K.holds keeper.new) (K.answers keeper.new) (K.faults keeper.new) (L.drawn lots.new) (L.faults lots.new))
            heard h words.items) }
        ensures replies { IfOk result (λ words. AreReplies words.items) }
        ensures ended { OnErr result (self.new.is_ended ≡ true) }
        ensures stays { self.old.is_ended ≡ true → (is_err result ≡ true) × (self.new.is_ended ≡ true) }
    {
        if self.is_ended {
            return Err(AllocError);
        }
        self.words = Words::new(alloc);
        match self.turn(alloc, heard, hub, keeper, lots) {
            Ok(()) => {
                self.is_ended = false;
                Ok(self.words.take(alloc))
            }
            Err(e) => {
                self.is_ended = true;
                Err(e)
            }
        }
    }

    /// Whether a round that begins now would give no job a turn.
    pub fn idle(&self) -> bool
        ensures { (s : Setup) (h : List ServerEvent) → StandsServer (meaning H.begin_of H.step_of) s self.now h → result ≡ is_idle h }
    {
        self.machine.idle()
    }

    /// The event is heard and handled, each end on a link ticks, the jobs have their turns, and what is due is said.
    fn turn<K: Keeper, L: Lots>(
        &mut self,
        alloc: Global,
        heard: Heard,
        hub: &H,
        keeper: &mut K,
        lots: &mut L,
    ) -> Result<(), AllocError>
        ensures turn { OnOk result ((s : Setup) (before : List SaidMeant) (h : List ServerEvent) → Standing (meaning H.begin_of H.step_of) s settled before self.old h → ((c : ℕ) → IsRested c h) → MayBeHeard heard h →
            TurnsTo (meaning H.begin_of H.step_of) s before self.new
            (outside (K.holds keeper.old) (K.answers keeper.old) (K.faults keeper.old) (L.drawn lots.old) (L.faults lots.old))
            (outside (K.holds keeper.new) (K.answers keeper.new) (K.faults keeper.new) (L.drawn lots.new) (L.faults lots.new))
            heard h) }
    {
        hd_rooms::answers_join();
        hd_server::parts_of_turns();
        let Heard { now, event } = heard;
        self.hear(now, &event);
        self.expire();
        self.handle(alloc, event, hub, keeper, lots)?;
        self.tick_all(alloc)?;
        self.round::<K, Brand>(alloc, hub, keeper, Blank::new(1))?;
        self.flush_all(alloc)?;
        Ok(())
    }

    /// Notes that the door took a message for this lane, and answered whether the lane is full now. On a lane that is full nothing more is said of a
    /// connection that is open, until it has drained.
    pub fn note_sent(&mut self, lane: u64, full: bool)
        ensures sees { (s : Setup) (h : List ServerEvent) → StandsServer (meaning H.begin_of H.step_of) s self.old h → StandsServer (meaning H.begin_of H.step_of) s self.new (Sees lane full ∷ h) }
        ensures ended { self.new.is_ended ≡ self.old.is_ended }
    {
        if let Some(kept) = self.lanes.get_mut(&lane) {
            kept.is_full = full;
        }
    }

    /// The event is heard: of lanes that have connections, what the door did with them is noted.
    fn hear(&mut self, now: u64, event: &Event)
        ensures { OfEach (meaning H.begin_of H.step_of) self.old (λ s u before h. u ≡ settled → MayBeHeard (record { now = now; event = event.now }) h →
            Standing (meaning H.begin_of H.step_of) s (lane_of (lost_in event.now)) before self.new (Hears now event.now ∷ h)) }
    {
        self.moment = now;
        match event {
            Event::Refused { lane, refusal: _ } => {
                if let Some(kept) = self.lanes.get_mut(lane) {
                    kept.is_refused = true;
                }
            }
            Event::Drained { lane } => {
                if let Some(kept) = self.lanes.get_mut(lane) {
                    kept.is_full = false;
                }
            }
            _ => {}
        }
    }

    /// Each job that is due has one turn.
    fn round<K: Keeper, L: Ledger>(
        &mut self,
        alloc: Global,
        hub: &H,
        keeper: &mut K,
        blank: Blank,
    ) -> Result<(), AllocError>
        requires name { blank.name ≡ L.name }
        requires parts { blank.parts ≡ L.parts }
        requires some { 0 < L.parts }
        ensures rounded { OnOk result (OfEach (meaning H.begin_of H.step_of) self.old (λ s u before h.
            IsRounded (meaning H.begin_of H.step_of) s u before self.new
            (K.holds keeper.old) (K.answers keeper.old) (K.faults keeper.old) (K.holds keeper.new) (K.answers keeper.new) (K.faults keeper.new) h)) }
        ensures clock { OnOk result (self.new.machine.idle_set.clock.moment ≡ self.old.machine.idle_set.clock.moment) }
    {
        let mut steps = Steps::<L>::start(blank);
        self.machine
            .round(alloc, hub, keeper, &mut steps, self.moment)
    }
}
