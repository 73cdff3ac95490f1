//! One peer of a replay: what it does on the link where it stands, with the lines that are reported of that. It doesn't know scripts, nor
//! the other peer.

ghost use Rattle.std.specs.Prelude.{◌≡◌, ◌<◌, ◌≤◌, ◌↔◌, ℕ, IsTrue, false, nat_lt, List, [], ◌∷◌, ◌++◌, Some, None, IfOk, OnOk, codes, length, drop, take};
ghost use Rattle.hs_shake.specs.Requests.{IsVersion};
ghost use Rattle.hd_delivery.specs.Histories as of;
ghost use Rattle.hd_delivery.specs.Histories.{present_link, was_on};
ghost use Rattle.hd_delivery.specs.Processes.{processes};
ghost use Rattle.hd_delivery.specs.Bytes.{Wire, ByteStep, bytes_on};
ghost use Rattle.hd_delivery.specs.Following.{FollowUpTo};
ghost use Rattle.hd_delivery.specs.Alone.{writing, lent_text};
ghost use Rattle.he_wire.specs.Wires.{IsHouseWire};
ghost use Rattle.hd_calls.specs.Numbers.{most_uploads};
ghost use Rattle.hd_calls.specs.Peers.{PeerEvent, byte_steps, steps};
ghost use Rattle.hd_calls.specs.Rules.{IsPeerDue};
ghost use Rattle.hj_jobs.specs.Meaning.{meaning};
ghost use Rattle.hub_calc.specs.Laws.{HandsUpNothing};
ghost use Rattle.hp_peer.specs.declared.errors.AskError.TheVariants as ask;
ghost use Rattle.hp_peer.specs.Calling.{upload_end, upload_item};
ghost use Rattle.hp_peer.specs.Stands.{settings};
ghost use Rattle.sr_peers.specs.Doings.{Asks, Cancelling, Doing, IsRound, IsTried, Losing, ReadsTo, Reading, Sends, Taking, WholeChain, WithLosses, attaching, closing, leaving, lifted, ticking};
ghost use Rattle.sr_notation.specs.Words.{line_at};
ghost use Rattle.sr_lines.specs.Lines.{ask_words};
ghost use Rattle.sr_peers.specs.Works.{moves_bytes};
ghost use Rattle.sr_peers.specs.Plays.{Feeds, Goes, HasDone, OfEach, Plays, TakesOne, WritesOne};

use crate::laws::losses_are_few;
use hd_calls::CallKind;
use hd_delivery::{
    Got, Reason, Side, facts_hold, fed_is_unseen, taken_has_room, takes_few, writes_few,
};
use he_end::{Config, End};
use he_wire::wire_is_sound;
use hj_jobs::Hub;
use hp_peer::{AskError, Did, Peer, PeerError, peers_keep_their_calls};
use hv_value::{Items, Text, Value};
use sr_lines::{
    Asked, asks_are_told, faults_are_told, push_asked, push_called, push_did, push_gone,
    push_peer_fault, push_refused_ask, push_refused_attach, push_silent,
};
use std::alloc::{AllocError, Global};

/// A peer, and the link on which it stands.
#[derive(Drop)]
pub struct Party<H: Hub> {
    peer: Peer<H>,
    side: Side,
    // the script's number of the link
    link: Option<u64>,
}

impl<H: Hub> Party<H> {
    /// A peer before its first link. `who` is the name under which its hub knows the other side.
    pub fn start(
        alloc: Global,
        side: Side,
        config: Config,
        who: Text,
    ) -> Result<Party<H>, AllocError>
        requires { IsVersion config.version }
        ensures { IfOk result (λ p. (wire : Wire) → IsHouseWire config.limits.frame wire →
            Plays (meaning H.begin_of H.step_of) (settings side config wire who) p []) }
    {
        let peer = Peer::start(alloc, side, config, who)?;
        Ok(Party {
            peer,
            side,
            link: None,
        })
    }

    // ---- what it is

    /// The link on which it stands.
    pub fn link(&self) -> Option<u64>
        ensures { OfEach (meaning H.begin_of H.step_of) self.now (λ t h. result ≡ present_link (steps t h)) }
    {
        self.link
    }

    /// Its end.
    pub fn end(&self) -> &End
        ensures { result.now ≡ self.now.peer.end }
    {
        self.peer.end()
    }

    /// The peer.
    pub fn peer(&self) -> &Peer<H>
        ensures { result.now ≡ self.now.peer }
    {
        &self.peer
    }

    // ---- its link

    /// Takes this link, on which it never stood: true exactly if it does.
    pub fn attach(
        &mut self,
        alloc: Global,
        link: u64,
        now: u64,
        report: &mut Vec<u8>,
    ) -> Result<bool, AllocError>
        ensures { IfOk result (λ taken. OfEach (meaning H.begin_of H.step_of) self.old (λ t h. was_on link (steps t h) ≡ false → of.moment (steps t h) ≤ now →
            IsTried t h link now taken
            × HasDone (meaning H.begin_of H.step_of) t h self.new report.old.items report.new.items (attaching t h link now))) }
    {
        match self.peer.attach(now) {
            Ok(()) => {
                self.link = Some(link);
                Ok(true)
            }
            Err(why) => {
                push_refused_attach(alloc, report, self.side, &why)?;
                Ok(false)
            }
        }
    }

    /// Loses its link, if it has one.
    pub fn lose(&mut self, alloc: Global, now: u64, report: &mut Vec<u8>) -> Result<(), AllocError>
        ensures { OnOk result (OfEach (meaning H.begin_of H.step_of) self.old (λ t h. of.moment (steps t h) ≤ now →
            (ds : List PeerEvent) × (WithLosses t h (leaving t h now) ds
            × Goes (meaning H.begin_of H.step_of) t h self.new report.old.items report.new.items ds))) }
    {
        self.peer.detach(now);
        self.link = None;
        self.tell_gone(alloc, report)?;
        Ok(())
    }

    /// Closes its end, if it isn't closed: nothing is left to do.
    pub fn close(&mut self, alloc: Global, report: &mut Vec<u8>) -> Result<(), AllocError>
        ensures { OnOk result (OfEach (meaning H.begin_of H.step_of) self.old (λ t h.
            (ds : List PeerEvent) × (WithLosses t h (closing t h) ds
            × Goes (meaning H.begin_of H.step_of) t h self.new report.old.items report.new.items ds))) }
    {
        self.peer.close(Reason::Done, false);
        self.tell_gone(alloc, report)?;
        Ok(())
    }

    /// A moment comes, which may be a silence.
    pub fn tick(&mut self, alloc: Global, now: u64, report: &mut Vec<u8>) -> Result<(), AllocError>
        ensures { OnOk result (OfEach (meaning H.begin_of H.step_of) self.old (λ t h. of.moment (steps t h) ≤ now →
            (ds : List PeerEvent) × (WithLosses t h (ticking t h now) ds
            × Goes (meaning H.begin_of H.step_of) t h self.new report.old.items report.new.items ds))) }
    {
        if self.peer.tick(now) {
            self.link = None;
            push_silent(report, self.side)?;
            self.tell_gone(alloc, report)?;
            return Ok(());
        }
        self.tell_gone(alloc, report)?;
        Ok(())
    }

    /// Puts so many of the frames that are due on the link whose bytes these are; `None`: all of them. True exactly if it put any.
    pub fn write(&mut self, most: Option<u64>, lane: &mut Vec<u8>) -> Result<bool, AllocError>
        ensures { IfOk result (λ wrote. OfEach (meaning H.begin_of H.step_of) self.old (λ t h. (ss : List ByteStep) × (FollowUpTo most (writing t.wire t.config) (byte_steps t h) ss
            × Plays (meaning H.begin_of H.step_of) t self.new (lifted ss ++ h)
            × (lane.new.items ≡ lane.old.items ++ lent_text t.wire t.config (byte_steps t h) ss)
            × (wrote ≡ moves_bytes (lifted ss))))) }
    {
        facts_hold();
        writes_few();
        let mut wrote = false;
        for _written in 0..most.unwrap_or(u64::MAX) {
            if !self.write_one(lane)? {
                return Ok(wrote);
            }
            wrote = true;
        }
        Ok(wrote)
    }

    /// Reads these bytes of its link, which are all that are to be read of what comes next there, and answers how many it was fed: all of
    /// them, if its end isn't closed.
    pub fn read(
        &mut self,
        alloc: Global,
        hub: &H,
        now: u64,
        bytes: &[u8],
        report: &mut Vec<u8>,
    ) -> Result<usize, AllocError>
        ensures { IfOk result (λ fed. OfEach (meaning H.begin_of H.step_of) self.old (λ t h. (l : ℕ) (all : List ℕ) → present_link (steps t h) ≡ Some l →
            bytes.now ≡ drop (length (bytes_on l (byte_steps t h))) all → processes t.config (steps t h) ≡ None →
            (ds : List PeerEvent) × (ReadsTo t h now all ds
            × Goes (meaning H.begin_of H.step_of) t h self.new report.old.items report.new.items ds
            × (bytes_on l (byte_steps t (ds ++ h)) ≡ bytes_on l (byte_steps t h) ++ take fed bytes.now)
            × (fed ≤ length bytes.now)
            × (moves_bytes ds ≡ nat_lt 0 fed)))) }
    {
        fed_is_unseen();
        let mut at = 0;
        while at < bytes.len() {
            let taken = self.feed(&bytes[at..]);
            if taken == 0 {
                break;
            }
            at += taken;
            self.take_all(alloc, hub, now, report)?;
        }
        self.tell_gone(alloc, report)?;
        Ok(at)
    }

    // ---- its calls and jobs

    /// Makes a call, with so many uploads.
    pub fn call(
        &mut self,
        alloc: Global,
        kind: CallKind,
        target: Text,
        arguments: Items,
        uploads: u32,
        report: &mut Vec<u8>,
    ) -> Result<(), AllocError>
        requires few { uploads ≤ most_uploads }
        ensures { OnOk result (OfEach (meaning H.begin_of H.step_of) self.old (λ t h. (did : Doing) × (Asks t h kind target arguments uploads did
            × HasDone (meaning H.begin_of H.step_of) t h self.new report.old.items report.new.items did))) }
    {
        asks_are_told();
        match self.peer.call(alloc, kind, target, arguments, uploads) {
            Ok(number) => {
                push_called(alloc, report, self.side, number)?;
                Ok(())
            }
            Err(why) => {
                self.refuse(alloc, why, report)?;
                Ok(())
            }
        }
    }

    /// Uploads an item for a call that has one upload.
    pub fn item(
        &mut self,
        alloc: Global,
        call: u64,
        value: Value,
        report: &mut Vec<u8>,
    ) -> Result<(), AllocError>
        ensures { OnOk result (OfEach (meaning H.begin_of H.step_of) self.old (λ t h. (did : Doing) × (Sends t h call 0 (upload_item t h value) did
            × HasDone (meaning H.begin_of H.step_of) t h self.new report.old.items report.new.items did))) }
    {
        asks_are_told();
        match self.peer.upload_item(alloc, call, 0, value) {
            Ok(()) => {
                push_asked(alloc, report, self.side, Asked::ItemSent, call)?;
                Ok(())
            }
            Err(why) => {
                self.refuse(alloc, why, report)?;
                Ok(())
            }
        }
    }

    /// Ends the upload of a call.
    pub fn done(&mut self, alloc: Global, call: u64, report: &mut Vec<u8>) -> Result<(), AllocError>
        ensures { OnOk result (OfEach (meaning H.begin_of H.step_of) self.old (λ t h. (did : Doing) × (Sends t h call 0 (upload_end None) did
            × HasDone (meaning H.begin_of H.step_of) t h self.new report.old.items report.new.items did))) }
    {
        asks_are_told();
        match self.peer.upload_end(alloc, call, 0, None) {
            Ok(()) => {
                push_asked(alloc, report, self.side, Asked::Done, call)?;
                Ok(())
            }
            Err(why) => {
                self.refuse(alloc, why, report)?;
                Ok(())
            }
        }
    }

    /// Asks the other side to end a call early.
    pub fn cancel(
        &mut self,
        alloc: Global,
        call: u64,
        report: &mut Vec<u8>,
    ) -> Result<(), AllocError>
        ensures { OnOk result (OfEach (meaning H.begin_of H.step_of) self.old (λ t h. (did : Doing) × (Cancelling t h call did
            × HasDone (meaning H.begin_of H.step_of) t h self.new report.old.items report.new.items did))) }
    {
        asks_are_told();
        match self.peer.cancel(alloc, call) {
            Ok(()) => {
                push_asked(alloc, report, self.side, Asked::Cancel, call)?;
                Ok(())
            }
            Err(why) => {
                self.refuse(alloc, why, report)?;
                Ok(())
            }
        }
    }

    /// Each job that is due has one turn. True exactly if one is due. The hub hands up no deeds.
    pub fn round(&mut self, alloc: Global, hub: &H, now: u64) -> Result<bool, AllocError>
        requires { HandsUpNothing (meaning H.begin_of H.step_of) }
        ensures { IfOk result (λ due. OfEach (meaning H.begin_of H.step_of) self.old (λ t h. (ds : List PeerEvent) × (IsRound t h now ds
            × Plays (meaning H.begin_of H.step_of) t self.new (ds ++ h)
            × (IsTrue due ↔ IsPeerDue t h)))) }
    {
        let due = self.peer.due();
        self.peer.begin_round();
        // No job hands up a deed, so each that was due has had its turn.
        let _deed = self.peer.step_job(alloc, hub, now)?;
        Ok(due)
    }

    // ---- inside

    /// Reports why something isn't done. That memory ran out ends the replay.
    fn refuse(&self, alloc: Global, why: AskError, report: &mut Vec<u8>) -> Result<(), AllocError>
        ensures some { OnOk result (why ≡ ask.NoMemory → ⊥) }
        ensures told { OnOk result (report.new.items ≡ report.old.items ++ line_at self.now.side (codes "refused " ++ ask_words why)) }
    {
        match why {
            AskError::NoMemory => Err(AllocError),
            why => push_refused_ask(alloc, report, self.side, &why),
        }
    }

    /// Hands out the calls that are gone, if its end is closed, and reports them.
    fn tell_gone(&mut self, alloc: Global, report: &mut Vec<u8>) -> Result<(), AllocError>
        ensures { OnOk result (OfEach (meaning H.begin_of H.step_of) self.old (λ t h. (ds : List PeerEvent) × (WholeChain (Losing t) h ds
            × Goes (meaning H.begin_of H.step_of) t h self.new report.old.items report.new.items ds))) }
    {
        losses_are_few();
        peers_keep_their_calls(&self.peer);
        for _gone in 0..u64::MAX {
            match self.peer.lost_call() {
                Some(call) => push_gone(alloc, report, self.side, call)?,
                None => return Ok(()),
            }
        }
        Ok(())
    }

    /// Feeds it a first part of these bytes of its link, and answers how many: none if nothing can be fed.
    fn feed(&mut self, piece: &[u8]) -> usize
        requires { 0 < length piece.now }
        ensures within { result ≤ length piece.now }
        ensures fed { OfEach (meaning H.begin_of H.step_of) self.old (λ t h. (l : ℕ) (all : List ℕ) → present_link (steps t h) ≡ Some l →
            piece.now ≡ drop (length (bytes_on l (byte_steps t h))) all → processes t.config (steps t h) ≡ None →
            Feeds (meaning H.begin_of H.step_of) t h self.new all (take result piece.now)) }
        ensures link { self.new.link ≡ self.old.link }
    {
        taken_has_room();
        wire_is_sound();
        self.peer.feed(piece)
    }

    /// Takes all that was fed, and reports what it gives.
    fn take_all(
        &mut self,
        alloc: Global,
        hub: &H,
        now: u64,
        report: &mut Vec<u8>,
    ) -> Result<(), AllocError>
        ensures taken { OnOk result (OfEach (meaning H.begin_of H.step_of) self.old (λ t h. (ds : List PeerEvent) × (WholeChain (Taking t now) h ds
            × Goes (meaning H.begin_of H.step_of) t h self.new report.old.items report.new.items ds))) }
        ensures link { OnOk result (self.new.link ≡ self.old.link) }
    {
        takes_few();
        wire_is_sound();
        // Limits are in range, so an end has fewer frames to take than 64 bits count.
        let _ = self.peer.end().limits().frame();
        for _taken in 0..u64::MAX {
            if !self.take_one(alloc, hub, now, report)? {
                return Ok(());
            }
        }
        Ok(())
    }

    /// Takes the next frame, if a whole one was fed, and reports what it gives. True exactly if one was.
    fn take_one(
        &mut self,
        alloc: Global,
        hub: &H,
        now: u64,
        report: &mut Vec<u8>,
    ) -> Result<bool, AllocError>
        ensures took { IfOk result (λ more. OfEach (meaning H.begin_of H.step_of) self.old (λ t h.
            TakesOne (meaning H.begin_of H.step_of) t h self.new now report.old.items report.new.items more)) }
        ensures link { OnOk result (self.new.link ≡ self.old.link) }
    {
        faults_are_told();
        match self.peer.take(alloc, hub, now) {
            Ok(None) => Ok(false),
            Ok(Some(did)) => match did {
                // A peer that stands for its moves handles each message, and hands out none.
                Did::Other(Got::Message(_)) => Ok(true),
                did => {
                    let number = self.peer.end().processed_count();
                    push_did(alloc, report, self.side, number, &did)?;
                    Ok(true)
                }
            },
            Err(fault) => match fault {
                PeerError::NoMemory => Err(AllocError),
                fault => {
                    push_peer_fault(alloc, report, self.side, &fault)?;
                    Ok(true)
                }
            },
        }
    }

    /// Puts the next frame that is due on the link, if one is. True exactly if one was.
    fn write_one(&mut self, lane: &mut Vec<u8>) -> Result<bool, AllocError>
        ensures { IfOk result (λ more. OfEach (meaning H.begin_of H.step_of) self.old (λ t h.
            WritesOne (meaning H.begin_of H.step_of) t h self.new lane.old.items lane.new.items more)) }
    {
        let Some(bytes) = self.peer.next_out() else {
            return Ok(false);
        };
        lane.extend_from_slice(bytes)?;
        Ok(true)
    }
}
