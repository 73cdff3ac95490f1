//! The client's peer: what it does on its links, with the lines that are printed of that. It doesn't know scripts, lanes, nor dialing.

ghost use Rattle.std.specs.Prelude.{◌≡◌, ◌≤◌, ◌∷◌, [], false, is_some, length, not, ◌&&◌, Some as Given, None as Absent, IfOk, OnOk};
ghost use Rattle.hd_delivery.specs.declared.vocabulary.Reason.TheVariants.{Done};
ghost use Rattle.hd_delivery.specs.Histories as of;
ghost use Rattle.hd_delivery.specs.Histories.{Attached, Closed, is_shaken, is_silence, link_count, present_link};
ghost use Rattle.hd_delivery.specs.Bounds.{most_frame};
ghost use Rattle.hd_delivery.specs.Bytes.{Does as Step_of};
ghost use Rattle.he_wire.specs.Wires.{IsHouseWire};
ghost use Rattle.hd_calls.specs.Peers.{Plain, Rounds, is_shut, steps};
ghost use Rattle.hd_server.specs.Machine.{turn_with};
ghost use Rattle.hd_server.specs.Serves.{can_feed, is_text};
ghost use Rattle.hd_client.specs.Setups.{Setup, peer_settings};
ghost use Rattle.sr_client.specs.Peers.{FeedsAll, Goes, HasRounded, OfEach, Plays, SaysAll, leaving, losing, ticking};
ghost use Rattle.sr_client.specs.Taking.{FeedsPiece, OfEachOn, SaysOne, TakesOne, TakesWhole};

use crate::printing::{push_again, push_gone, push_lost, push_told};
use hd_delivery::{Limits, Reason, Side, State};
use he_end::Config;
use hm_message::Codec;
use hp_peer::{Peer, PeerError};
use hub_calc::ClientHub;
use hv_value::Text;
use json::Scratch;
use std::alloc::{AllocError, Global};

/// The name under which the client's hub knows the server.
const THE_SERVER: &str = "server";

/// The version of the handshake for which a client asks.
const THE_VERSION: u8 = 2;

/// The peer of a client. After an error, which is that memory ran out, it is of no use.
#[derive(Drop)]
pub struct ClientPeer {
    pub(crate) peer: Peer<ClientHub>,
    // it was on a link
    pub(crate) linked: bool,
    // where the reader of JSON works; what it holds counts for nothing
    scratch: Scratch,
}

impl ClientPeer {
    /// A peer before its first link. `reconnect` tells whether it is kept across links.
    pub fn start(
        alloc: Global,
        codec: Codec,
        limits: Limits,
        reconnect: bool,
    ) -> Result<ClientPeer, AllocError>
        ensures { IfOk result (λ p. (s : Setup) → s.codec ≡ codec → s.limits ≡ limits → IsHouseWire limits.frame s.wire →
            Plays (peer_settings s reconnect) p []) }
    {
        let config = Config {
            codec,
            version: THE_VERSION,
            reconnect,
            limits,
        };
        let peer = Peer::start(alloc, Side::Client, config, Text::of(alloc, THE_SERVER)?)?;
        Ok(ClientPeer {
            peer,
            linked: false,
            scratch: Scratch::new(alloc),
        })
    }

    // ---- what it is

    /// Whether its end stands on a link. A closed one may.
    pub fn is_attached(&self) -> bool
        ensures { OfEach self.now (λ t h. result ≡ is_some (present_link (steps t h))) }
    {
        self.peer.end().is_attached()
    }

    /// Whether its end is closed.
    pub fn is_closed(&self) -> bool
        ensures { OfEach self.now (λ t h. result ≡ is_shut t h) }
    {
        self.peer.end().state() == State::Closed
    }

    /// Whether its handshake is complete, and its end open.
    pub fn is_ready(&self) -> bool
        ensures { OfEach self.now (λ t h. result ≡ (is_shaken (steps t h) && not (is_shut t h))) }
    {
        match self.peer.end().state() {
            State::Opening => false,
            State::Ready => true,
            State::Away => true,
            State::Closed => false,
        }
    }

    /// Whether a round that begins now would give some job a turn.
    pub fn is_due(&self) -> bool
        ensures { OfEach self.now (λ t h. result ≡ is_some (turn_with (Given t) (Rounds ∷ h))) }
    {
        hd_server::turns_are_tested();
        self.peer.due()
    }

    /// Whether what it says are texts.
    pub fn is_text(&self) -> bool
        ensures { OfEach self.now (λ t h. result ≡ is_text t.config (steps t h)) }
    {
        self.peer.end().codec() != Some(Codec::Pack)
    }

    // ---- its links

    /// A link begins at this moment: the next by its own count. `again` is printed if it isn't the first.
    pub fn attach(&mut self, now: u64, out: &mut Vec<u8>) -> Result<(), AllocError>
        ensures { OnOk result (OfEach self.old (λ t h. is_shut t h ≡ false → present_link (steps t h) ≡ Absent → of.moment (steps t h) ≤ now →
            Goes t h self.new out.old.items out.new.items (Plain (Step_of (Attached (link_count (steps t h)) now)) ∷ []))) }
    {
        match self.peer.attach(now) {
            Ok(()) => {}
            Err(_) => return Ok(()),
        }
        if !self.linked {
            self.linked = true;
            return Ok(());
        }
        push_again(out)?;
        Ok(())
    }

    /// Its link is lost, if it has one: true exactly then.
    pub fn detach(&mut self, now: u64, out: &mut Vec<u8>) -> Result<bool, AllocError>
        ensures { IfOk result (λ was. OfEach self.old (λ t h. of.moment (steps t h) ≤ now →
            (was ≡ is_some (present_link (steps t h))) × Goes t h self.new out.old.items out.new.items (leaving t h now))) }
    {
        if !self.is_attached() {
            return Ok(false);
        }
        self.peer.detach(now);
        push_lost(out)?;
        Ok(true)
    }

    /// A moment comes, which without a link changes nothing. True exactly if it is a silence, by which the link is lost.
    pub fn tick(&mut self, now: u64, out: &mut Vec<u8>) -> Result<bool, AllocError>
        ensures { IfOk result (λ silent. OfEach self.old (λ t h. of.moment (steps t h) ≤ now →
            (silent ≡ is_silence t.config now (steps t h)) × Goes t h self.new out.old.items out.new.items (ticking t h now))) }
    {
        if !self.is_attached() {
            return Ok(false);
        }
        if !self.peer.tick(now) {
            return Ok(false);
        }
        push_lost(out)?;
        Ok(true)
    }

    // ---- what comes

    /// Feeds its end these bytes of its link, as many as it takes each time, and takes every whole frame after each. An end without a link, or a
    /// closed one, is fed nothing.
    pub fn feed(
        &mut self,
        alloc: Global,
        bytes: &[u8],
        now: u64,
        out: &mut Vec<u8>,
    ) -> Result<(), AllocError>
        ensures { OnOk result (OfEach self.old (λ t h. FeedsAll t h self.new now bytes.now out.old.items out.new.items)) }
    {
        let mut at = self.feed_piece(alloc, bytes, now, out)?;
        while at < bytes.len() {
            let fed = self.feed_piece(alloc, &bytes[at..], now, out)?;
            if fed == 0 {
                // It takes no more.
                return Ok(());
            }
            at += fed;
        }
        Ok(())
    }

    // ---- its jobs

    /// Each job that is due has one turn.
    pub fn round(&mut self, alloc: Global, now: u64) -> Result<(), AllocError>
        ensures { OnOk result (OfEach self.old (λ t h. HasRounded t h self.new now)) }
    {
        hub_calc::nothing_is_handed_up();
        hd_server::turns_are_tested();
        self.peer.begin_round();
        // No job hands up a deed, so each that was due has had its turn.
        let _deed = self.peer.step_job(alloc, &ClientHub, now)?;
        Ok(())
    }

    // ---- its end

    /// Closes its end, which is open: nothing is left to do.
    pub fn close(&mut self)
        ensures { OfEach self.old (λ t h. is_shut t h ≡ false → Plays t self.new (Plain (Step_of (Closed Done false)) ∷ h)) }
    {
        self.peer.close(Reason::Done, false);
    }

    /// Hands out the calls that are gone, if its end is closed, and prints them.
    pub fn tell_gone(&mut self, alloc: Global, out: &mut Vec<u8>) -> Result<(), AllocError>
        ensures { OnOk result (OfEach self.old (λ t h. Goes t h self.new out.old.items out.new.items (losing t h))) }
    {
        hp_peer::peers_keep_their_calls(&self.peer);
        for _gone in 0..u64::MAX {
            match self.peer.lost_call() {
                Some(call) => push_gone(alloc, out, call)?,
                None => return Ok(()),
            }
        }
        Ok(())
    }

    // ---- what is said

    /// Appends all that is due, in whole frames. True exactly if something was.
    pub fn say_all(&mut self, out: &mut Vec<u8>) -> Result<bool, AllocError>
        ensures { IfOk result (λ any. OfEach self.old (λ t h. SaysAll t h self.new any out.old.items out.new.items)) }
    {
        hd_delivery::facts_hold();
        hd_delivery::writes_few();
        let mut any = false;
        for _said in 0..u64::MAX {
            if !self.say_one(out)? {
                return Ok(any);
            }
            any = true;
        }
        Ok(any)
    }

    // ---- inside

    /// Feeds it as many of these bytes as it takes, and takes every whole frame. Answers how many it took: none if it can't be fed.
    fn feed_piece(
        &mut self,
        alloc: Global,
        bytes: &[u8],
        now: u64,
        out: &mut Vec<u8>,
    ) -> Result<usize, AllocError>
        ensures within { IfOk result (λ fed. fed ≤ length bytes.now) }
        ensures fed { IfOk result (λ fed. OfEach self.old (λ t h. FeedsPiece t h self.new now fed bytes.now out.old.items out.new.items)) }
    {
        hd_delivery::taken_has_room();
        he_wire::wire_is_sound();
        if !self.can_feed() {
            return Ok(0);
        }
        let fed = self.peer.feed(bytes);
        self.take_all(alloc, now, out)?;
        Ok(fed)
    }

    /// Whether its end is open, and stands on a link.
    fn can_feed(&self) -> bool
        ensures { OfEach self.now (λ t h. result ≡ can_feed t h) }
    {
        self.is_attached() && !self.is_closed()
    }

    /// Takes whole frames until none is left.
    fn take_all(&mut self, alloc: Global, now: u64, out: &mut Vec<u8>) -> Result<(), AllocError>
        ensures { OnOk result (OfEachOn self.old (λ t h. TakesWhole t h self.new now out.old.items out.new.items)) }
    {
        hd_delivery::takes_few();
        he_wire::wire_is_sound();
        self.frames_are_few();
        for _taken in 0..u64::MAX {
            if !self.take_one(alloc, now, out)? {
                return Ok(());
            }
        }
        Ok(())
    }

    /// Takes the next whole frame, which may close the end, and prints what it gives. False if there is none.
    fn take_one(&mut self, alloc: Global, now: u64, out: &mut Vec<u8>) -> Result<bool, AllocError>
        ensures { IfOk result (λ more. OfEachOn self.old (λ t h. TakesOne t h self.new now out.old.items out.new.items more)) }
    {
        match self.peer.take_in(alloc, &mut self.scratch, &ClientHub, now) {
            Ok(None) => Ok(false),
            Ok(Some(did)) => {
                push_told(alloc, out, did)?;
                Ok(true)
            }
            Err(PeerError::NoMemory) => Err(AllocError),
            Err(PeerError::Next(_)) => Ok(true),
            Err(PeerError::InUse(_)) => Ok(true),
            Err(PeerError::TooMany) => Ok(true),
            Err(PeerError::Flood) => Ok(true),
        }
    }

    /// The limits of an end are in range, so that it has fewer frames to take than 64 bits count.
    fn frames_are_few(&self)
        ensures { OfEachOn self.now (λ t h. t.limits.frame ≤ most_frame) }
    {
        let _ = self.peer.end().limits().frame();
    }

    /// Appends the next bytes to put on the link, whole frames, which count as said. False if nothing is due.
    fn say_one(&mut self, out: &mut Vec<u8>) -> Result<bool, AllocError>
        ensures { IfOk result (λ more. OfEach self.old (λ t h. SaysOne t h self.new more out.old.items out.new.items)) }
    {
        let Some(bytes) = self.peer.next_out() else {
            return Ok(false);
        };
        out.extend_from_slice(bytes)?;
        Ok(true)
    }
}
