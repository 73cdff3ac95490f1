//! What one peer is fed, takes and says, once it is found. Nothing is looked up here.

ghost use Rattle.std.specs.Prelude.{◌≡◌, ◌≤◌, ◌&&◌, not, [], length, is_some, IfOk, OnOk};
ghost use Rattle.hd_delivery.specs.Histories.{is_resumable, present_link};
ghost use Rattle.hd_calls.specs.Peers.{is_shut, steps};
ghost use Rattle.hd_delivery.specs.Bounds.{most_frame};
ghost use Rattle.hd_server.specs.Serves.{can_feed, is_text};
ghost use Rattle.hj_jobs.specs.Meaning.{meaning};
ghost use Rattle.hp_peer.specs.Stands.{OfEach};
ghost use Rattle.hub_machine.specs.PeerTraffic.{FeedsPeer, FeedsPiece, SaysAll, SaysBody, SaysOne, TakesOne, TakesWhole};
ghost use Rattle.hub_machine.specs.Traffic.{IsClear, IsServers};

use hd_delivery::State;
use hd_server::MOST_BEFORE_LAST;
use hj_jobs::Hub;
use hm_message::Codec;
use hp_peer::{Peer, PeerError};
use json::Scratch;
use std::alloc::{AllocError, Global};

// ---- what it is

/// Whether its end stands on a link.
pub(crate) fn is_attached<H: Hub>(peer: &Peer<H>) -> bool
    ensures { OfEach (meaning H.begin_of H.step_of) peer.now (λ t h. result ≡ is_some (present_link (steps t h))) }
{
    peer.end().is_attached()
}

/// Whether its end is closed.
pub(crate) fn is_over<H: Hub>(peer: &Peer<H>) -> bool
    ensures { OfEach (meaning H.begin_of H.step_of) peer.now (λ t h. result ≡ is_shut t h) }
{
    peer.end().state() == State::Closed
}

/// Whether it is open, and kept when its link is lost.
pub(crate) fn may_resume<H: Hub>(peer: &Peer<H>) -> bool
    ensures { OfEach (meaning H.begin_of H.step_of) peer.now (λ t h. result ≡ (not (is_shut t h) && is_resumable t.config (steps t h))) }
{
    !is_over(peer) && peer.end().is_resumable()
}

/// Whether what its end says are texts.
pub(crate) fn says_texts<H: Hub>(peer: &Peer<H>) -> bool
    ensures { OfEach (meaning H.begin_of H.step_of) peer.now (λ t h. IsServers t h → result ≡ is_text t.config (steps t h)) }
{
    peer.end().codec() != Some(Codec::Pack)
}

// ---- bytes that come

/// It is fed these bytes, as many as it takes each time, and every whole frame is taken after each.
pub(crate) fn feed_peer<H: Hub>(
    alloc: Global,
    scratch: &mut Scratch,
    hub: &H,
    peer: &mut Peer<H>,
    now: u64,
    bytes: &[u8],
) -> Result<(), AllocError>
    ensures { OnOk result (OfEach (meaning H.begin_of H.step_of) peer.old (λ t h. IsClear t h →
        FeedsPeer (meaning H.begin_of H.step_of) t h peer.new now bytes.now)) }
{
    let mut at = feed_piece(alloc, scratch, hub, peer, now, bytes)?;
    while at < bytes.len() {
        let fed = feed_piece(alloc, scratch, hub, peer, now, &bytes[at..])?;
        if fed == 0 {
            // It takes no more.
            return Ok(());
        }
        at += fed;
    }
    Ok(())
}

/// It is fed as many of these bytes as it takes, and every whole frame is taken. Answers how many it took: none if it can't be fed.
fn feed_piece<H: Hub>(
    alloc: Global,
    scratch: &mut Scratch,
    hub: &H,
    peer: &mut Peer<H>,
    now: u64,
    bytes: &[u8],
) -> Result<usize, AllocError>
    ensures within { IfOk result (λ fed. fed ≤ length bytes.now) }
    ensures fed { IfOk result (λ fed. OfEach (meaning H.begin_of H.step_of) peer.old (λ t h. IsClear t h →
        FeedsPiece (meaning H.begin_of H.step_of) t h peer.new now fed bytes.now)) }
{
    hd_delivery::taken_has_room();
    he_wire::wire_is_sound();
    if !can_feed(peer) {
        return Ok(0);
    }
    let fed = peer.feed(bytes);
    take_all(alloc, scratch, hub, peer, now)?;
    Ok(fed)
}

/// Whether its end is open, and stands on a link.
fn can_feed<H: Hub>(peer: &Peer<H>) -> bool
    ensures { OfEach (meaning H.begin_of H.step_of) peer.now (λ t h. result ≡ can_feed t h) }
{
    is_attached(peer) && !is_over(peer)
}

/// Whole frames are taken until none is left.
fn take_all<H: Hub>(
    alloc: Global,
    scratch: &mut Scratch,
    hub: &H,
    peer: &mut Peer<H>,
    now: u64,
) -> Result<(), AllocError>
    ensures { OnOk result (OfEach (meaning H.begin_of H.step_of) peer.old (λ t h. TakesWhole (meaning H.begin_of H.step_of) t h peer.new now)) }
{
    hd_delivery::takes_few();
    he_wire::wire_is_sound();
    frames_are_few(peer);
    for _taken in 0..u64::MAX {
        if !take_one(alloc, scratch, hub, peer, now)? {
            return Ok(());
        }
    }
    Ok(())
}

/// The message that waits is handled or, if none does, the next whole frame is taken, which may close the end. False if there is none.
fn take_one<H: Hub>(
    alloc: Global,
    scratch: &mut Scratch,
    hub: &H,
    peer: &mut Peer<H>,
    now: u64,
) -> Result<bool, AllocError>
    ensures { IfOk result (λ more. OfEach (meaning H.begin_of H.step_of) peer.old (λ t h. TakesOne (meaning H.begin_of H.step_of) t h peer.new now more)) }
{
    match peer.take_in(alloc, scratch, hub, now) {
        Ok(Some(_told)) => Ok(true),
        Ok(None) => Ok(false),
        Err(PeerError::NoMemory) => Err(AllocError),
        Err(PeerError::Next(_why)) => Ok(true),
        Err(PeerError::InUse(_id)) => Ok(true),
        Err(PeerError::TooMany) => Ok(true),
        Err(PeerError::Flood) => Ok(true),
    }
}

/// The limits of an end are in range, so that it has fewer frames to take than 64 bits count.
fn frames_are_few<H: Hub>(peer: &Peer<H>)
    ensures { OfEach (meaning H.begin_of H.step_of) peer.now (λ t h. t.limits.frame ≤ most_frame) }
{
    let _ = peer.end().limits().frame();
}

// ---- what is said

/// Appends all that is due. True exactly if something was.
pub(crate) fn say_due<H: Hub>(peer: &mut Peer<H>, out: &mut Vec<u8>) -> Result<bool, AllocError>
    ensures { IfOk result (λ any. OfEach (meaning H.begin_of H.step_of) peer.old (λ t h.
        SaysAll (meaning H.begin_of H.step_of) t h peer.new any out.old.items out.new.items)) }
{
    hd_delivery::facts_hold();
    hd_delivery::writes_few();
    let mut any = false;
    for _said in 0..u64::MAX {
        if !say_one(peer, out)? {
            return Ok(any);
        }
        any = true;
    }
    Ok(any)
}

/// The body of a poll's reply: what is due, up to the frame with which it is full. True exactly if there was any.
pub(crate) fn say_body<H: Hub>(peer: &mut Peer<H>, body: &mut Vec<u8>) -> Result<bool, AllocError>
    ensures { IfOk result (λ any. OfEach (meaning H.begin_of H.step_of) peer.old (λ t h. body.old.items ≡ [] →
        SaysBody (meaning H.begin_of H.step_of) t h peer.new any body.new.items)) }
{
    hd_delivery::facts_hold();
    hd_delivery::writes_few();
    hd_server::numbers_are_named();
    let mut any = false;
    for _said in 0..u64::MAX {
        if body.len() > MOST_BEFORE_LAST {
            return Ok(any);
        }
        if !say_one(peer, body)? {
            return Ok(any);
        }
        any = true;
    }
    Ok(any)
}

/// Appends the next bytes to put on the link, whole frames, which count as said. False if nothing is due.
pub(crate) fn say_one<H: Hub>(peer: &mut Peer<H>, out: &mut Vec<u8>) -> Result<bool, AllocError>
    ensures { IfOk result (λ more. OfEach (meaning H.begin_of H.step_of) peer.old (λ t h.
        SaysOne (meaning H.begin_of H.step_of) t h peer.new more out.old.items out.new.items)) }
{
    let Some(bytes) = peer.next_out() else {
        return Ok(false);
    };
    out.extend_from_slice(bytes)?;
    Ok(true)
}
