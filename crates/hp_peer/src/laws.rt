//! What crates above cite of peers. No function here does anything: its contract is the law.

ghost use Rattle.hj_jobs.specs.Meaning.{meaning};
ghost use Rattle.hp_peer.specs.Laws.{CallOnce, KeepsItsCalls};

use crate::peer::Peer;
use hd_calls::{calls_once_as_sent, ids_are_drawn, peers_are_bounded, peers_keep};
use he_wire::wire_is_faithful;
use hj_jobs::Hub;
use hm_codec::errors_are_short;

/// Whatever a peer stands for: it is what a peer can do by itself, its ledgers are legal, each of its live calls ends once after its end
/// is closed, and its bounds are kept.
pub fn peers_keep_their_calls<H: Hub>(_peer: &Peer<H>)
    ensures { KeepsItsCalls (meaning H.begin_of H.step_of) _peer.now }
{
    peers_keep::<H::Job>();
    peers_are_bounded::<H::Job>();
}

/// Two peers carry out each other's calls once: in every world of which they stand for the moves, whatever was lost and however often they
/// came back, what each end has processed is a first part of what the other sent, each call that was processed begins one job, and its
/// caller is given a first part of what that job answers by its hub's meaning; all of it, and one ending, once nothing is left to do.
pub fn peers_call_once<C: Hub, S: Hub>(client: &Peer<C>, server: &Peer<S>)
    ensures { CallOnce (meaning C.begin_of C.step_of) (meaning S.begin_of S.step_of) client.now server.now }
{
    calls_once_as_sent::<C::Job, S::Job>();
    ids_are_drawn();
    // So the error for what is too long has room in a frame.
    errors_are_short();
    wire_is_faithful();
    // Limits are in range, so handshakes and control frames have room in a frame.
    let _ = client.end.limits().frame();
    let _ = server.end.limits().frame();
}
