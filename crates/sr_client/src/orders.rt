//! The lines of a script, carried out on the client's peer. It doesn't know how they are spelled, nor in which order they come.

ghost use Rattle.std.specs.Prelude.{◌≡◌, ◌≤◌, ◌++◌, [], codes, None, IfOk, IfSome, OnOk};
ghost use Rattle.hm_message.specs.declared.message.Ending.TheVariants.{Void};
ghost use Rattle.hd_calls.specs.Hubs.{End, Item as Item_of, value_in};
ghost use Rattle.hd_calls.specs.Peers.{Calls, Cancels, Uploads, codec, drawn};
ghost use Rattle.hp_peer.specs.declared.errors.AskError.TheVariants.{NoMemory};
ghost use Rattle.hp_peer.specs.Words.{ask_words};
ghost use Rattle.hd_client.specs.declared.order.Order.TheVariants.{Call};
ghost use Rattle.hd_client.specs.Refusals.{call_refusal, cancel_refusal, next_call, number_of, upload_refusal};
ghost use Rattle.hd_client.specs.Plans.{has_live};
ghost use Rattle.hd_client.specs.Printed.{line};
ghost use Rattle.sr_client.specs.Grammar.{HasFewUploads};
ghost use Rattle.sr_client.specs.Peers.{OfEach};
ghost use Rattle.sr_client.specs.Obeying.{Declared, Obeys, OfEachClient, Tries, UploadsHaveCalls, is_full, refusal_of};

use crate::peer::ClientPeer;
use crate::printing::push_called;
use hd_calls::CallKind;
use hd_client::{Order, reasons_are_computed};
use he_end::SendError;
use hm_message::values_are_trees;
use hp_peer::AskError;
use hv_value::{Items, Text, Value};
use std::alloc::{AllocError, Global};

/// What becomes of a line that is to be done.
#[derive(Clone, Copy, PartialEq, Eq)]
pub(crate) enum Obeyed {
    /// It can't be done yet, and is to be tried again.
    Waits,
    /// It is done, or refused, which is printed.
    Passed,
    /// The link is to be given up, if there is one, by whoever has its lane.
    Loses,
}

/// Does what this order asks of the client's peer, and prints what comes of it.
pub(crate) fn obey(
    alloc: Global,
    order: &Order,
    peer: &mut ClientPeer,
    out: &mut Vec<u8>,
) -> Result<Obeyed, AllocError>
    requires few { HasFewUploads order.now }
    ensures { IfOk result (λ did. OfEachClient peer.old (λ t h. Obeys t order.now h peer.new out.old.items out.new.items did)) }
{
    match order {
        Order::Call {
            kind,
            target,
            arguments,
            uploads,
        } => peer.call(alloc, *kind, target, arguments, *uploads, out),
        Order::Item(call, value) => peer.item(alloc, *call, value, out),
        Order::Done(call) => peer.done(alloc, *call, out),
        Order::Cancel(call) => peer.cancel(alloc, *call, out),
        Order::Wait => {
            if peer.has_live() {
                return Ok(Obeyed::Waits);
            }
            Ok(Obeyed::Passed)
        }
        Order::Lose => Ok(Obeyed::Loses),
    }
}

impl ClientPeer {
    /// Whether an own call is live.
    pub fn has_live(&self) -> bool
        ensures { OfEach self.now (λ t h. UploadsHaveCalls h → result ≡ has_live h) }
    {
        // Its uploads end with its calls, so that none is live where no call is.
        self.peer.live() != 0
    }

    /// A call with so many uploads.
    fn call(
        &mut self,
        alloc: Global,
        kind: CallKind,
        target: &Text,
        arguments: &Items,
        uploads: u32,
        out: &mut Vec<u8>,
    ) -> Result<Obeyed, AllocError>
        requires few { HasFewUploads (Call kind target.now arguments.now uploads) }
        ensures { IfOk result (λ did. OfEach self.old (λ t h. UploadsHaveCalls h →
            Tries t h (call_refusal t h (next_call t h kind target.now arguments.now uploads))
            (Calls None (number_of kind uploads (drawn h)) (next_call t h kind target.now arguments.now uploads)) self.new out.old.items out.new.items did)) }
    {
        reasons_are_computed();
        match self
            .peer
            .call(alloc, kind, target.copy()?, arguments.copy()?, uploads)
        {
            Ok(number) => {
                push_called(alloc, out, number)?;
                Ok(Obeyed::Passed)
            }
            Err(why) => {
                let did = decline(alloc, why, out)?;
                Ok(did)
            }
        }
    }

    /// An item of the upload of this call.
    fn item(
        &mut self,
        alloc: Global,
        call: u64,
        value: &Value,
        out: &mut Vec<u8>,
    ) -> Result<Obeyed, AllocError>
        ensures { IfOk result (λ did. OfEach self.old (λ t h. UploadsHaveCalls h →
            Tries t h (upload_refusal t h call 0 (Item_of (value_in (codec t h) value.now))) (Uploads call 0 (Item_of (value_in (codec t h) value.now)))
            self.new out.old.items out.new.items did)) }
    {
        reasons_are_computed();
        values_are_trees();
        match self.peer.upload_item(alloc, call, 0, value.copy()?) {
            Ok(()) => Ok(Obeyed::Passed),
            Err(why) => {
                let did = decline(alloc, why, out)?;
                Ok(did)
            }
        }
    }

    /// The end of the upload of this call.
    fn done(&mut self, alloc: Global, call: u64, out: &mut Vec<u8>) -> Result<Obeyed, AllocError>
        ensures { IfOk result (λ did. OfEach self.old (λ t h. UploadsHaveCalls h →
            Tries t h (upload_refusal t h call 0 (End Void)) (Uploads call 0 (End Void)) self.new out.old.items out.new.items did)) }
    {
        reasons_are_computed();
        match self.peer.upload_end(alloc, call, 0, None) {
            Ok(()) => Ok(Obeyed::Passed),
            Err(why) => {
                let did = decline(alloc, why, out)?;
                Ok(did)
            }
        }
    }

    /// This call is to end early.
    fn cancel(&mut self, alloc: Global, call: u64, out: &mut Vec<u8>) -> Result<Obeyed, AllocError>
        ensures { IfOk result (λ did. OfEach self.old (λ t h. UploadsHaveCalls h →
            Tries t h (cancel_refusal t h call) (Cancels call) self.new out.old.items out.new.items did)) }
    {
        reasons_are_computed();
        match self.peer.cancel(alloc, call) {
            Ok(()) => Ok(Obeyed::Passed),
            Err(why) => {
                let did = decline(alloc, why, out)?;
                Ok(did)
            }
        }
    }
}

/// What becomes of a line that the peer refuses for this reason: without room it waits, and else that is printed.
fn decline(alloc: Global, why: AskError, out: &mut Vec<u8>) -> Result<Obeyed, AllocError>
    ensures declared { IfOk result (λ did. IfSome (refusal_of why) (λ w. Declared w out.old.items out.new.items did)) }
    ensures some { OnOk result (why ≡ NoMemory → ⊥) }
{
    if why == AskError::NoMemory {
        return Err(AllocError);
    }
    if is_full(why) {
        return Ok(Obeyed::Waits);
    }
    push_refused(alloc, why, out)?;
    Ok(Obeyed::Passed)
}

/// Whether it is for want of room.
fn is_full(why: AskError) -> bool
    ensures { result ≡ is_full why }
{
    match why {
        AskError::Calls(_) => false,
        AskError::TooDeep => false,
        AskError::Send(SendError::Opening) => false,
        AskError::Send(SendError::Closed) => false,
        AskError::Send(SendError::TooLong { .. }) => false,
        AskError::Send(SendError::Full { .. }) => true,
        AskError::Send(SendError::Exhausted) => false,
        AskError::Send(SendError::NoMemory) => false,
        AskError::NoMemory => false,
    }
}

/// Appends the line of a refusal.
fn push_refused(alloc: Global, why: AskError, out: &mut Vec<u8>) -> Result<(), AllocError>
    ensures { OnOk result (out.new.items ≡ out.old.items ++ line (codes "refused " ++ ask_words why)) }
{
    let line = format!(in alloc; "refused {why}\n")?;
    out.extend_from_slice(line.as_bytes())
}
