//! What a peer's user asks of it: calls, their uploads and cancellation, and notices that are spelled for many peers.

ghost use Rattle.std.specs.Prelude.{◌≡◌, ◌≤◌, ℕ, suc, true, List, ◌∷◌, IfOk, IfErr, OnOk, OnErr};
ghost use Rattle.hm_message.specs.Message.{Fits, is_sequenced};
ghost use Rattle.he_end.specs.Calls.{IsSpelled};
ghost use Rattle.he_end.specs.Spoken.{spoken_in};
ghost use Rattle.he_end.specs.Stands.{limits_of};
ghost use Rattle.hd_calls.specs.Numbers.{most_uploads};
ghost use Rattle.hd_calls.specs.Hubs.{Invoked};
ghost use Rattle.hd_calls.specs.Peers.{Cancels, Uploads};
ghost use Rattle.hj_jobs.specs.Meaning.{meaning};
ghost use Rattle.hp_peer.specs.Calling.{HasCalled, HasNotified, IsNotice, IsUncalled, IsUncancelled, IsUnnotified, IsUnuploaded, Loss, upload_end as end_of_upload, upload_item as item_of_upload};
ghost use Rattle.hp_peer.specs.Parts.{EndStays, HasSaid, IsUnsaid};
ghost use Rattle.hp_peer.specs.Stands.{OfEach, Stands, Stays};

use crate::errors::AskError;
use crate::peer::Peer;
use hd_calls::{CallKind, frames_are_tested, tables_agree};
use hd_delivery::State;
use he_end::SendError;
use hi_calls::{calls_are_made, ids_are_of_a_side, notices_pass};
use hj_jobs::Hub;
use hm_message::{Message, message_image_is_as_deep};
use hq_resend::Frame;
use hv_value::{Items, Text, Value};
use std::alloc::Global;

impl<H: Hub> Peer<H> {
    /// Calls the other side: the call's number, by which its answers are told. A Notify without uploads has the number 0. After an error
    /// the peer is as it was.
    pub fn call(
        &mut self,
        alloc: Global,
        kind: CallKind,
        target: Text,
        arguments: Items,
        uploads: u32,
    ) -> Result<u64, AskError>
        requires few { uploads ≤ most_uploads }
        ensures ok { IfOk result (λ number. OfEach (meaning H.begin_of H.step_of) self.old (λ t h.
            HasCalled (meaning H.begin_of H.step_of) t h self.new kind target arguments uploads number)) }
        ensures refused { IfErr result (λ e. OfEach (meaning H.begin_of H.step_of) self.old (λ t h.
            IsUncalled t h kind target arguments uploads e)) }
        ensures unchanged { OnErr result (Stays (meaning H.begin_of H.step_of) self.old self.new) }
        ensures others { self.new ≡ record self.old { end = self.new.end; calls = self.new.calls } }
    {
        tables_agree();
        calls_are_made();
        ids_are_of_a_side();
        message_image_is_as_deep();
        let (number, message) = self.calls.begin(alloc, kind, target, arguments, uploads)?;
        match self.say(alloc, &message) {
            Ok(()) => Ok(number),
            Err(error) => {
                self.calls.undo();
                Err(error)
            }
        }
    }

    /// Asks the other side to end a live call early. The call is live until its ending comes. After an error the peer is as it was.
    pub fn cancel(&mut self, alloc: Global, call: u64) -> Result<(), AskError>
        ensures ok { OnOk result (OfEach (meaning H.begin_of H.step_of) self.old (λ t h.
            Stands (meaning H.begin_of H.step_of) t self.new (Cancels call ∷ h))) }
        ensures refused { IfErr result (λ e. OfEach (meaning H.begin_of H.step_of) self.old (λ t h. IsUncancelled t h call e)) }
        ensures unchanged { OnErr result (Stays (meaning H.begin_of H.step_of) self.old self.new) }
        ensures turns { self.new.stalled ≡ self.old.stalled }
    {
        tables_agree();
        ids_are_of_a_side();
        let message = self.calls.cancel(alloc, call)?;
        self.say(alloc, &message)
    }

    /// Uploads an item on a stream of a call. `which` counts the call's uploads from 0. After an error the peer is as it was.
    pub fn upload_item(
        &mut self,
        alloc: Global,
        call: u64,
        which: u32,
        value: Value,
    ) -> Result<(), AskError>
        ensures ok { OnOk result (OfEach (meaning H.begin_of H.step_of) self.old (λ t h.
            Stands (meaning H.begin_of H.step_of) t self.new (Uploads call which (item_of_upload t h value) ∷ h))) }
        ensures refused { IfErr result (λ e. OfEach (meaning H.begin_of H.step_of) self.old (λ t h.
            IsUnuploaded t h call which (item_of_upload t h value) e)) }
        ensures unchanged { OnErr result (Stays (meaning H.begin_of H.step_of) self.old self.new) }
        ensures turns { self.new.stalled ≡ self.old.stalled }
    {
        tables_agree();
        ids_are_of_a_side();
        message_image_is_as_deep();
        let message = self.calls.upload_item(alloc, call, which, value)?;
        self.say(alloc, &message)
    }

    /// Ends an upload, with an error or without. After an error of this call the peer is as it was.
    pub fn upload_end(
        &mut self,
        alloc: Global,
        call: u64,
        which: u32,
        error: Option<Text>,
    ) -> Result<(), AskError>
        ensures ok { OnOk result (OfEach (meaning H.begin_of H.step_of) self.old (λ t h.
            Stands (meaning H.begin_of H.step_of) t self.new (Uploads call which (end_of_upload error) ∷ h))) }
        ensures refused { IfErr result (λ e. OfEach (meaning H.begin_of H.step_of) self.old (λ t h.
            IsUnuploaded t h call which (end_of_upload error) e)) }
        ensures unchanged { OnErr result (Stays (meaning H.begin_of H.step_of) self.old self.new) }
        ensures turns { self.new.stalled ≡ self.old.stalled }
    {
        tables_agree();
        ids_are_of_a_side();
        let message = self.calls.upload_end(alloc, call, which, error)?;
        self.say(alloc, &message)?;
        self.calls.upload_ended(call, which);
        Ok(())
    }

    /// Sends a Notify without uploads whose frame in this end's codec is at hand, as `he_end::spell` makes it: its bytes are shared. The
    /// number of the message is that of the end's `send_shared`. After an error the peer is as it was.
    pub fn send_spelled(&mut self, message: &Message, frame: &Frame) -> Result<u64, SendError>
        requires notice { (c : Invoked) × IsNotice message.now c }
        requires fits { Fits message.now }
        requires spelled { IsSpelled self.old.end.session.codec message.now frame.now }
        ensures ok { IfOk result (λ number. OfEach (meaning H.begin_of H.step_of) self.old (λ t h. (c : Invoked) → IsNotice message.now c →
            HasNotified (meaning H.begin_of H.step_of) t h self.new c number)) }
        ensures refused { IfErr result (λ e. OfEach (meaning H.begin_of H.step_of) self.old (λ t h. (c : Invoked) → IsNotice message.now c →
            IsUnnotified t h c e)) }
        ensures unchanged { OnErr result (Stays (meaning H.begin_of H.step_of) self.old self.new) }
        ensures turns { self.new.stalled ≡ self.old.stalled }
        ensures codec { spoken_in self.new.end ≡ spoken_in self.old.end }
    {
        tables_agree();
        notices_pass();
        self.end.send_shared(message, frame)
    }

    /// Hands out, on a closed end, the live call of the least number as gone: it has no answers any more. None if none is left, or if the
    /// end isn't closed.
    pub fn lost_call(&mut self) -> Option<u64>
        ensures lost { OfEach (meaning H.begin_of H.step_of) self.old (λ t h. Loss (meaning H.begin_of H.step_of) t h self.new result) }
        ensures turns { self.new.stalled ≡ self.old.stalled }
    {
        tables_agree();
        if self.end.state() != State::Closed {
            return None;
        }
        let call = self.calls.lose_next()?;
        let _asker = self.jobs_by_call.swap_remove(&call);
        Some(call)
    }

    /// Sends a message of own calls, if it fits.
    pub(crate) fn say(&mut self, alloc: Global, message: &Message) -> Result<(), AskError>
        requires { is_sequenced message.now ≡ true }
        ensures ok { OnOk result (HasSaid self.old self.new message.now) }
        ensures refused { IfErr result (IsUnsaid self.old.end message.now) }
        ensures others { self.new ≡ record self.old { end = self.new.end } }
        ensures unchanged { OnErr result (EndStays self.old.end self.new.end) }
        ensures limits { limits_of self.new.end ≡ limits_of self.old.end }
    {
        if !message.fits() {
            return Err(AskError::TooDeep);
        }
        let _number = self.end.send(alloc, message)?;
        Ok(())
    }
}
