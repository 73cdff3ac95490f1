//! What comes: a message is handled once it is read, and one for which memory was out waits for the next take.

ghost use Rattle.std.specs.Prelude.{◌≡◌, ◌==◌, ℕ, List, None, Some, nat_eq, IfOk, IfErr, if◌then◌else◌};
ghost use Rattle.std.specs.HashMap.{get};
ghost use Rattle.hm_message.specs.declared.message.Message.TheVariants as message_of_kind;
ghost use Rattle.hm_message.specs.Headers.{Header};
ghost use Rattle.he_end.specs.Stands.{limits_of};
ghost use Rattle.hd_calls.specs.Hubs.{End as Ends, error_in, id_of, Invoked, Item, purpose_of, ToBegin};
ghost use Rattle.hi_calls.specs.Calls as of_calls;
ghost use Rattle.hj_jobs.specs.Meaning.{meaning};
ghost use Rattle.hp_peer.specs.declared.did.Did.TheVariants as told_of;
ghost use Rattle.hp_peer.specs.Stands.{OfEach};
ghost use Rattle.hp_peer.specs.Taking.{call_to_begin, ClosesIfHeavy, FeedsAs, HandlesAs, IsUntaken, of_next, Takes, Unfeeds, Unhandles};

use crate::did::Did;
use crate::errors::PeerError;
use crate::peer::Peer;
use hd_calls::{
    Call, CallKind, Input, MOST_WEIGHT, UnknownId, ids_are_drawn, peers_are_bounded, tables_agree,
};
use hd_delivery::{Got, Reason};
use he_end::NextError;
use he_wire::wire_is_sound;
use hi_calls::ids_are_of_a_side;
use hj_jobs::{AcceptError, Hub, InputError};
use hm_message::{Ending, Headers, Message, values_are_trees};
use hv_value::{Items, Text, Texts, Value};
use json::Scratch;
use std::alloc::{AllocError, Global};

impl<H: Hub> Peer<H> {
    /// Takes the message that waits or, if none does, the next frame of the link, and tells what it did. None if no message waits and no
    /// whole frame has come. Own calls come before the streams of jobs if an id is both.
    ///
    /// A call begins its job and an ending is given to the job that asked, whatever they weigh. If jobs keep more than `hd_calls::MOST_WEIGHT`
    /// then, the end is also closed for `Reason::Flood`: this is told by the end's `state` alone.
    pub fn take(&mut self, alloc: Global, hub: &H, now: u64) -> Result<Option<Did>, PeerError>
        ensures ok { IfOk result (λ told. OfEach (meaning H.begin_of H.step_of) self.old (λ t h. Takes (meaning H.begin_of H.step_of) t h self.new now told)) }
        ensures refused { IfErr result (λ e. OfEach (meaning H.begin_of H.step_of) self.old (λ t h. IsUntaken (meaning H.begin_of H.step_of) t h self.new e)) }
        ensures turns { self.new.stalled ≡ self.old.stalled }
        ensures whole { self.new.jobs.prepared ≡ self.old.jobs.prepared }
    {
        let mut scratch = Scratch::new(alloc);
        self.take_in(alloc, &mut scratch, hub, now)
    }

    /// [`Peer::take`] for whoever serves many peers: the reader of JSON works in `scratch`, as [`End::next_in`](he_end::End::next_in) has it.
    /// What it holds counts for nothing, before and after, so one serves all peers of a thread.
    pub fn take_in(
        &mut self,
        alloc: Global,
        scratch: &mut Scratch,
        hub: &H,
        now: u64,
    ) -> Result<Option<Did>, PeerError>
        ensures ok { IfOk result (λ told. OfEach (meaning H.begin_of H.step_of) self.old (λ t h. Takes (meaning H.begin_of H.step_of) t h self.new now told)) }
        ensures refused { IfErr result (λ e. OfEach (meaning H.begin_of H.step_of) self.old (λ t h. IsUntaken (meaning H.begin_of H.step_of) t h self.new e)) }
        ensures turns { self.new.stalled ≡ self.old.stalled }
        ensures whole { self.new.jobs.prepared ≡ self.old.jobs.prepared }
    {
        wire_is_sound();
        if let Some(message) = self.waiting.take() {
            return Ok(Some(self.handle(alloc, hub, now, message)?));
        }
        match self.end.next_in(alloc, scratch) {
            Ok(None) => Ok(None),
            Ok(Some(got)) => match got {
                Got::Message(message) => Ok(Some(self.handle(alloc, hub, now, message)?)),
                got => Ok(Some(Did::Other(got))),
            },
            Err(error) => Err(refusal(error)),
        }
    }

    /// Handles a message. Out of memory it waits.
    fn handle(
        &mut self,
        alloc: Global,
        hub: &H,
        now: u64,
        message: Message,
    ) -> Result<Did, PeerError>
        requires none_waits { self.old.waiting ≡ None }
        ensures ok { IfOk result (HandlesAs (meaning H.begin_of H.step_of) self.old self.new now message) }
        ensures refused { IfErr result (Unhandles (meaning H.begin_of H.step_of) self.old self.new message) }
        ensures turns { self.new.stalled ≡ self.old.stalled }
        ensures whole { self.new.jobs.prepared ≡ self.old.jobs.prepared }
    {
        match message {
            Message::StreamItem { headers, id, item } => self.bring_item(headers, id, item),
            Message::Completion {
                headers,
                id,
                ending,
            } => self.bring_ending(headers, id, ending),
            Message::CancelInvocation { headers: _, id } => Ok(self.mark(id)),
            call => self.begin(alloc, hub, now, call),
        }
    }

    // ---- calls

    /// A call of the other side begins a job.
    fn begin(
        &mut self,
        alloc: Global,
        hub: &H,
        now: u64,
        message: Message,
    ) -> Result<Did, PeerError>
        requires none_waits { self.old.waiting ≡ None }
        ensures ok { IfOk result (λ told. (c : Invoked) → purpose_of message ≡ ToBegin c →
            HandlesAs (meaning H.begin_of H.step_of) self.old self.new now message told) }
        ensures refused { IfErr result (λ e. (c : Invoked) → purpose_of message ≡ ToBegin c →
            Unhandles (meaning H.begin_of H.step_of) self.old self.new message e) }
        ensures turns { self.new.stalled ≡ self.old.stalled }
        ensures whole { self.new.jobs.prepared ≡ self.old.jobs.prepared }
    {
        tables_agree();
        let Ok(found) = call_of(&message, &self.who) else {
            self.waiting = Some(message);
            return Err(PeerError::NoMemory);
        };
        let Some(call) = found else {
            return Ok(Did::Other(Got::Message(message)));
        };
        match self.jobs.accept(alloc, hub, call, now) {
            Ok(job) => {
                self.close_if_heavy();
                Ok(began(job, message))
            }
            Err(AcceptError::InUse(id)) => {
                self.end.close(Reason::InUse, false);
                Err(PeerError::InUse(id))
            }
            Err(AcceptError::TooMany) => {
                self.end.close(Reason::TooMany, false);
                Err(PeerError::TooMany)
            }
            Err(AcceptError::NoMemory) => {
                self.waiting = Some(message);
                Err(PeerError::NoMemory)
            }
        }
    }

    // ---- items

    /// An item is for the own Stream of its id or, if there is none, for the stream of a job.
    fn bring_item(&mut self, headers: Headers, id: Text, item: Value) -> Result<Did, PeerError>
        requires none_waits { self.old.waiting ≡ None }
        ensures ok { IfOk result (λ told. (now : ℕ) →
            HandlesAs (meaning H.begin_of H.step_of) self.old self.new now (message_of_kind.StreamItem headers id item) told) }
        ensures refused { IfErr result (Unhandles (meaning H.begin_of H.step_of) self.old self.new (message_of_kind.StreamItem headers id item)) }
        ensures turns { self.new.stalled ≡ self.old.stalled }
        ensures whole { self.new.jobs.prepared ≡ self.old.jobs.prepared }
    {
        tables_agree();
        ids_are_of_a_side();
        peers_are_bounded::<H::Job>();
        match self.calls.item(&id) {
            Ok(call) => Ok(Did::Item { call, value: item }),
            Err(UnknownId) => self.feed_item(headers, id, item),
        }
    }

    /// An item is for the stream of a job.
    fn feed_item(&mut self, headers: Headers, id: Text, item: Value) -> Result<Did, PeerError>
        requires none_waits { self.old.waiting ≡ None }
        ensures ok { IfOk result (FeedsAs (meaning H.begin_of H.step_of) self.old self.new (message_of_kind.StreamItem headers id item) id (Item item)) }
        ensures refused { IfErr result (Unfeeds (meaning H.begin_of H.step_of) self.old self.new (message_of_kind.StreamItem headers id item) id (Item item)) }
        ensures turns { self.new.stalled ≡ self.old.stalled }
        ensures whole { self.new.jobs.prepared ≡ self.old.jobs.prepared }
    {
        tables_agree();
        values_are_trees();
        let Ok(copy) = item.copy() else {
            self.waiting = Some(Message::StreamItem { headers, id, item });
            return Err(PeerError::NoMemory);
        };
        match self.jobs.item(&id, copy) {
            Ok(_) => Ok(Did::Fed(id)),
            Err(InputError::UnknownId) => Ok(Did::Unknown(id)),
            Err(InputError::Flood) => {
                self.end.close(Reason::Flood, false);
                Err(PeerError::Flood)
            }
            Err(InputError::NoMemory) => {
                self.waiting = Some(Message::StreamItem { headers, id, item });
                Err(PeerError::NoMemory)
            }
        }
    }

    // ---- endings

    /// An ending is for the own call of its id or, if there is none, for the stream of a job. The job that asked for the call is given it.
    fn bring_ending(&mut self, headers: Headers, id: Text, ending: Ending) -> Result<Did, PeerError>
        requires none_waits { self.old.waiting ≡ None }
        ensures ok { IfOk result (λ told. (now : ℕ) →
            HandlesAs (meaning H.begin_of H.step_of) self.old self.new now (message_of_kind.Completion headers id ending) told) }
        ensures refused { IfErr result (Unhandles (meaning H.begin_of H.step_of) self.old self.new (message_of_kind.Completion headers id ending)) }
        ensures turns { self.new.stalled ≡ self.old.stalled }
        ensures whole { self.new.jobs.prepared ≡ self.old.jobs.prepared }
    {
        tables_agree();
        ids_are_of_a_side();
        ids_are_drawn();
        peers_are_bounded::<H::Job>();
        let Ok(call) = self.calls.find(&id) else {
            return self.feed_end(headers, id, ending);
        };
        let Some(job) = self.asker(call) else {
            self.settle(call, &id);
            return Ok(Did::Ended { call, ending });
        };
        let Ok(copy) = ending.copy() else {
            self.waiting = Some(Message::Completion {
                headers,
                id,
                ending,
            });
            return Err(PeerError::NoMemory);
        };
        self.settle(call, &id);
        // A job that is over isn't told.
        let _answered = self.jobs.answer(job, Input::Asked(copy));
        self.close_if_heavy();
        Ok(Did::Ended { call, ending })
    }

    /// An ending is for the stream of a job.
    fn feed_end(&mut self, headers: Headers, id: Text, ending: Ending) -> Result<Did, PeerError>
        requires none_waits { self.old.waiting ≡ None }
        ensures ok { IfOk result (FeedsAs (meaning H.begin_of H.step_of) self.old self.new (message_of_kind.Completion headers id ending) id (Ends ending)) }
        ensures refused { IfErr result (Unfeeds (meaning H.begin_of H.step_of) self.old self.new (message_of_kind.Completion headers id ending) id (Ends ending)) }
        ensures turns { self.new.stalled ≡ self.old.stalled }
        ensures whole { self.new.jobs.prepared ≡ self.old.jobs.prepared }
    {
        tables_agree();
        let Ok(error) = error_of(&ending) else {
            self.waiting = Some(Message::Completion {
                headers,
                id,
                ending,
            });
            return Err(PeerError::NoMemory);
        };
        match self.jobs.stream_end(&id, error) {
            Ok(_) => Ok(Did::Fed(id)),
            Err(InputError::UnknownId) => Ok(Did::Unknown(id)),
            Err(InputError::Flood) => {
                self.end.close(Reason::Flood, false);
                Err(PeerError::Flood)
            }
            Err(InputError::NoMemory) => {
                self.waiting = Some(Message::Completion {
                    headers,
                    id,
                    ending,
                });
                Err(PeerError::NoMemory)
            }
        }
    }

    /// The job that asked for a call.
    fn asker(&self, call: u64) -> Option<u64>
        ensures { result ≡ get nat_eq self.now.jobs_by_call call }
    {
        self.jobs_by_call.get(&call).copied()
    }

    /// The live call of this number and id has ended.
    fn settle(&mut self, call: u64, id: &Text)
        ensures calls { of_calls.OfEach self.old.calls (λ prefix h. of_calls.IsLiveAs prefix h id.now call →
            (n : ℕ) × of_calls.Settles self.new.calls prefix h id.now n) }
        ensures jobs_by_call { (n : ℕ) → get nat_eq self.new.jobs_by_call n ≡ (if call == n then None else get nat_eq self.old.jobs_by_call n) }
        ensures others { self.new ≡ record self.old { calls = self.new.calls; jobs_by_call = self.new.jobs_by_call } }
    {
        let _settled = self.calls.settle(id);
        let _asker = self.jobs_by_call.swap_remove(&call);
    }

    // ---- what jobs keep

    /// The end is closed for a flood if jobs keep more than they may. A closed end stays as it is.
    fn close_if_heavy(&mut self)
        ensures closes { ClosesIfHeavy (meaning H.begin_of H.step_of) self.old.jobs self.old.end self.new.end }
        ensures limits { limits_of self.new.end ≡ limits_of self.old.end }
        ensures others { self.new ≡ record self.old { end = self.new.end } }
    {
        if self.jobs.weight() <= MOST_WEIGHT {
            return;
        }
        self.end.close(Reason::Flood, false);
    }

    // ---- cancellations

    /// The job of the call of this id is cancelled.
    fn mark(&mut self, id: Text) -> Did
        requires none_waits { self.old.waiting ≡ None }
        ensures told { (headers : List Header) (now : ℕ) →
            HandlesAs (meaning H.begin_of H.step_of) self.old self.new now (message_of_kind.CancelInvocation headers id) result }
        ensures turns { self.new.stalled ≡ self.old.stalled }
        ensures whole { self.new.jobs.prepared ≡ self.old.jobs.prepared }
    {
        tables_agree();
        match self.jobs.cancel(&id) {
            Ok(_) => Did::Cancelled(id),
            Err(UnknownId) => Did::Unknown(id),
        }
    }
}

// ---- messages

/// The call that a message makes, if it makes one.
fn call_of(message: &Message, who: &Text) -> Result<Option<Call>, AllocError>
    ensures { IfOk result (λ call. call ≡ call_to_begin who.now (purpose_of message.now)) }
{
    match message {
        Message::Invocation {
            headers: _,
            id: None,
            target,
            arguments,
            streams,
        } => Ok(Some(copy_call(None, CallKind::Notify, target, arguments, streams, who)?)),
        Message::Invocation {
            headers: _,
            id: Some(id),
            target,
            arguments,
            streams,
        } => Ok(Some(copy_call(
            Some(id.copy()?),
            CallKind::Call,
            target,
            arguments,
            streams,
            who,
        )?)),
        Message::StreamInvocation {
            headers: _,
            id,
            target,
            arguments,
            streams,
        } => Ok(Some(copy_call(
            Some(id.copy()?),
            CallKind::Stream,
            target,
            arguments,
            streams,
            who,
        )?)),
        Message::StreamItem { .. } => Ok(None),
        Message::Completion { .. } => Ok(None),
        Message::CancelInvocation { .. } => Ok(None),
        Message::Ping => Ok(None),
        Message::Close { .. } => Ok(None),
        Message::Ack { .. } => Ok(None),
        Message::Sequence { .. } => Ok(None),
    }
}

/// A call of copies of these parts.
fn copy_call(
    id: Option<Text>,
    kind: CallKind,
    target: &Text,
    arguments: &Items,
    streams: &Texts,
    who: &Text,
) -> Result<Call, AllocError>
    ensures { IfOk result (λ call. (call.id ≡ id) × (call.kind ≡ kind) × (call.target ≡ target.now) × (call.arguments ≡ arguments.now)
        × (call.streams ≡ streams.now) × (call.who ≡ who.now)) }
{
    Ok(Call {
        id,
        kind,
        target: target.copy()?,
        arguments: arguments.copy()?,
        streams: streams.copy()?,
        who: who.copy()?,
    })
}

/// What is told of the message of a call that began the job.
fn began(job: u64, message: Message) -> Did
    ensures { (c : Invoked) → purpose_of message ≡ ToBegin c → result ≡ told_of.Began job (id_of c.way) c.target c.arguments }
{
    match message {
        Message::Invocation {
            headers: _,
            id,
            target,
            arguments,
            streams: _,
        } => Did::Began {
            job,
            id,
            target,
            arguments,
        },
        Message::StreamInvocation {
            headers: _,
            id,
            target,
            arguments,
            streams: _,
        } => Did::Began {
            job,
            id: Some(id),
            target,
            arguments,
        },
        other => Did::Other(Got::Message(other)),
    }
}

/// A copy of the error with which a call or upload ends, if it does.
fn error_of(ending: &Ending) -> Result<Option<Text>, AllocError>
    ensures { IfOk result (λ error. error ≡ error_in ending.now) }
{
    match ending {
        Ending::Void => Ok(None),
        Ending::Result(_) => Ok(None),
        Ending::Error(text) => Ok(Some(text.copy()?)),
    }
}

/// The end's refusal, as it is told.
fn refusal(error: NextError) -> PeerError
    ensures { result ≡ of_next error }
{
    match error {
        NextError::NoMemory => PeerError::NoMemory,
        error => PeerError::Next(error),
    }
}
