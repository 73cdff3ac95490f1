//! One live job: what it is given next, and its turn, which has two halves: the hub's step, and what is kept of it.

ghost use Rattle.std.specs.Prelude.{◌≡◌, ◌≤◌, None, Some, IfOk, OnErr, drop};
ghost use Rattle.hd_calls.specs.declared.vocabulary.Input.TheVariants.{Go};
ghost use Rattle.hd_calls.specs.Rules.{is_deed_answer};
ghost use Rattle.hd_calls.specs.Tables.{finishes};
ghost use Rattle.hj_jobs.specs.Counted.{input_count, most_counted};
ghost use Rattle.hj_jobs.specs.Entries.{PreparesOrNot, awaited, Begins, first_input, given_count, Gives, inputs_after, is_answer_to, is_due_entry, is_open_for, IsTurned, taken_count};
ghost use Rattle.hj_jobs.specs.Meaning.{meaning};

use crate::hub::Hub;
use crate::weight::{call_count, count_of, reply_count};
use hd_calls::{Act, Call, CallKind, Input};
use hm_message::Ending;
use hv_value::{Text, Texts};
use std::alloc::{AllocError, Global};
use std::collections::VecDeque;

/// What a live job awaits after its last act.
#[derive(Clone, Copy, Debug, PartialEq, Eq)]
pub enum Awaits {
    /// Its next turn: at the start, after `More` and after an item.
    Turn,
    /// Something of an upload.
    Upload,
    /// The end of the call for which it asked.
    CallEnd,
    /// What became of the deed that it handed up.
    Deed,
}

impl Awaits {
    /// What is awaited after an act. After the end nothing is.
    pub(crate) fn after(act: &Act) -> Awaits
        ensures { result ≡ awaited (Some act.now) }
    {
        match act {
            Act::Wait => Awaits::Upload,
            Act::Ask { .. } => Awaits::CallEnd,
            Act::Do(_) => Awaits::Deed,
            Act::More => Awaits::Turn,
            Act::Item(_) => Awaits::Turn,
            Act::End(_) => Awaits::Turn,
        }
    }
}

/// What is kept of a live job.
#[derive(Drop)]
pub struct Entry<J> {
    pub(crate) id: Option<Text>,
    pub(crate) kind: CallKind,
    /// The ids of the call's streams, whether they are open or not.
    pub(crate) streams: Texts,
    pub(crate) job: J,
    pub(crate) awaits: Awaits,
    /// What came from the uploads and wasn't given to the job, the oldest first.
    pub(crate) inputs: VecDeque<Input>,
    /// What has answered the job's last ask or deed.
    pub(crate) reply: Option<Input>,
    /// It was cancelled.
    pub(crate) is_cancelled: bool,
    /// What its call, the inputs that wait and the reply count together, each at most `weight::MOST_COUNTED`.
    pub(crate) weight: u64,
}

impl<J> Entry<J> {
    /// Whether it has a turn to come.
    pub(crate) fn is_due(&self) -> bool
        ensures { result ≡ is_due_entry self.now }
    {
        if self.is_cancelled {
            return true;
        }
        match self.awaits {
            Awaits::Turn => true,
            Awaits::Upload => !self.inputs.is_empty(),
            Awaits::CallEnd => self.reply.is_some(),
            Awaits::Deed => self.reply.is_some(),
        }
    }

    /// Whether the input answers what it awaits.
    pub(crate) fn is_answered_by(&self, input: &Input) -> bool
        ensures { result ≡ is_answer_to self.now.awaits input.now }
    {
        match self.awaits {
            Awaits::Turn => false,
            Awaits::Upload => false,
            Awaits::CallEnd => matches!(input, Input::Asked(_)),
            Awaits::Deed => answers_deed(input),
        }
    }

    /// Whether the input answers what it awaits, and nothing did before.
    pub(crate) fn is_open_for(&self, input: &Input) -> bool
        ensures { result ≡ is_open_for self.now input.now }
    {
        self.reply.is_none() && self.is_answered_by(input)
    }

    /// What is kept of a job that begins.
    pub(crate) fn begin(alloc: Global, call: Call, job: J) -> Entry<J>
        ensures { Begins result call job }
    {
        let weight = call_count(&call);
        Entry {
            id: call.id,
            kind: call.kind,
            streams: call.streams,
            job,
            awaits: Awaits::Turn,
            inputs: VecDeque::new(alloc),
            reply: None,
            is_cancelled: false,
            weight,
        }
    }

    /// The hub's part of its turn, if it has one to come: what it does. The mark of a cancelled job is its end. Of what is kept only the
    /// job itself changes, until `turned` follows.
    pub(crate) fn prepare<H: Hub<Job = J>>(
        &mut self,
        alloc: Global,
        hub: &H,
        now: u64,
    ) -> Result<Option<Act>, AllocError>
        ensures ok { IfOk result (λ what. PreparesOrNot (meaning H.begin_of H.step_of) self.old self.new now what) }
        ensures unchanged { OnErr result (self.new ≡ self.old) }
    {
        if self.is_cancelled {
            return Ok(Some(Act::End(Ending::Void)));
        }
        match self.awaits {
            Awaits::Turn => self.give_go(alloc, hub, now),
            Awaits::Upload => self.give_input(alloc, hub, now),
            Awaits::CallEnd => self.give_reply(alloc, hub, now),
            Awaits::Deed => self.give_reply(alloc, hub, now),
        }
    }

    /// The job goes on.
    fn give_go<H: Hub<Job = J>>(
        &mut self,
        alloc: Global,
        hub: &H,
        now: u64,
    ) -> Result<Option<Act>, AllocError>
        ensures ok { IfOk result (λ what. Gives (meaning H.begin_of H.step_of) self.old self.new now (Some Go) what) }
        ensures unchanged { OnErr result (self.new ≡ self.old) }
    {
        match hub.step(alloc, &mut self.job, &Input::Go, now) {
            Ok(act) => Ok(Some(act)),
            Err(error) => Err(error),
        }
    }

    /// The job is given the oldest input of its uploads that waits, if there is one. It stays among those that wait.
    fn give_input<H: Hub<Job = J>>(
        &mut self,
        alloc: Global,
        hub: &H,
        now: u64,
    ) -> Result<Option<Act>, AllocError>
        ensures ok { IfOk result (λ what.
            Gives (meaning H.begin_of H.step_of) self.old self.new now (first_input self.old.inputs.items) what) }
        ensures unchanged { OnErr result (self.new ≡ self.old) }
    {
        let Some(input) = self.inputs.front() else {
            return Ok(None);
        };
        match hub.step(alloc, &mut self.job, input, now) {
            Ok(act) => Ok(Some(act)),
            Err(error) => Err(error),
        }
    }

    /// The job is given what has answered it, if something has.
    fn give_reply<H: Hub<Job = J>>(
        &mut self,
        alloc: Global,
        hub: &H,
        now: u64,
    ) -> Result<Option<Act>, AllocError>
        ensures ok { IfOk result (λ what. Gives (meaning H.begin_of H.step_of) self.old self.new now self.old.reply what) }
        ensures unchanged { OnErr result (self.new ≡ self.old) }
    {
        let Some(input) = &self.reply else {
            return Ok(None);
        };
        match hub.step(alloc, &mut self.job, input, now) {
            Ok(act) => Ok(Some(act)),
            Err(error) => Err(error),
        }
    }

    /// The rest of its turn, at which it did this: what it was given is gone, and it awaits what the act asks for.
    pub(crate) fn turned(&mut self, act: &Act)
        ensures { IsTurned act.now self.old self.new }
    {
        self.weight = self.weight.saturating_sub(self.taken_count());
        self.take_given();
        self.awaits = Awaits::after(act);
        forget(&mut self.reply);
    }

    /// What leaves with its turn counts: what it was given, and what has answered it.
    fn taken_count(&self) -> u64
        ensures { result ≡ taken_count self.now }
    {
        let given = self.given_count();
        let reply = reply_count(&self.reply);
        given + reply
    }

    /// What the oldest input of its uploads counts, if that is what it awaits.
    fn given_count(&self) -> u64
        ensures exact { result ≡ given_count self.now.awaits self.now.inputs.items }
        ensures bound { result ≤ most_counted }
    {
        match self.awaits {
            Awaits::Upload => oldest_count(&self.inputs),
            Awaits::Turn => 0,
            Awaits::CallEnd => 0,
            Awaits::Deed => 0,
        }
    }

    /// The oldest input of its uploads is gone, if that is what it awaited.
    fn take_given(&mut self)
        ensures inputs { self.new.inputs.items ≡ inputs_after self.old.awaits self.old.inputs.items }
        ensures others { self.new ≡ record self.old { inputs = self.new.inputs } }
    {
        match self.awaits {
            Awaits::Upload => take_oldest(&mut self.inputs),
            Awaits::Turn => {}
            Awaits::CallEnd => {}
            Awaits::Deed => {}
        }
    }
}

fn oldest_count(inputs: &VecDeque<Input>) -> u64
    ensures exact { result ≡ input_count (first_input inputs.now.items) }
    ensures bound { result ≤ most_counted }
{
    match inputs.front() {
        Some(input) => count_of(input),
        None => 0,
    }
}

fn take_oldest(inputs: &mut VecDeque<Input>)
    ensures { inputs.new.items ≡ drop 1 inputs.old.items }
{
    inputs.pop_front();
}

fn forget(reply: &mut Option<Input>)
    ensures { reply.new ≡ None }
{
    *reply = None;
}

/// Whether the input answers a deed.
fn answers_deed(input: &Input) -> bool
    ensures { result ≡ is_deed_answer input.now }
{
    match input {
        Input::Done(_) => true,
        Input::Failed => true,
        Input::Go => false,
        Input::Item { .. } => false,
        Input::StreamEnd { .. } => false,
        Input::Asked(_) => false,
    }
}

/// Whether a job ends with the act.
pub(crate) fn finishes(act: &Act) -> bool
    ensures { result ≡ finishes act.now }
{
    match act {
        Act::End(_) => true,
        Act::More => false,
        Act::Wait => false,
        Act::Item(_) => false,
        Act::Ask { .. } => false,
        Act::Do(_) => false,
    }
}
