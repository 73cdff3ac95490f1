//! The second half of a job's turn: what it did is said to its caller, or asked of the other side. All that takes memory comes first, so that
//! out of memory the turn never was.

ghost use Rattle.std.specs.Prelude.{◌≡◌, ◌<◌, ◌==◌, ℕ, true, false, [], Some, IfOk, OnOk, OnErr, nat_eq, option_map, if◌then◌else◌};
ghost use Rattle.std.specs.HashMap.{get, spare};
ghost use Rattle.hm_message.specs.declared.message.Message.TheVariants as messages;
ghost use Rattle.hm_message.specs.Message.{is_sequenced};
ghost use Rattle.he_end.specs.Stands.{limits_of};
ghost use Rattle.hd_calls.specs.declared.vocabulary.Act.TheVariants as acts;
ghost use Rattle.hj_jobs.specs.Meaning.{meaning};
ghost use Rattle.hp_peer.specs.Parts.{EndStays};
ghost use Rattle.hp_peer.specs.Stands.{OfEach, Stays};
ghost use Rattle.hp_peer.specs.Turning.{IsAnswered, IsCarriedOut, IsSaid, OfEachHalf, stream_id};

use crate::errors::AskError;
use crate::peer::Peer;
use hd_calls::{Act, CallKind, Input, REFUSAL_TEXT, frames_are_tested, tables_agree};
use he_end::SendError;
use hi_calls::ids_are_of_a_side;
use hj_jobs::{Hub, Stepped};
use hm_message::{Ending, Headers, Message, message_image_is_as_deep, values_are_trees};
use hv_value::{Items, Text, Value};
use std::alloc::{AllocError, Global};

impl<H: Hub> Peer<H> {
    /// What the job did is dealt with, and its turn is had.
    pub(crate) fn carry_out(&mut self, alloc: Global, stepped: &Stepped) -> Result<(), AllocError>
        ensures ok { OnOk result (OfEachHalf (meaning H.begin_of H.step_of) self.old stepped.now (λ now t h.
            IsCarriedOut (meaning H.begin_of H.step_of) t h self.new now stepped.now)) }
        ensures unchanged { OnErr result (Stays (meaning H.begin_of H.step_of) self.old self.new) }
        ensures turns { self.new.stalled ≡ self.old.stalled }
    {
        tables_agree();
        match &stepped.act {
            Act::Item(value) => self.say_item(alloc, stepped, value),
            Act::End(ending) => self.say_ending(alloc, stepped, ending),
            Act::Ask { target, arguments } => self.ask(alloc, stepped, target, arguments),
            Act::More => {
                self.jobs.commit(stepped);
                Ok(())
            }
            Act::Wait => {
                self.jobs.commit(stepped);
                Ok(())
            }
            Act::Do(_) => {
                self.jobs.commit(stepped);
                Ok(())
            }
        }
    }

    /// An item goes to the caller of a Stream. If it is too deep or too long, the last word goes in its place, and the job ends.
    fn say_item(
        &mut self,
        alloc: Global,
        stepped: &Stepped,
        value: &Value,
    ) -> Result<(), AllocError>
        ensures ok { OnOk result (stepped.now.act ≡ acts.Item value.now → OfEachHalf (meaning H.begin_of H.step_of) self.old stepped.now (λ now t h.
            IsCarriedOut (meaning H.begin_of H.step_of) t h self.new now stepped.now)) }
        ensures unchanged { OnErr result (Stays (meaning H.begin_of H.step_of) self.old self.new) }
        ensures turns { self.new.stalled ≡ self.old.stalled }
    {
        tables_agree();
        let Some(id) = streaming(stepped) else {
            self.jobs.commit(stepped);
            return Ok(());
        };
        let message = stream_item(alloc, id, value)?;
        if self.say_answer(alloc, id, &message)? {
            self.jobs.commit(stepped);
            return Ok(());
        }
        self.jobs.commit(stepped);
        self.jobs.end(stepped.job);
        Ok(())
    }

    /// The ending goes to the caller, if it wants one. If it is too deep or too long, the last word goes in its place.
    fn say_ending(
        &mut self,
        alloc: Global,
        stepped: &Stepped,
        ending: &Ending,
    ) -> Result<(), AllocError>
        ensures ok { OnOk result (stepped.now.act ≡ acts.End ending.now → OfEachHalf (meaning H.begin_of H.step_of) self.old stepped.now (λ now t h.
            IsCarriedOut (meaning H.begin_of H.step_of) t h self.new now stepped.now)) }
        ensures unchanged { OnErr result (Stays (meaning H.begin_of H.step_of) self.old self.new) }
        ensures turns { self.new.stalled ≡ self.old.stalled }
    {
        tables_agree();
        let Some(id) = &stepped.id else {
            self.jobs.commit(stepped);
            return Ok(());
        };
        let message = completion(alloc, id, ending.copy()?)?;
        self.say_answer(alloc, id, &message)?;
        self.jobs.commit(stepped);
        Ok(())
    }

    /// The other side is called for the job. If the call isn't made, the job is told that its ask was refused.
    fn ask(
        &mut self,
        alloc: Global,
        stepped: &Stepped,
        target: &Text,
        arguments: &Items,
    ) -> Result<(), AllocError>
        ensures ok { OnOk result (stepped.now.act ≡ acts.Ask target.now arguments.now → OfEachHalf (meaning H.begin_of H.step_of) self.old stepped.now (λ now t h.
            IsCarriedOut (meaning H.begin_of H.step_of) t h self.new now stepped.now)) }
        ensures unchanged { OnErr result (Stays (meaning H.begin_of H.step_of) self.old self.new) }
        ensures turns { self.new.stalled ≡ self.old.stalled }
    {
        tables_agree();
        ids_are_of_a_side();
        let refused = Ending::Error(Text::of(alloc, REFUSAL_TEXT)?);
        let target = target.copy()?;
        let arguments = arguments.copy()?;
        self.jobs_by_call.reserve(1)?;
        match self.call(alloc, CallKind::Call, target, arguments, 0) {
            Ok(number) => {
                self.note_asker(number, stepped.job);
                self.jobs.commit(stepped);
                Ok(())
            }
            Err(error) => {
                if !error.is_refusal() {
                    return Err(AllocError);
                }
                self.jobs.commit(stepped);
                let _answered = self.jobs.answer(stepped.job, Input::Asked(refused));
                Ok(())
            }
        }
    }

    /// Says an answer to the caller of this id or, if that is too deep or too long, the last word. True exactly if the answer itself is
    /// said.
    fn say_answer(&mut self, alloc: Global, id: &Text, answer: &Message) -> Result<bool, AllocError>
        requires { is_sequenced answer.now ≡ true }
        ensures ok { IfOk result (λ whole. OfEach (meaning H.begin_of H.step_of) self.old (λ t h. IsAnswered t h self.new id.now answer.now whole)) }
        ensures others { self.new ≡ record self.old { end = self.new.end } }
        ensures unchanged { OnErr result (EndStays self.old.end self.new.end) }
        ensures limits { limits_of self.new.end ≡ limits_of self.old.end }
    {
        if self.say_short(alloc, answer)? {
            return Ok(true);
        }
        let too_long = Ending::Error(Text::of(alloc, "The answer is too long.")?);
        let word = completion(alloc, id, too_long)?;
        self.say_short(alloc, &word)?;
        Ok(false)
    }

    /// Says a message, if it is neither too deep nor too long: whether it is said.
    fn say_short(&mut self, alloc: Global, message: &Message) -> Result<bool, AllocError>
        requires { is_sequenced message.now ≡ true }
        ensures ok { IfOk result (λ said. OfEach (meaning H.begin_of H.step_of) self.old (λ t h. IsSaid t h self.new message.now said)) }
        ensures others { self.new ≡ record self.old { end = self.new.end } }
        ensures unsaid { IfOk result (λ said. said ≡ false → EndStays self.old.end self.new.end) }
        ensures stays { OnErr result (EndStays self.old.end self.new.end) }
        ensures limits { limits_of self.new.end ≡ limits_of self.old.end }
    {
        frames_are_tested();
        message_image_is_as_deep();
        match self.say(alloc, message) {
            Ok(()) => Ok(true),
            Err(AskError::TooDeep) => Ok(false),
            Err(AskError::Send(SendError::TooLong { .. })) => Ok(false),
            // There is room for the largest frame while jobs have turns, so memory was out.
            Err(_) => Err(AllocError),
        }
    }

    /// The job asked for the live own call of this number. There is room for that.
    fn note_asker(&mut self, number: u64, job: u64)
        requires { 0 < spare self.old.jobs_by_call }
        ensures others { self.new ≡ record self.old { jobs_by_call = self.new.jobs_by_call } }
        ensures noted { (n : ℕ) → get nat_eq self.new.jobs_by_call n ≡ (if number == n then Some job else get nat_eq self.old.jobs_by_call n) }
    {
        match self.jobs_by_call.insert(number, job) {
            Ok(_) => {}
            Err(_) => unreachable!(),
        }
    }
}

/// The id of the job's call, if it is a Stream.
fn streaming(stepped: &Stepped) -> Option<&Text>
    ensures { option_map (λ id. id.now) result ≡ stream_id stepped.now.kind stepped.now.id }
{
    match stepped.kind {
        CallKind::Stream => stepped.id.as_ref(),
        CallKind::Notify => None,
        CallKind::Call => None,
    }
}

/// An item of a Stream, without headers.
fn stream_item(alloc: Global, id: &Text, value: &Value) -> Result<Message, AllocError>
    ensures { IfOk result (λ message. message ≡ messages.StreamItem [] id.now value.now) }
{
    values_are_trees();
    let id = id.copy()?;
    let item = value.copy()?;
    Ok(Message::StreamItem {
        headers: Headers::none(alloc),
        id,
        item,
    })
}

/// A completion of a call, without headers.
fn completion(alloc: Global, id: &Text, ending: Ending) -> Result<Message, AllocError>
    ensures { IfOk result (λ message. message ≡ messages.Completion [] id.now ending) }
{
    let id = id.copy()?;
    Ok(Message::Completion {
        headers: Headers::none(alloc),
        id,
        ending,
    })
}
