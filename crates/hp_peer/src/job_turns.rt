//! What a peer's jobs want: their rounds and turns, and answers to the deeds that they hand up.

ghost use Rattle.std.specs.Prelude.{◌≡◌, ◌==◌, ◌↔◌, ◌∷◌, true, false, IfOk, IsErr, IsTrue, OnOk, OnErr, option_map};
ghost use Rattle.hd_calls.specs.Peers.{Rounds, is_shut};
ghost use Rattle.hd_calls.specs.Rules.{IsPeerDue, MayTurn, passed};
ghost use Rattle.hj_jobs.specs.Meaning.{meaning};
ghost use Rattle.hp_peer.specs.Stands.{OfEach, Stands, Stays};
ghost use Rattle.hp_peer.specs.Turning.{HasAnswered, HasTurned, IsUnanswerable, Turns, TurnsSome, turned_with};

use crate::peer::Peer;
use hd_calls::{Act, Deed, Input, UnknownId, tables_agree};
use hd_delivery::{MOST_FRAMING, MOST_MESSAGES, State, numbers_are_named};
use hj_jobs::{Hub, Stepped};
use std::alloc::{AllocError, Global};

/// What became of a turn.
#[derive(Drop)]
pub(crate) enum Turned {
    /// No job has one now.
    Nobody,
    /// A job had it, and what it did is dealt with.
    Had,
    /// The job of this number had it, and handed up a deed.
    HandedUp(u64, Deed),
}

impl<H: Hub> Peer<H> {
    /// A round begins, in which each job that is due has one turn.
    pub fn begin_round(&mut self)
        ensures begins { OfEach (meaning H.begin_of H.step_of) self.old (λ t h. Stands (meaning H.begin_of H.step_of) t self.new (Rounds ∷ h)) }
        ensures turns { self.new.stalled ≡ self.old.stalled }
        ensures end { self.new.end ≡ self.old.end }
    {
        self.jobs.begin_round();
    }

    /// Answers the deed that a job handed up, with `Done` or `Failed`, once. Nothing else is answered by this call: the ending of the call
    /// for which a job asked comes from the other side.
    pub fn answer(&mut self, job: u64, input: Input) -> Result<(), UnknownId>
        ensures ok { OnOk result (OfEach (meaning H.begin_of H.step_of) self.old (λ t h. HasAnswered (meaning H.begin_of H.step_of) t h self.new job input)) }
        ensures unknown { OnErr result (OfEach (meaning H.begin_of H.step_of) self.old (λ t h. IsUnanswerable t h job input)) }
        ensures unchanged { OnErr result (self.new ≡ self.old) }
        ensures turns { self.new.stalled ≡ self.old.stalled }
    {
        tables_agree();
        match input {
            Input::Done(value) => self.jobs.answer(job, Input::Done(value)),
            Input::Failed => self.jobs.answer(job, Input::Failed),
            Input::Go => Err(UnknownId),
            Input::Item { .. } => Err(UnknownId),
            Input::StreamEnd { .. } => Err(UnknownId),
            Input::Asked(_) => Err(UnknownId),
        }
    }

    /// Whether a round that begins now would give some job a turn.
    pub fn due(&self) -> bool
        ensures { OfEach (meaning H.begin_of H.step_of) self.now (λ t h. IsTrue result ↔ IsPeerDue t h) }
    {
        tables_agree();
        if !self.may_turn() {
            return false;
        }
        self.jobs.due()
    }

    /// Whether no job has had a turn since the last round began.
    pub fn at_start(&self) -> bool
        ensures { OfEach (meaning H.begin_of H.step_of) self.now (λ t h. result ≡ (passed h == 0)) }
    {
        tables_agree();
        self.jobs.at_start()
    }

    /// Jobs have their turns in this round, one after the other, until one hands up a deed, which is told with the job's number. What the others
    /// say is sent, and what they ask for is called. None if no job has a turn: the round is over, or jobs may not have turns. Out of memory
    /// the jobs before have had their turns, and no job has another: each call from then on answers so.
    pub fn step_job(
        &mut self,
        alloc: Global,
        hub: &H,
        now: u64,
    ) -> Result<Option<(u64, Deed)>, AllocError>
        ensures ok { IfOk result (λ deed. OfEach (meaning H.begin_of H.step_of) self.old (λ t h.
            Turns (meaning H.begin_of H.step_of) t h self.new now deed)) }
        ensures failed { OnErr result (OfEach (meaning H.begin_of H.step_of) self.old (λ t h.
            TurnsSome (meaning H.begin_of H.step_of) t h self.new now)) }
        ensures goes_on { OnOk result (self.new.stalled ≡ false) }
        ensures stalls { OnErr result (self.new.stalled ≡ true) }
        ensures stalled { self.old.stalled ≡ true → IsErr result }
        ensures rests { self.old.stalled ≡ true → self.new ≡ self.old }
    {
        if self.stalled {
            return Err(AllocError);
        }
        tables_agree();
        // Each turn takes the round past one job more, so after as many turns as there are jobs none is left.
        let jobs = self.jobs.accepted();
        for _turn in 0..jobs {
            match self.turn(alloc, hub, now) {
                Ok(Turned::Had) => {}
                Ok(Turned::Nobody) => return Ok(None),
                Ok(Turned::HandedUp(job, deed)) => return Ok(Some((job, deed))),
                Err(error) => {
                    self.stalled = true;
                    return Err(error);
                }
            }
        }
        Ok(None)
    }

    /// The next job of the round has its turn, if jobs may have turns.
    fn turn(&mut self, alloc: Global, hub: &H, now: u64) -> Result<Turned, AllocError>
        ensures ok { IfOk result (λ turned. OfEach (meaning H.begin_of H.step_of) self.old (λ t h.
            HasTurned (meaning H.begin_of H.step_of) t h self.new now turned)) }
        ensures unchanged { OnErr result (Stays (meaning H.begin_of H.step_of) self.old self.new) }
        ensures turns { self.new.stalled ≡ self.old.stalled }
    {
        tables_agree();
        let room = self.may_turn();
        let Some(stepped) = self.jobs.prepare(alloc, hub, now, room)? else {
            return Ok(Turned::Nobody);
        };
        self.carry_out(alloc, &stepped)?;
        Ok(turned_with(stepped))
    }

    /// Whether jobs may have turns: the end isn't closed, has room for the largest frame, and has a number for a message.
    fn may_turn(&self) -> bool
        ensures { OfEach (meaning H.begin_of H.step_of) self.now (λ t h. IsTrue result ↔ MayTurn t h) }
    {
        numbers_are_named();
        if self.is_shut() {
            return false;
        }
        let largest = self.end.limits().frame() + MOST_FRAMING;
        if !self.end.room(largest) {
            return false;
        }
        self.end.sent_count() < MOST_MESSAGES
    }

    /// Whether the end is closed.
    fn is_shut(&self) -> bool
        ensures { OfEach (meaning H.begin_of H.step_of) self.now (λ t h. result ≡ is_shut t h) }
    {
        match self.end.state() {
            State::Closed => true,
            State::Opening => false,
            State::Ready => false,
            State::Away => false,
        }
    }
}

/// What became of a turn that is carried out.
fn turned_with(stepped: Stepped) -> Turned
    ensures { result ≡ turned_with stepped.job stepped.act }
{
    let Stepped { job, act, .. } = stepped;
    match act {
        Act::Do(deed) => Turned::HandedUp(job, deed),
        Act::More => Turned::Had,
        Act::Wait => Turned::Had,
        Act::Item(_) => Turned::Had,
        Act::End(_) => Turned::Had,
        Act::Ask { .. } => Turned::Had,
    }
}
