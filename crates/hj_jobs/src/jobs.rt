//! The table of jobs: what happens to each, and whose turn it is.

ghost use Rattle.std.specs.Prelude.{◌≡◌, ◌==◌, ◌↔◌, ◌<◌, ◌≤◌, ◌+◌, ℕ, List, ◌∷◌, [], length, true, false, IfErr, IfOk, IsErr, IsTrue, OnErr, OnOk};
ghost use Rattle.hm_message.specs.declared.message.Ending.{Ending as EndingMeant};
ghost use Rattle.hd_calls.specs.Hubs.{End, error_in, Invoked, Item};
ghost use Rattle.hd_calls.specs.Numbers.{most_inputs, most_live, most_weight};
ghost use Rattle.hd_calls.specs.Weights.{input_weight};
ghost use Rattle.hd_calls.specs.Tables.{begun_in, Ended, JobHappening, kept_weight_in, live_job_in, live_jobs_in, passed_in, Replied, Round, Turned};
ghost use Rattle.hj_jobs.specs.Meaning.{meaning};
ghost use Rattle.hj_jobs.specs.Stands.{Stands};
ghost use Rattle.hj_jobs.specs.Calls.{Accepts, Answers, AtPlace, PreparesOrNot, AwaitsAnswer, Feeds, HasPrepared, IsCallOf, IsDead, IsRefusedIn, IsUnfed, IsUnmarkable, Marks, Measures, OfEach, SomeIsDue, Stays, StepsOrNot};
ghost use Rattle.hj_jobs.specs.Counted.{counted};
ghost use Rattle.hj_jobs.specs.Laws.{AreFew};
ghost use Rattle.hj_jobs.specs.Live.{entry_at, HasRoom, IsFed, live_count, waits_at};
ghost use Rattle.hj_jobs.specs.Parts.{Agrees, Changes, Drops, Enters, HasRoomForOne, IsFloodOr, IsFullOr, IsRoomier, KeepsFed};

use crate::entry::{Entry, finishes};
use crate::errors::{AcceptError, InputError};
use crate::hub::Hub;
use crate::ids::Ids;
use crate::live::{Live, Stepped};
use crate::weight::count_of;
use hd_calls::{Call, Input, MOST_INPUTS, MOST_LIVE, MOST_WEIGHT, UnknownId};
use hv_value::{SortedSet, Text, Value};
use std::alloc::{AllocError, Global};

/// The live jobs of a hub.
///
/// What it is told: `accept`, `item`, `stream_end`, `cancel`, `answer`, `end`. What it does: `begin_round`, and `step` or its two halves,
/// `prepare` and `finish`. `cancel`, `answer`, `end`, `begin_round` and `finish` take no memory.
#[derive(Drop)]
pub struct Jobs<H: Hub> {
    live: Live<H::Job>,
    names: Ids,
    due: SortedSet,
    /// How many were accepted, which is the number of the latest.
    accepted: u64,
    /// The number of the job that had the latest turn of the round, or 0.
    passed: u64,
    /// A job had the first half of its turn and not the second.
    prepared: bool,
}

impl<H: Hub> Jobs<H> {
    /// No jobs.
    pub fn start(alloc: Global) -> Result<Jobs<H>, AllocError>
        ensures stands { IfOk result (λ jobs. (who : List ℕ) → Stands (meaning H.begin_of H.step_of) jobs who []) }
        ensures fresh { IfOk result (λ jobs. jobs.prepared ≡ false) }
    {
        Ok(Jobs {
            live: Live::start(alloc),
            names: Ids::start(alloc),
            due: SortedSet::start(alloc),
            accepted: 0,
            passed: 0,
            prepared: false,
        })
    }

    /// How many jobs are live: at most `hd_calls::MOST_LIVE`. At most `hd_calls::MOST_INPUTS` inputs wait at each.
    pub fn live(&self) -> u64
        ensures count { OfEach (meaning H.begin_of H.step_of) self.now (λ who h. result ≡ live_jobs_in h) }
        ensures limits { OfEach (meaning H.begin_of H.step_of) self.now (λ who h. AreFew h) }
    {
        self.live.len() as u64
    }

    /// How many jobs were accepted, which is the number of the latest.
    pub fn accepted(&self) -> u64
        ensures { OfEach (meaning H.begin_of H.step_of) self.now (λ who h. result ≡ length (begun_in h)) }
    {
        self.accepted
    }

    /// What is kept for the live jobs weighs this many bytes, by the weights of `hd_calls`: their calls, the inputs that wait at them and
    /// the answers to their asks. Up to `hd_calls::MOST_WEIGHT` it is exact. Past it, which one call or answer may bring about, only that
    /// it is more is told.
    pub fn weight(&self) -> u64
        ensures { OfEach (meaning H.begin_of H.step_of) self.now (λ who h. Measures result (kept_weight_in h)) }
    {
        self.live.weight()
    }

    // ---- what it is told

    /// A call begins a job, whatever it weighs: its number, from 1 in order of acceptance.
    pub fn accept(
        &mut self,
        alloc: Global,
        hub: &H,
        call: Call,
        now: u64,
    ) -> Result<u64, AcceptError>
        ensures ok { IfOk result (λ number. OfEach (meaning H.begin_of H.step_of) self.old (λ who h.
            (c : Invoked) → IsCallOf who call c → Accepts (meaning H.begin_of H.step_of) self.new who h c now number)) }
        ensures refused { IfErr result (λ e. OfEach (meaning H.begin_of H.step_of) self.old (λ who h.
            (c : Invoked) → IsCallOf who call c → IsRefusedIn h c e)) }
        ensures unchanged { OnErr result (Stays (meaning H.begin_of H.step_of) self.old self.new) }
        ensures fresh { self.new.prepared ≡ self.old.prepared }
    {
        if self.accepted == u64::MAX {
            return Err(AcceptError::NoMemory);
        }
        let number = self.accepted + 1;
        self.names.claim(number, &call.id, call.streams.texts())?;
        match self.begin(alloc, hub, &call, now) {
            Ok(job) => {
                self.enter(alloc, number, call, job);
                Ok(number)
            }
            Err(error) => {
                self.names.release(number, &call.id, call.streams.texts());
                Err(error)
            }
        }
    }

    /// An item came on a stream: the number of the job whose upload it is.
    pub fn item(&mut self, stream: &Text, value: Value) -> Result<u64, InputError>
        ensures ok { IfOk result (λ number. OfEach (meaning H.begin_of H.step_of) self.old (λ who h.
            Feeds (meaning H.begin_of H.step_of) self.new who h stream.now (Item value) number)) }
        ensures refused { IfErr result (λ e. OfEach (meaning H.begin_of H.step_of) self.old (λ who h.
            IsUnfed h stream.now (Item value) e)) }
        ensures unchanged { OnErr result (Stays (meaning H.begin_of H.step_of) self.old self.new) }
        ensures fresh { self.new.prepared ≡ self.old.prepared }
    {
        let Some(found) = self.names.stream(stream) else {
            return Err(InputError::UnknownId);
        };
        let input = Input::Item {
            which: found.which,
            value,
        };
        self.feed(found.job, input)?;
        Ok(found.job)
    }

    /// A stream ended, with an error or without. A result with which it ends is no error.
    pub fn stream_end(&mut self, stream: &Text, error: Option<Text>) -> Result<u64, InputError>
        ensures ok { IfOk result (λ number. OfEach (meaning H.begin_of H.step_of) self.old (λ who h.
            (e : EndingMeant) → error_in e ≡ error → Feeds (meaning H.begin_of H.step_of) self.new who h stream.now (End e) number)) }
        ensures refused { IfErr result (λ why. OfEach (meaning H.begin_of H.step_of) self.old (λ who h.
            (e : EndingMeant) → error_in e ≡ error → IsUnfed h stream.now (End e) why)) }
        ensures unchanged { OnErr result (Stays (meaning H.begin_of H.step_of) self.old self.new) }
        ensures fresh { self.new.prepared ≡ self.old.prepared }
    {
        let Some(found) = self.names.stream(stream) else {
            return Err(InputError::UnknownId);
        };
        let input = Input::StreamEnd {
            which: found.which,
            error,
        };
        self.feed(found.job, input)?;
        self.names.close(stream);
        Ok(found.job)
    }

    /// The job's ask or deed is answered. An ask is answered by `Asked`, a deed by `Done` or `Failed`, each once.
    pub fn answer(&mut self, job: u64, input: Input) -> Result<(), UnknownId>
        ensures ok { OnOk result (OfEach (meaning H.begin_of H.step_of) self.old (λ who h.
            Answers (meaning H.begin_of H.step_of) self.new who h job input)) }
        ensures unknown { OnErr result (OfEach (meaning H.begin_of H.step_of) self.old (λ who h. AtPlace job (λ j.
            AwaitsAnswer h j input → ⊥))) }
        ensures unchanged { OnErr result (self.new ≡ self.old) }
        ensures fresh { self.new.prepared ≡ self.old.prepared }
    {
        if !self.live.awaits(job, &input) {
            return Err(UnknownId);
        }
        self.live.answer(job, input);
        self.agree(job);
        Ok(())
    }

    /// A call was cancelled: its job's next turn is its end. The number of the job.
    pub fn cancel(&mut self, id: &Text) -> Result<u64, UnknownId>
        ensures ok { IfOk result (λ number. OfEach (meaning H.begin_of H.step_of) self.old (λ who h.
            Marks (meaning H.begin_of H.step_of) self.new who h id.now number)) }
        ensures unknown { OnErr result (OfEach (meaning H.begin_of H.step_of) self.old (λ who h. IsUnmarkable h id.now)) }
        ensures unchanged { OnErr result (self.new ≡ self.old) }
        ensures fresh { self.new.prepared ≡ self.old.prepared }
    {
        let Some(job) = self.names.job(id) else {
            return Err(UnknownId);
        };
        if !self.live.is_unmarked(job) {
            return Err(UnknownId);
        }
        self.live.mark(job);
        self.agree(job);
        Ok(job)
    }

    /// A live job ends at once, without a turn. If it isn't live, nothing changes.
    pub fn end(&mut self, job: u64)
        ensures ended { OfEach (meaning H.begin_of H.step_of) self.old (λ who h. AtPlace job (λ j.
            live_job_in j h ≡ true → Stands (meaning H.begin_of H.step_of) self.new who (Ended j ∷ h))) }
        ensures otherwise { OfEach (meaning H.begin_of H.step_of) self.old (λ who h.
            IsDead h job → Stands (meaning H.begin_of H.step_of) self.new who h) }
        ensures fresh { self.new.prepared ≡ self.old.prepared }
    {
        self.drop_job(job);
    }

    // ---- what it does

    /// A round begins, in which each job that is due has one turn.
    pub fn begin_round(&mut self)
        ensures begins { OfEach (meaning H.begin_of H.step_of) self.old (λ who h. Stands (meaning H.begin_of H.step_of) self.new who (Round ∷ h)) }
        ensures fresh { self.new.prepared ≡ self.old.prepared }
    {
        self.passed = 0;
    }

    /// The next job that is due in this round has its turn, if there is room for what it does. None if no such job is left. Out of memory
    /// no job had a turn, which is answered too if a turn is halfway.
    pub fn step(
        &mut self,
        alloc: Global,
        hub: &H,
        now: u64,
        room: bool,
    ) -> Result<Option<Stepped>, AllocError>
        ensures ok { IfOk result (λ stepped. OfEach (meaning H.begin_of H.step_of) self.old (λ who h.
            StepsOrNot (meaning H.begin_of H.step_of) self.new who h now room stepped)) }
        ensures stalled { self.old.prepared ≡ true → IsErr result }
        ensures unchanged { OnErr result (Stays (meaning H.begin_of H.step_of) self.old self.new) }
    {
        let Some(stepped) = self.prepare(alloc, hub, now, room)? else {
            return Ok(None);
        };
        self.commit(&stepped);
        Ok(Some(stepped))
    }

    /// The first half of a turn: the hub's step. Whoever has to send what a job does calls this, sends it, and then calls `finish`. If it
    /// can't be sent for lack of memory, `finish` isn't called: the turn never was, and no job has another, since its hub is ahead.
    pub fn prepare(
        &mut self,
        alloc: Global,
        hub: &H,
        now: u64,
        room: bool,
    ) -> Result<Option<Stepped>, AllocError>
        ensures ok { IfOk result (λ stepped. OfEach (meaning H.begin_of H.step_of) self.old (λ who h.
            PreparesOrNot (meaning H.begin_of H.step_of) self.new who h now room stepped)) }
        ensures stalled { self.old.prepared ≡ true → IsErr result }
        ensures unchanged { OnErr result (Stays (meaning H.begin_of H.step_of) self.old self.new) }
    {
        if self.prepared {
            return Err(AllocError);
        }
        if !room {
            return Ok(None);
        }
        let Some(job) = self.due.next(self.passed) else {
            return Ok(None);
        };
        let Some(stepped) = self.live.prepare(alloc, hub, job, now)? else {
            return Ok(None);
        };
        self.prepared = true;
        Ok(Some(stepped))
    }

    /// The second half of the turn that `prepare` gave. It takes no memory. If no turn is halfway, nothing changes.
    pub fn commit(&mut self, stepped: &Stepped)
        ensures turned { (who : List ℕ) (h : List JobHappening) (now : ℕ)
            (a : HasPrepared (meaning H.begin_of H.step_of) self.old who h now stepped.now) →
            Stands (meaning H.begin_of H.step_of) self.new who (Turned a.job a.turn stepped.now.act ∷ h) }
        ensures whole { self.new.prepared ≡ false }
        ensures otherwise { self.old.prepared ≡ false → self.new ≡ self.old }
    {
        if !self.prepared {
            return;
        }
        self.prepared = false;
        self.passed = stepped.job;
        if finishes(&stepped.act) {
            self.drop_job(stepped.job);
            return;
        }
        self.live.turned(stepped.job, &stepped.act);
        self.agree(stepped.job);
    }

    /// Whether no job has had a turn since the last round began.
    pub fn at_start(&self) -> bool
        ensures { OfEach (meaning H.begin_of H.step_of) self.now (λ who h. result ≡ (passed_in h == 0)) }
    {
        self.passed == 0
    }

    /// Whether a round that begins now would give some job a turn.
    pub fn due(&self) -> bool
        ensures { OfEach (meaning H.begin_of H.step_of) self.now (λ who h. IsTrue result ↔ SomeIsDue h) }
    {
        !self.due.is_empty()
    }

    // ---- parts of these

    /// The job of a call whose ids are claimed, with room in the table for it.
    fn begin(
        &mut self,
        alloc: Global,
        hub: &H,
        call: &Call,
        now: u64,
    ) -> Result<H::Job, AcceptError>
        ensures ok { IfOk result (λ job. job ≡ H.begin_of call.now now) }
        ensures room { OnOk result (HasRoomForOne self.new) }
        ensures few { OnOk result (live_count self.old.live < most_live) }
        ensures refused { IfErr result (λ e. IsFullOr (live_count self.old.live) e) }
        ensures unchanged { IsRoomier self.old self.new }
    {
        if self.live.len() as u64 >= MOST_LIVE {
            return Err(AcceptError::TooMany);
        }
        self.live.reserve()?;
        self.due.reserve(self.live.len() + 1)?;
        Ok(hub.begin(alloc, call, now)?)
    }

    /// A job is entered, for which there is room.
    fn enter(&mut self, alloc: Global, number: u64, call: Call, job: H::Job)
        requires { HasRoom self.old.live }
        ensures { Enters self.old self.new number call job }
    {
        self.live.insert(number, Entry::begin(alloc, call, job));
        self.due.add(number);
        self.accepted = number;
    }

    /// Something came from an upload of a job.
    fn feed(&mut self, job: u64, input: Input) -> Result<(), InputError>
        ensures ok { OnOk result (Changes self.old self.new job (IsFed (input ∷ []))) }
        ensures few { OnOk result (waits_at (entry_at self.old.live job) < most_inputs) }
        ensures light { OnOk result (self.old.live.weight + counted (input_weight input) ≤ most_weight) }
        ensures refused { IfErr result (λ e.
            IsFloodOr (waits_at (entry_at self.old.live job)) (self.old.live.weight + counted (input_weight input)) e) }
        ensures unchanged { OnErr result (KeepsFed self.old self.new job) }
    {
        if self.live.waiting(job) as u64 >= MOST_INPUTS {
            return Err(InputError::Flood);
        }
        let count = count_of(&input);
        if self.live.weight().saturating_add(count) > MOST_WEIGHT {
            return Err(InputError::Flood);
        }
        self.live.feed(job, input, count)?;
        self.agree(job);
        Ok(())
    }

    /// The job is among those that are due exactly if it is due.
    fn agree(&mut self, job: u64)
        ensures { Agrees self.old self.new job }
    {
        if self.live.is_due(job) {
            self.due.add(job);
            return;
        }
        self.due.remove(job);
    }

    /// The job isn't live any more, its ids are free, and it isn't due.
    fn drop_job(&mut self, job: u64)
        ensures { Drops self.old self.new job }
    {
        self.due.remove(job);
        if let Some(entry) = self.live.remove(job) {
            self.names.release(job, &entry.id, entry.streams.texts());
        }
    }
}
