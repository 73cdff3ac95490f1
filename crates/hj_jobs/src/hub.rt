//! What a hub is: methods that the other side may call. Whoever writes a hub writes this trait, and nothing else of this crate
//! matters to him.

ghost use Rattle.std.specs.Prelude.{◌≡◌, ℕ, IfOk, OnErr};
ghost use Rattle.hd_calls.specs.declared.vocabulary.Act.{Act as ActMeant};
ghost use Rattle.hd_calls.specs.declared.vocabulary.Call.{Call as CallMeant};
ghost use Rattle.hd_calls.specs.declared.vocabulary.Input.{Input as InputMeant};

use hd_calls::{Act, Call, Input};
use std::alloc::{AllocError, Global};

/// The methods that can be called at this side. A call begins a job, which has turns: at each it is given an input, and says what it
/// does. The two ghost members are what the methods mean, and the two functions compute them.
///
/// A turn is to be short, since nobody else has one meanwhile: a long method is one of many turns.
pub trait Hub {
    /// What is remembered of a call between its turns.
    type Job: Drop;

    /// The job that a call begins at a moment, in milliseconds.
    ghost begin_of: { CallMeant → ℕ → Self.Job };

    /// What a job becomes that is given an input at a moment, and what it does.
    ghost step_of: { Self.Job → InputMeant → ℕ → Self.Job × ActMeant };

    /// Begins a job. There is always one: that of an unknown method ends with an error at its first turn.
    fn begin(&self, alloc: Global, call: &Call, now: u64) -> Result<Self::Job, AllocError>
        ensures { IfOk result (λ job. job ≡ begin_of call.now now) };

    /// Gives a job its turn. A job that has ended is never given one. Out of memory the job is as before.
    fn step(
        &self,
        alloc: Global,
        job: &mut Self::Job,
        input: &Input,
        now: u64,
    ) -> Result<Act, AllocError>
        ensures stepped { IfOk result (λ act. (job.new, act) ≡ step_of job.old input.now now) }
        ensures unchanged { OnErr result (job.new ≡ job.old) };
}
