//! The rooms hub. It has no state of its own: what it needs, it asks of the server by deeds.

ghost use Rattle.std.specs.Prelude.{◌≡◌, is_some, IfOk, OnErr};
ghost use Rattle.hd_rooms.specs.Rooms.{rooms, job_with, method_of};

use crate::deeds::{deeds_for, method_named};
use crate::job::RoomsJob;
use hd_calls::{Act, Call, CallKind, Input};
use hd_rooms::RoomsMethod;
use hj_jobs::Hub;
use hv_value::Text;
use std::alloc::{AllocError, Global};

/// The hub of rooms: `Join`, `Leave`, `Post`, `Tell` and `History`.
#[derive(Clone, Copy, Debug, PartialEq, Eq)]
pub struct RoomsHub;

/// The job of a call of this method that isn't a Stream.
fn job_of_call(alloc: Global, method: RoomsMethod, call: &Call) -> Result<RoomsJob, AllocError>
    ensures { IfOk result (λ job. job ≡ job_with method call.now.who call.now.arguments call.now.streams) }
{
    if !call.streams.texts().is_empty() {
        return RoomsJob::refused(alloc, "Wrong arguments.");
    }
    let deeds = deeds_for(alloc, method, &call.who, call.arguments.values())?;
    RoomsJob::of(alloc, method, deeds)
}

impl RoomsHub {
    /// Whether a target names a method of this hub.
    pub fn has(&self, target: &Text) -> bool
        ensures { result ≡ is_some (method_of target.now) }
    {
        method_named(target).is_some()
    }
}

impl Hub for RoomsHub {
    type Job = RoomsJob;

    ghost begin_of = { rooms.begin_of };

    ghost step_of = { rooms.step_of };

    fn begin(&self, alloc: Global, call: &Call, now: u64) -> Result<RoomsJob, AllocError>
        ensures { IfOk result (λ job. job ≡ rooms.begin_of call.now now) }
    {
        let Some(method) = method_named(&call.target) else {
            return RoomsJob::refused(alloc, "Unknown method.");
        };
        if call.kind == CallKind::Stream {
            return RoomsJob::refused(alloc, "Not a stream.");
        }
        job_of_call(alloc, method, call)
    }

    fn step(
        &self,
        alloc: Global,
        job: &mut RoomsJob,
        input: &Input,
        now: u64,
    ) -> Result<Act, AllocError>
        ensures stepped { IfOk result (λ act. (job.new, act) ≡ rooms.step_of job.old input.now now) }
        ensures unchanged { OnErr result (job.new ≡ job.old) }
    {
        job.turn(alloc, input)
    }
}
