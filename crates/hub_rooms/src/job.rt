//! What is left of a call: deeds to be done one after the other, and an ending. No turn takes memory for a deed.

ghost use Rattle.std.specs.Prelude.{◌≡◌, IfOk, OnErr};
ghost use Rattle.hd_rooms.specs.Rooms.{step_of, job_of_deeds};
ghost use Rattle.hd_rooms.specs.Rooms as rooms;
ghost use Rattle.hub_rooms.specs.Jobs.{listed};

use hd_calls::{Act, Deed, Input};
use hd_rooms::RoomsMethod;
use hm_message::{Ending, values_are_trees};
use hv_value::{Text, Value};
use std::alloc::{AllocError, Global};
use std::collections::VecDeque;
use std::marker::Model;

/// What is left of a call's job.
#[derive(Drop)]
pub struct RoomsJob {
    left: Left,
}

#[derive(Drop)]
enum Left {
    /// It ends with this error.
    Refused(Text),
    /// It does these deeds in order, and ends as the method does.
    Doing {
        method: RoomsMethod,
        deeds: VecDeque<Deed>,
    },
}

impl Model for RoomsJob {
    ghost use Rattle.hd_rooms.specs.Rooms.{Job};
    ghost use Rattle.hub_rooms.specs.Codes.{job_code};

    ghost Value = { Job };

    ghost coded = { job_code };

    ghost use Rattle.hub_rooms.specs.Jobs.{job_of};

    ghost view = { λ j. job_of j.left };
}

fn copy_of(value: &Value) -> Result<Value, AllocError>
    ensures { IfOk result (λ v. v ≡ value.now) }
{
    values_are_trees();
    value.copy()
}

/// How the method ends after its deeds, the last of which brought `input`.
fn ending_of(method: RoomsMethod, input: &Input) -> Result<Ending, AllocError>
    ensures { IfOk result (λ ending. ending ≡ rooms.ending_of method input.now) }
{
    if method != RoomsMethod::History {
        return Ok(Ending::Void);
    }
    let Input::Done(brought) = input else {
        return Ok(Ending::Void);
    };
    Ok(Ending::Result(copy_of(brought)?))
}

/// The error of the method, a deed of which failed.
fn error_of(alloc: Global, method: RoomsMethod) -> Result<Text, AllocError>
    ensures { IfOk result (λ error. error ≡ rooms.error_of method) }
{
    if method == RoomsMethod::Join {
        return Text::of(alloc, "Too many groups.");
    }
    Text::of(alloc, "The store failed.")
}

impl RoomsJob {
    /// A job that ends with this error at its first turn.
    pub(crate) fn refused(alloc: Global, error: &str) -> Result<RoomsJob, AllocError>
        ensures { IfOk result (λ job. job ≡ rooms.Refused error.now) }
    {
        Ok(RoomsJob {
            left: Left::Refused(Text::of(alloc, error)?),
        })
    }

    /// A job that does these deeds, or that is refused for its arguments if there are none.
    pub(crate) fn of(
        alloc: Global,
        method: RoomsMethod,
        deeds: Option<VecDeque<Deed>>,
    ) -> Result<RoomsJob, AllocError>
        ensures { IfOk result (λ job. job ≡ job_of_deeds method (listed deeds)) }
    {
        let Some(deeds) = deeds else {
            return RoomsJob::refused(alloc, "Wrong arguments.");
        };
        Ok(RoomsJob {
            left: Left::Doing { method, deeds },
        })
    }

    /// Gives it a turn. Out of memory it is as before.
    pub(crate) fn turn(&mut self, alloc: Global, input: &Input) -> Result<Act, AllocError>
        ensures stepped { IfOk result (λ act. (self.new, act) ≡ step_of self.old input.now) }
        ensures unchanged { OnErr result (self.new ≡ self.old) }
    {
        match &mut self.left {
            Left::Refused(error) => Ok(Act::End(Ending::Error(error.copy()?))),
            Left::Doing { method, deeds } => next_act(alloc, *method, deeds, input),
        }
    }
}

/// The next act of a job that does these deeds.
fn next_act(
    alloc: Global,
    method: RoomsMethod,
    deeds: &mut VecDeque<Deed>,
    input: &Input,
) -> Result<Act, AllocError>
    ensures stepped { IfOk result
        (λ act. (rooms.Doing method deeds.new.items, act) ≡ step_of (rooms.Doing method deeds.old.items) input.now) }
    ensures unchanged { OnErr result (deeds.new.items ≡ deeds.old.items) }
{
    if let Input::Failed = input {
        return Ok(Act::End(Ending::Error(error_of(alloc, method)?)));
    }
    if let Some(next) = deeds.pop_front() {
        return Ok(Act::Do(next));
    }
    Ok(Act::End(ending_of(method, input)?))
}
