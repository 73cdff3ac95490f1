//! Two hubs in one. A target chooses between them, and a job stays with its hub.

ghost use Rattle.std.specs.Prelude.{◌≡◌, IfOk, OnErr};

use hd_calls::{Act, Call, Input};
use hj_jobs::Hub;
use hub_calc::{CalcHub, CalcJob};
use hub_rooms::{RoomsHub, RoomsJob};
use std::alloc::{AllocError, Global};

/// The hub of calculations and of rooms.
#[derive(Clone, Copy, Debug, PartialEq, Eq)]
pub struct ServeHub {
    calc: CalcHub,
    rooms: RoomsHub,
}

/// A job of one of the two.
#[derive(Drop)]
pub enum ServeJob {
    Calc(CalcJob),
    Rooms(RoomsJob),
}

impl ServeHub {
    pub fn new() -> ServeHub {
        ServeHub {
            calc: CalcHub,
            rooms: RoomsHub,
        }
    }
}

impl Hub for ServeHub {
    ghost use Rattle.hub_demo.specs.Serving.{serve_begin, serve_step};

    type Job = ServeJob;

    ghost begin_of = { serve_begin };

    ghost step_of = { serve_step };

    fn begin(&self, alloc: Global, call: &Call, now: u64) -> Result<ServeJob, AllocError> {
        if self.rooms.has(&call.target) {
            Ok(ServeJob::Rooms(self.rooms.begin(alloc, call, now)?))
        } else {
            Ok(ServeJob::Calc(self.calc.begin(alloc, call, now)?))
        }
    }

    fn step(
        &self,
        alloc: Global,
        job: &mut ServeJob,
        input: &Input,
        now: u64,
    ) -> Result<Act, AllocError> {
        match job {
            ServeJob::Calc(job) => self.calc.step(alloc, job, input, now),
            ServeJob::Rooms(job) => self.rooms.step(alloc, job, input, now),
        }
    }
}
