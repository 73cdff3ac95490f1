//! A hub with one method: `Next`, a stream, gives 1, 2, 3 and so on, until its caller cancels or it has given a million. It is the
//! example of `docs/hubs.md`.
#![tactic(auto)]

ghost use Rattle.hub_counter.specs.Counter.{NextCounts};

use hd_calls::{Act, Call, CallKind, Input};
use hj_jobs::Hub;
use hm_message::Ending;
use hv_value::{Text, Value, Whole};
use std::alloc::{AllocError, Global};

/// The last number that `Next` gives.
const LAST: u32 = 1_000_000;

/// The hub. It keeps nothing between calls.
#[derive(Clone, Copy, Debug, PartialEq, Eq)]
pub struct CounterHub;

/// What is remembered of a call between its turns.
#[derive(Drop)]
pub enum CounterJob {
    /// It ends with this error.
    Refused(Text),
    /// It has given the numbers up to this one.
    Counting(u32),
}

impl Hub for CounterHub {
    ghost use Rattle.hub_counter.specs.Counter.{counter_begin, counter_step};

    type Job = CounterJob;

    ghost begin_of = { counter_begin };

    ghost step_of = { counter_step };

    fn begin(&self, alloc: Global, call: &Call, _now: u64) -> Result<CounterJob, AllocError> {
        if call.target.as_str() != "Next" {
            return Ok(CounterJob::Refused(Text::of(alloc, "Unknown method.")?));
        }
        if call.kind != CallKind::Stream {
            return Ok(CounterJob::Refused(Text::of(alloc, "A stream.")?));
        }
        Ok(CounterJob::Counting(0))
    }

    fn step(
        &self,
        _alloc: Global,
        job: &mut CounterJob,
        _input: &Input,
        _now: u64,
    ) -> Result<Act, AllocError> {
        match job {
            CounterJob::Refused(error) => Ok(Act::End(Ending::Error(error.copy()?))),
            CounterJob::Counting(given) => {
                if *given >= LAST {
                    return Ok(Act::End(Ending::Void));
                }
                *given += 1;
                Ok(Act::Item(Value::Int(Whole::from(u64::from(*given)))))
            }
        }
    }
}

/// A job of `Next` gives the numbers from 1 on, one at each turn. It does nothing: its contract is the law.
pub fn next_counts()
    ensures { NextCounts }
{}
