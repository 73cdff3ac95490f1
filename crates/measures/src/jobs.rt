//! Gives rounds to live jobs of which one goes on and on and the others wait: a measure of `hj_jobs`.

use crate::length::Length;
use hd_calls::{Act, Call, CallKind, Input, MOST_LIVE};
use hj_jobs::{Hub, Jobs};
use hv_value::{Items, Text, Texts};
use std::alloc::{AllocError, Global};

/// How many rounds are given in the whole.
const ROUNDS: u32 = 300_000;

/// A job that began at the moment 0 waits, and every other goes on.
struct Lamps;

impl Hub for Lamps {
    ghost use Rattle.measures.specs.Lamps.{lamp_begin, lamp_step};

    type Job = u64;

    ghost begin_of = { lamp_begin };

    ghost step_of = { lamp_step };

    fn begin(&self, _alloc: Global, _call: &Call, now: u64) -> Result<u64, AllocError> {
        Ok(now)
    }

    fn step(
        &self,
        _alloc: Global,
        job: &mut u64,
        _input: &Input,
        _now: u64,
    ) -> Result<Act, AllocError> {
        if *job == 0 {
            Ok(Act::Wait)
        } else {
            Ok(Act::More)
        }
    }
}

/// A notice, whose job begins at this moment.
fn begin(alloc: Global, jobs: &mut Jobs<Lamps>, now: u64) -> Option<u64> {
    let call = Call {
        id: None,
        kind: CallKind::Notify,
        target: Text::of(alloc, "light").ok()?,
        arguments: Items::of(Vec::new(alloc)).ok()?,
        streams: Texts::of(Vec::new(alloc)),
        who: Text::of(alloc, "").ok()?,
    };
    jobs.accept(alloc, &Lamps, call, now).ok()
}

/// One round, and how many jobs had a turn.
fn round(alloc: Global, jobs: &mut Jobs<Lamps>) -> Option<u64> {
    jobs.begin_round();
    for count in 0..=MOST_LIVE {
        if jobs.step(alloc, &Lamps, 0, true).ok()?.is_none() {
            return Some(count);
        }
    }
    None
}

/// How many turns there were of so many jobs in so many rounds.
fn run(alloc: Global, live: u64, rounds: u32) -> Option<u64> {
    let mut jobs = Jobs::start(alloc).ok()?;
    for _ in 1..live {
        begin(alloc, &mut jobs, 0)?;
    }
    begin(alloc, &mut jobs, 1)?;
    let mut turns: u64 = 0;
    for _ in 0..rounds {
        turns = turns.saturating_add(round(alloc, &mut jobs)?);
    }
    Some(turns)
}

/// How many turns there were of so many live jobs.
pub fn measured(alloc: Global, live: u64, length: Length) -> Option<String> {
    let turns = run(alloc, live, length.of(ROUNDS))?;
    format!(in alloc; "turns {turns}").ok()
}
