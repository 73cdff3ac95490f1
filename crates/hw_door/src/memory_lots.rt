//! Lots in memory, for tests.

ghost use Rattle.std.specs.Prelude.{◌≡◌, ◌+◌, ◌-◌, ◌^◌, ◌≤◌};
ghost use Rattle.std.specs.Result.{result_ok};
ghost use Rattle.hd_facts.specs.Counts.{HasCause, one_more};
ghost use Rattle.hw_door.specs.Calls.{Adds};
ghost use Rattle.hw_door.specs.Draws.{MemoryDraws, drawn_by, next_draw, lots_after};

use crate::listed::is_listed;
use crate::traits::Lots;
use hw_io::Failed;
use std::marker::Model;

/// Lots in memory, for tests: they give the draws that they were made with, in order, and fail at their end and at the calls of chosen
/// numbers.
///
/// The calls are counted from 0, those that fail among them. After 2^64 - 1 calls they are spent: each call fails, and nothing is told.
#[derive(Drop)]
pub struct MemoryLots {
    draws: Vec<[u8; 16]>,
    // The place of the next draw.
    at: u64,
    failing: Vec<u64>,
    calls: u64,
    faults: u64,
}

impl Model for MemoryLots {
    ghost use Rattle.std.specs.Prelude.{◌≡◌, ◌≤◌};
    ghost use Rattle.hw_door.specs.Draws.{MemoryDraws, place_of};

    ghost Value = { MemoryDraws };

    ghost view = { λ s. record {
      draws = s.draws.items;
      failing = s.failing.items;
      calls = s.calls;
      faults = s.faults;
    } };

    ghost invariant = { λ s. (s.at ≡ place_of s.failing.items s.calls) × (s.at ≤ s.calls) };
}

impl MemoryLots {
    /// Makes lots that have these draws to give, and that fail at the calls of the numbers in `failing`, in any order. It keeps the two
    /// vectors and takes no memory of its own.
    pub fn start(draws: Vec<[u8; 16]>, failing: Vec<u64>) -> MemoryLots
        ensures { result ≡ record {
          draws = draws.items;
          failing = failing.items;
          calls = 0;
          faults = 0;
        } }
    {
        MemoryLots {
            draws,
            at: 0,
            failing,
            calls: 0,
            faults: 0,
        }
    }

    /// Takes the next draw, if this call isn't to fail and there is one.
    fn take(&mut self) -> Option<[u8; 16]>
        ensures draw { result ≡ next_draw self.old }
        ensures after { self.new ≡ record self.old { calls = one_more self.old.calls } }
    {
        let call = self.calls;
        if call == u64::MAX {
            return None;
        }
        self.calls = call + 1;
        if is_listed(&self.failing, call) {
            return None;
        }
        let at = self.at;
        self.at = at + 1;
        self.draws.get(at as usize).copied()
    }
}

impl Lots for MemoryLots {
    ghost drawn = { drawn_by };

    ghost faults = { λ s. s.faults };

    /// Gives the next draw. It fails at the calls that are to fail, once all draws were given, and once the lots are spent.
    fn draw(&mut self) -> Result<[u8; 16], Failed>
        ensures trace { Adds (drawn_by self.old) (drawn_by self.new) (result_ok result) }
        ensures cause { HasCause self.old.faults self.new.faults result }
        ensures draw { result_ok result ≡ next_draw self.old }
        ensures after { self.new ≡ lots_after result self.old }
    {
        match self.take() {
            Some(draw) => Ok(draw),
            None => {
                self.faults = self.faults.saturating_add(1);
                Err(Failed)
            }
        }
    }
}
