//! A door and a dialer over sockets, which have conversations by plans that are drawn.

use crate::callers::Callers;
use crate::draws::Draws;
use crate::guests::Guests;
use crate::plan::Plan;
use crate::sockets::{dialer_of, door_at, stop_of};
use ht_kit::Stop;
use hw_door::{Dialer, Door};
use hw_mio::MioWires;
use hw_net::{NetDialer, NetDoor};
use std::alloc::Global;

/// The most turns of both.
const MOST_TURNS: u64 = 10_000_000;

/// After so many turns in a row in which neither heard anything they are stuck.
const MOST_QUIET: u64 = 5_000;

/// How many milliseconds each may wait after a turn in which neither heard anything.
const WAIT: u64 = 1;

/// Both ends.
#[derive(Drop)]
struct Exchange<'a> {
    door: NetDoor<MioWires<'a, HostRuntime>>,
    dialer: NetDialer<MioWires<'a, HostRuntime>>,
    guests: Guests,
    callers: Callers,
    draws: Draws,
    /// How many conversations began.
    begun: u64,
}

impl<'a> Exchange<'a> {
    fn start(rt: &'a HostRuntime, alloc: Global, seed: u64) -> Result<Exchange<'a>, Stop> {
        let (door, port) = door_at(rt, alloc)?;
        Ok(Exchange {
            door,
            dialer: dialer_of(rt, alloc, port)?,
            guests: Guests::start(alloc),
            callers: Callers::start(alloc),
            draws: Draws::of(seed),
            begun: 0,
        })
    }

    /// Begins one more conversation, if there may be one.
    fn begin(&mut self, total: u64, live: usize) -> Result<(), Stop> {
        if self.begun >= total || self.callers.live() >= live {
            return Ok(());
        }
        let plan = Plan::draw(&mut self.draws, self.begun);
        self.begun = self.begun.saturating_add(1);
        self.callers.begin(&mut self.dialer, plan)
    }

    /// Whether all conversations are over.
    fn is_done(&self, total: u64) -> bool {
        self.begun >= total && self.callers.live() == 0
    }

    /// Each hears one event. False if neither did.
    fn turn(&mut self, wait: u64) -> Result<bool, Stop> {
        let heard = self.door.next(wait).map_err(stop_of)?;
        let at_door = self.guests.hear(&mut self.door, &heard.event)?;
        let heard = self.dialer.next(wait).map_err(stop_of)?;
        let at_dialer = self.callers.hear(&mut self.dialer, &heard.event)?;
        Ok(at_door || at_dialer)
    }

    /// Has so many conversations, so many at once at most.
    fn run(&mut self, total: u64, live: usize) -> Result<(), Stop> {
        let mut quiet: u64 = 0;
        for _turn in 0..MOST_TURNS {
            if self.is_done(total) {
                return Ok(());
            }
            if quiet > MOST_QUIET {
                return Err(Stop::Busy);
            }
            self.begin(total, live)?;
            let wait = if quiet > 0 { WAIT } else { 0 };
            quiet = if self.turn(wait)? {
                0
            } else {
                quiet.saturating_add(1)
            };
        }
        Err(Stop::Busy)
    }

    fn told(&self, alloc: Global) -> Result<String, Stop> {
        let all = self.callers.counts();
        let asks = self.begun;
        let responses = all.responses;
        let declined = all.declined;
        let upgrades = all.upgrades;
        let losses = all.losses;
        let front = format!(in alloc;
            "asks {asks} responses {responses} declined {declined} upgrades {upgrades} losses {losses}"
        )?;
        let echoes = all.echoes;
        let bytes = all.bytes;
        let wrong = all.wrong.saturating_add(self.guests.wrong);
        Ok(format!(in alloc; "{front} echoes {echoes} bytes {bytes} wrong {wrong}")?)
    }
}

/// The counts of so many conversations from this seed, so many at once at most.
pub fn have_conversations(
    rt: &HostRuntime,
    alloc: Global,
    seed: u64,
    total: u64,
    live: usize,
) -> Result<String, Stop> {
    let mut both = Exchange::start(rt, alloc, seed)?;
    both.run(total, live)?;
    both.told(alloc)
}
