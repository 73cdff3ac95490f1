//! How many lanes of a door are of each kind that a call looks for. It holds no lane, so whoever changes one takes it out before, and puts it
//! in afterwards.

ghost use Rattle.std.specs.Prelude.{◌≡◌, ◌<◌, nat_lt};
ghost use Rattle.hw_net.specs.Tally.{Has, no_lanes, with_lane, HasRoom};

use crate::lane::NetLane;

/// How many lanes are of each kind. A lane may be of more than one.
#[derive(Drop)]
pub struct Tally {
    // Lanes that are to be forgotten.
    over: usize,
    // Lanes of which something may be heard at once.
    awake: usize,
    // Live lanes on which something waits to be written.
    writers: usize,
    // Lanes that are heard no more, and whose wire is still there.
    closing: usize,
    // Lanes on which something may be heard or written before more bytes come there, and not only that they are overdue.
    restless: usize,
}

impl Tally {
    /// That of no lanes.
    pub fn start() -> Tally
        ensures { result ≡ no_lanes }
    {
        Tally {
            over: 0,
            awake: 0,
            writers: 0,
            closing: 0,
            restless: 0,
        }
    }

    /// Counts this lane too.
    pub fn enter(&mut self, lane: &NetLane)
        requires { HasRoom self.old }
        ensures { self.new ≡ with_lane lane.now self.old }
    {
        self.over += usize::from(lane.is_over());
        self.awake += usize::from(lane.is_awake());
        self.writers += usize::from(lane.is_writer());
        self.closing += usize::from(lane.is_closing());
        self.restless += usize::from(lane.is_restless());
    }

    /// Counts this lane no more.
    pub fn leave(&mut self, lane: &NetLane)
        requires { Has lane.now self.old }
        ensures { self.old ≡ with_lane lane.now self.new }
    {
        self.over -= usize::from(lane.is_over());
        self.awake -= usize::from(lane.is_awake());
        self.writers -= usize::from(lane.is_writer());
        self.closing -= usize::from(lane.is_closing());
        self.restless -= usize::from(lane.is_restless());
    }

    /// Counts the lanes that are over no more.
    pub fn forget_over(&mut self)
        ensures { self.new ≡ record self.old { over = 0 } }
    {
        self.over = 0;
    }

    pub fn has_over(&self) -> bool
        ensures { result ≡ nat_lt 0 self.now.over }
    {
        self.over > 0
    }

    pub fn has_awake(&self) -> bool
        ensures { result ≡ nat_lt 0 self.now.awake }
    {
        self.awake > 0
    }

    pub fn has_writers(&self) -> bool
        ensures { result ≡ nat_lt 0 self.now.writers }
    {
        self.writers > 0
    }

    pub fn has_closing(&self) -> bool
        ensures { result ≡ nat_lt 0 self.now.closing }
    {
        self.closing > 0
    }

    pub fn has_restless(&self) -> bool
        ensures { result ≡ nat_lt 0 self.now.restless }
    {
        self.restless > 0
    }
}
