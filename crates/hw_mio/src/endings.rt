//! When wires that were shut are closed at the latest.

ghost use Rattle.std.specs.Prelude.{◌≡◌, ◌≤◌};
ghost use Rattle.std.specs.VecDeque.{deque_capacity};
ghost use Rattle.hw_mio.specs.declared.limits.TheConstants.{ENDINGS};

use crate::limits::{ENDINGS, MOST_ENDING};
use crate::table::Table;
use std::alloc::{AllocError, Global};
use std::collections::VecDeque;

/// A wire that was shut, and the moment at which it is closed at the latest.
#[derive(Clone, Copy, Drop)]
struct Closing {
    wire: u64,
    moment: u64,
}

/// The wires that were shut, in the order of their moments. One that was closed before its moment stays until it is first, or until room
/// is needed.
#[derive(Drop)]
pub struct Endings {
    queue: VecDeque<Closing>,
    ghost room: { ENDINGS ≤ deque_capacity queue },
}

impl Endings {
    /// None yet. All room is taken here.
    pub fn start(alloc: Global) -> Result<Endings, AllocError> {
        let mut queue = VecDeque::with_capacity(alloc, ENDINGS)?;
        // All of it is written once, or its pages would come one by one, and a server would seem to grow.
        queue.resize(ENDINGS, Closing { wire: 0, moment: 0 })?;
        queue.clear();
        Ok(Endings { queue })
    }

    /// Adds a wire that was shut at this moment. If there is no room for it, it is closed at once.
    pub fn add(&mut self, wire: u64, now: u64, table: &mut Table)
        ensures { table.new ≡ table.old }
    {
        if self.queue.len() >= ENDINGS {
            self.forget_closed(table);
        }
        if self.queue.len() >= ENDINGS {
            table.close_ending(wire);
            return;
        }
        let moment = now.saturating_add(MOST_ENDING);
        self.queue.push_back_reserved(Closing { wire, moment });
    }

    fn forget_closed(&mut self, table: &Table) {
        self.queue.retain(|due| table.is_ending(due.wire));
    }

    /// Closes the wires whose moment has come. The answer is whether any was closed.
    pub fn close_due(&mut self, now: u64, table: &mut Table) -> bool
        ensures { table.new ≡ table.old }
    {
        let mut has_closed = false;
        while let Some(due) = self.queue.front()
            && (due.moment <= now || !table.is_ending(due.wire))
        {
            if table.close_ending(due.wire) {
                has_closed = true;
            }
            self.queue.pop_front();
        }
        has_closed
    }

    /// How many of `wait` milliseconds may be waited at this moment, as the first is to be closed then.
    pub fn wait_for(&self, wait: u64, now: u64) -> u64
        ensures { result ≤ wait }
    {
        match self.queue.front() {
            Some(due) => wait.min(due.moment.saturating_sub(now)),
            None => wait,
        }
    }
}
