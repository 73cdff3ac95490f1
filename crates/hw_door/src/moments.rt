//! The moments that polls answer.

ghost use Rattle.std.specs.Prelude.{◌≡◌, ◌≤◌, drop};
ghost use Rattle.hw_door.specs.Lines.{MomentsLeft};
ghost use Rattle.hw_door.specs.Wires.{IsRising, next_moment};

use std::collections::VecDeque;
use std::marker::Model;

#[derive(Drop)]
pub struct Moments {
    left: VecDeque<u64>,
    last: u64,
}

impl Model for Moments {
    ghost use Rattle.hw_door.specs.Lines.{MomentsLeft};
    ghost use Rattle.hw_door.specs.Wires.{IsRising};

    ghost Value = { MomentsLeft };

    ghost view = { λ m. record { left = m.left.items; last = m.last } };

    ghost invariant = { λ m. IsRising m.last m.left.items };
}

impl Moments {
    pub fn start(moments: Vec<u64>) -> Moments
        requires { IsRising 0 moments.items }
        ensures { result ≡ record { left = moments.items; last = 0 } }
    {
        Moments {
            left: VecDeque::from_vec(moments),
            last: 0,
        }
    }

    /// The moment polled last, or 0.
    pub fn last(&self) -> u64
        ensures { result ≡ self.now.last }
    {
        self.last
    }

    /// Takes the next moment. Once none is left it is the last again.
    pub fn next(&mut self) -> u64
        ensures next { result ≡ next_moment self.old.left self.old.last }
        ensures later { self.old.last ≤ result }
        ensures after { self.new ≡ record { left = drop 1 self.old.left; last = result } }
    {
        if let Some(next) = self.left.pop_front() {
            self.last = next;
        }
        self.last
    }
}
