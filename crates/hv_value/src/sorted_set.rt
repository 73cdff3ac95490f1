//! Numbers without repetition, in order. Room is taken beforehand, so that a number can be put in without more memory.

ghost use Rattle.std.specs.Prelude.{◌≡◌, ◌≤◌, ◌&&◌, ◌||◌, ◌==◌, ℕ, [], not, length, IfOk, OnOk};
ghost use Rattle.std.specs.Vec.{vec_capacity};
ghost use Rattle.hv_value.specs.SortedSet.{HasPlace, is_in, IsFirstPast, IsRising};

use std::alloc::{AllocError, Global};

/// Numbers, rising. They are found by halving.
#[derive(Drop)]
pub struct SortedSet {
    numbers: Vec<u64>,
}

impl SortedSet {
    /// No numbers.
    pub fn start(alloc: Global) -> SortedSet
        ensures { result.numbers.items ≡ [] }
    {
        SortedSet {
            numbers: Vec::new(alloc),
        }
    }

    /// Takes room for this many in all.
    pub fn reserve(&mut self, count: usize) -> Result<(), AllocError>
        ensures ok { OnOk result (count ≤ vec_capacity self.new.numbers) }
        ensures items { self.new.numbers.items ≡ self.old.numbers.items }
        ensures capacity { vec_capacity self.old.numbers ≤ vec_capacity self.new.numbers }
    {
        let len = self.numbers.len();
        self.numbers.reserve(count.saturating_sub(len))
    }

    /// Puts a number in, if it isn't there.
    pub fn add(&mut self, number: u64)
        ensures added { IsRising self.old.numbers.items → HasPlace self.old number →
            (n : ℕ) → is_in n self.new.numbers.items ≡ ((n == number) || is_in n self.old.numbers.items) }
        ensures rising { IsRising self.old.numbers.items → IsRising self.new.numbers.items }
        ensures capacity { vec_capacity self.old.numbers ≤ vec_capacity self.new.numbers }
    {
        if let Err(place) = self.numbers.binary_search(&number) {
            // It has its place, so this takes no memory.
            let _inserted = self.numbers.insert(place, number);
        }
    }

    /// Takes a number out, if it is there.
    pub fn remove(&mut self, number: u64)
        ensures removed { IsRising self.old.numbers.items →
            (n : ℕ) → is_in n self.new.numbers.items ≡ (is_in n self.old.numbers.items && not (n == number)) }
        ensures rising { IsRising self.old.numbers.items → IsRising self.new.numbers.items }
        ensures capacity { vec_capacity self.old.numbers ≤ vec_capacity self.new.numbers }
    {
        if let Ok(place) = self.numbers.binary_search(&number) {
            self.numbers.remove(place);
        }
    }

    /// The first past this number.
    pub fn next(&self, passed: u64) -> Option<u64>
        ensures { IsRising self.now.numbers.items → IsFirstPast passed self.now.numbers.items result }
    {
        match self.numbers.binary_search(&passed) {
            Ok(place) => self.numbers.get(place + 1).copied(),
            Err(place) => self.numbers.get(place).copied(),
        }
    }

    /// All of them, rising.
    pub fn numbers(&self) -> &[u64]
        ensures { result.now ≡ self.now.numbers.items }
    {
        &self.numbers
    }

    pub fn is_empty(&self) -> bool
        ensures { result ≡ (length self.now.numbers.items == 0) }
    {
        self.numbers.is_empty()
    }
}
