//! The live uploads by their numbers: which call owns each. The uploads of call n have the numbers after n.

ghost use Rattle.std.specs.Prelude.{◌≡◌, ◌≤◌, ◌<◌, ◌+◌, ◌^◌, ℕ, suc, ◌&&◌, nat_le, nat_lt, IfOk, OnOk, nat_eq, if◌then◌else◌};
ghost use Rattle.std.specs.HashMap.{hash_map_len, spare};
ghost use Rattle.hd_calls.specs.Numbers.{most_numbers, most_uploads};
ghost use Rattle.hi_calls.specs.Maps.{owns, owner, one_if, BeginsUploads, EndsUploads};

use hd_calls::{MOST_NUMBERS, MOST_UPLOADS};
use indexmap::IndexMap;
use std::alloc::{AllocError, Global};

/// The call of each live upload, by the upload's number.
#[derive(Drop)]
pub struct Owners {
    calls: IndexMap<u64, u64>,
}

/// The number of one of a call's uploads, which are counted from 0.
pub(crate) fn upload_number(call: u64, which: u32) -> u64
    requires { call ≤ most_numbers }
    ensures { result ≡ suc (call + which) }
{
    call + 1 + u64::from(which)
}

impl Owners {
    pub(crate) fn new(alloc: Global) -> Owners
        ensures none { (k : ℕ) → owner result k ≡ None }
        ensures size { hash_map_len result.calls ≡ 0 }
    {
        Owners {
            calls: IndexMap::new(alloc),
        }
    }

    pub(crate) fn len(&self) -> usize
        ensures size { result ≡ hash_map_len self.now.calls }
        ensures small { result < 2 ^ 63 }
    {
        self.calls.len()
    }

    /// Makes room for so many more.
    pub(crate) fn reserve(&mut self, count: u32) -> Result<(), AllocError>
        ensures room { OnOk result (count ≤ spare self.new.calls) }
        ensures same { self.new.calls.entries ≡ self.old.calls.entries }
    {
        self.calls.reserve(count as usize)
    }

    /// Whether the upload is live. No call has a number past `MOST_NUMBERS`.
    pub(crate) fn has(&self, call: u64, which: u32) -> bool
        ensures { result ≡ (nat_le call most_numbers && owns self.now call which) }
    {
        if call > MOST_NUMBERS {
            return false;
        }
        match self.calls.get(&upload_number(call, which)) {
            Some(owner) => *owner == call,
            None => false,
        }
    }

    /// Begins so many uploads of a call, for which there is room.
    pub(crate) fn begin(&mut self, call: u64, count: u32)
        requires small { call + count ≤ most_numbers }
        requires room { count ≤ spare self.old.calls }
        ensures { BeginsUploads self.old self.new call count }
    {
        for which in 0..count {
            self.put(upload_number(call, which), call);
        }
    }

    fn put(&mut self, number: u64, call: u64)
        requires room { 0 < spare self.old.calls }
        ensures put { (k : ℕ) → owner self.new k ≡ (if nat_eq number k then Some call else owner self.old k) }
        ensures size { owner self.old number ≡ None → hash_map_len self.new.calls ≡ hash_map_len self.old.calls + 1 }
        ensures room { spare self.old.calls ≤ spare self.new.calls + 1 }
    {
        match self.calls.insert(number, call) {
            Ok(_) => {}
            Err(_) => unreachable!(),
        }
    }

    /// Ends an upload, if it is live.
    pub(crate) fn end(&mut self, call: u64, which: u32)
        requires { call ≤ most_numbers }
        ensures ended { (k : ℕ) → owner self.new k ≡
            (if nat_eq (suc (call + which)) k && owns self.old call which then None else owner self.old k) }
        ensures size { hash_map_len self.new.calls + one_if (owns self.old call which) ≡ hash_map_len self.old.calls }
    {
        if self.has(call, which) {
            let _owner = self.calls.swap_remove(&upload_number(call, which));
        }
    }

    /// Ends all uploads of a call that are live.
    pub(crate) fn end_all(&mut self, call: u64)
        requires { call ≤ most_numbers }
        ensures { EndsUploads self.old self.new call most_uploads }
    {
        // Most calls have no uploads, and then this is all.
        if self.len() == 0 {
            return;
        }
        for which in 0..MOST_UPLOADS {
            self.end(call, which);
        }
    }
}
