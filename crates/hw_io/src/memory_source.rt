//! A source in memory, for tests.

ghost use Rattle.std.specs.Prelude.{◌≡◌, ◌+◌, ◌-◌, ◌^◌, ◌<◌, ◌≤◌, ◌↔◌, ◌++◌, length, take, drop, min, Contains, IsErr, IfOk, IsOkAnd, OnErr, Some};
ghost use Rattle.std.specs.Io.{ReadsAtMost};
ghost use Rattle.std.specs.Io.KnownBytes.{ReadConsumes};
ghost use Rattle.hd_facts.specs.Counts.{CountsFailure, HasCause};
ghost use Rattle.hw_io.specs.Memory.{MemoryInput, SourceFails, source_after_failure, source_after_giving};

use crate::failing::is_to_fail;
use crate::traits::{Failed, Source};
use std::alloc::AllocError;
use std::marker::Model;

/// A source in memory, for tests: it gives the bytes that it was made with, and fails at the
/// calls of chosen numbers.
///
/// The calls of `take` are counted from 0, those that fail among them. The count holds 64 bits
/// and stays at 2^64 - 1.
#[derive(Drop)]
pub struct MemorySource {
    bytes: Vec<u8>,
    at: usize,
    failing: Vec<u64>,
    calls: u64,
    faults: u64,
}

impl Model for MemorySource {
    ghost use Rattle.std.specs.Prelude.{◌≤◌, length, drop};
    ghost use Rattle.hw_io.specs.Memory.{MemoryInput};

    ghost Value = { MemoryInput };

    ghost view = { λ s. record {
      left = drop s.at s.bytes.items;
      failing = s.failing.items;
      calls = s.calls;
      faults = s.faults;
    } };

    ghost invariant = { λ s. s.at ≤ length s.bytes.items };
}

impl MemorySource {
    /// Makes a source that has `bytes` to give, and that fails at the calls of the numbers in
    /// `failing`, in any order.
    ///
    /// It keeps the two vectors and takes no memory of its own, so it is always Ok.
    pub fn start(bytes: Vec<u8>, failing: Vec<u64>) -> Result<MemorySource, AllocError>
        ensures { IsOkAnd result (λ s. s ≡ record {
          left = bytes.items;
          failing = failing.items;
          calls = 0;
          faults = 0;
        }) }
    {
        Ok(MemorySource {
            bytes,
            at: 0,
            failing,
            calls: 0,
            faults: 0,
        })
    }
}

/// Copies as much as there is room for, and answers how much.
fn copy_front(bytes: &[u8], buf: &mut [u8]) -> usize
    ensures count { result ≡ min (length bytes.now) (length buf.old) }
    ensures front { take result buf.new ≡ take result bytes.now }
    ensures copied { buf.new ≡ take result bytes.now ++ drop result buf.old }
{
    let count = bytes.len().min(buf.len());
    buf[..count].copy_from_slice(&bytes[..count]);
    count
}

impl Source for MemorySource {
    ghost left = { λ s. Some s.left };

    ghost faults = { λ s. s.faults };

    /// Gives as many of the bytes left as `buf` has room for, and leaves the rest of `buf` as it
    /// was. It fails exactly at the calls that are to fail, and then leaves `buf` as it was.
    fn take(&mut self, buf: &mut [u8]) -> Result<usize, Failed>
        ensures bound { ReadsAtMost result buf.new }
        ensures bytes { ReadConsumes (Some self.old.left) (Some self.new.left) result buf.new }
        ensures cause { HasCause self.old.faults self.new.faults result }
        ensures counted { CountsFailure self.old.faults self.new.faults result }
        ensures fails { IsErr result ↔ SourceFails self.old }
        ensures failed { OnErr result (self.new ≡ source_after_failure self.old) }
        ensures untouched { OnErr result (buf.new ≡ buf.old) }
        ensures count { IfOk result (λ count. count ≡ min (length self.old.left) (length buf.old)) }
        ensures given { IfOk result (λ count. self.new ≡ source_after_giving count self.old) }
        ensures copied { IfOk result
            (λ count. buf.new ≡ take count self.old.left ++ drop count buf.old) }
    {
        let call = self.calls;
        self.calls = call.saturating_add(1);
        if is_to_fail(&self.failing, call) {
            self.faults = self.faults.saturating_add(1);
            return Err(Failed);
        }
        let count = copy_front(&self.bytes[self.at..], buf);
        self.at += count;
        Ok(count)
    }
}
