//! What the bytes held begin with: a frame, the front of one, or a fault.

ghost use Rattle.std.specs.Prelude.{◌≡◌, ◌↔◌, ◌⊎◌, ◌≤◌, length, take, IsTrue};
ghost use Rattle.hf_split.specs.Cuts.{IsPlain};
ghost use Rattle.hf_split.specs.Nexts.{IsNextOf};

use crate::framing::Framing;
use crate::mark::first_mark;
use crate::splitter::GREATEST_LIMIT;
use crate::var_int::{Prefix, read_prefix};

/// What the bytes held begin with.
#[derive(Clone, Copy)]
pub(crate) enum Next {
    /// The front of a frame.
    Waiting,
    /// A frame, which stands between the first two of these places. Its spelling ends before the third.
    Frame { from: usize, to: usize, past: usize },
    /// A frame that is longer than the limit.
    TooLong,
    /// Bytes that are no length.
    BadLength,
}

impl Next {
    /// Whether no frame can come.
    pub(crate) fn is_fault(self) -> bool
        ensures { IsTrue result ↔ ((self ≡ Next.TooLong) ⊎ (self ≡ Next.BadLength)) }
    {
        match self {
            Next::Waiting | Next::Frame { .. } => false,
            Next::TooLong | Next::BadLength => true,
        }
    }
}

/// What bytes begin with in `Framing::Record`. The first `plain` of them, which hold no separator, aren't looked at.
#[inline(always)]
fn next_record(most: usize, bytes: &[u8], plain: usize) -> Next
    requires limit { most ≤ GREATEST_LIMIT }
    requires plain { IsPlain (take plain bytes.now) }
    ensures { IsNextOf Framing.Record most bytes.now result }
{
    let limit = bytes.len().min(most + 1);
    let seen = plain.min(limit);
    match first_mark(&bytes[seen..limit]) {
        Some(mark) => Next::Frame {
            from: 0,
            to: seen + mark,
            past: seen + mark + 1,
        },
        None if bytes.len() > most => Next::TooLong,
        None => Next::Waiting,
    }
}

/// What bytes begin with in `Framing::Length`.
fn next_length(most: usize, bytes: &[u8]) -> Next
    requires { most ≤ GREATEST_LIMIT }
    ensures { IsNextOf Framing.Length most bytes.now result }
{
    let (size, number) = match read_prefix(bytes) {
        Prefix::Open => return Next::Waiting,
        Prefix::Endless => return Next::BadLength,
        Prefix::Whole { size, number } => (size, number),
    };
    if number > most as u64 {
        return Next::TooLong;
    }
    let past = size + number as usize;
    if past > bytes.len() {
        return Next::Waiting;
    }
    Next::Frame {
        from: size,
        to: past,
        past,
    }
}

/// What bytes begin with.
pub(crate) fn next_of(framing: Framing, most: usize, bytes: &[u8]) -> Next
    requires { most ≤ GREATEST_LIMIT }
    ensures { IsNextOf framing most bytes.now result }
{
    match framing {
        Framing::Record => next_record(most, bytes, 0),
        Framing::Length => next_length(most, bytes),
    }
}

/// What bytes begin with of which the first `held` begin with `next`, and with no fault.
pub(crate) fn next_after(
    framing: Framing,
    most: usize,
    next: Next,
    held: usize,
    bytes: &[u8],
) -> Next
    requires limit { most ≤ GREATEST_LIMIT }
    requires next { IsNextOf framing most (take held bytes.now) next }
    requires no_fault { ((next ≡ Next.TooLong) ⊎ (next ≡ Next.BadLength)) → ⊥ }
    ensures { IsNextOf framing most bytes.now result }
{
    match (next, framing) {
        (Next::Waiting, Framing::Record) => next_record(most, bytes, held),
        (Next::Waiting, Framing::Length) => next_length(most, bytes),
        _ => next,
    }
}
