//! Begins and settles calls, as many as may live at a time: a measure of `hi_calls`. `bench/calls/peer.rs` is the same in Rust.

use crate::length::Length;
use hd_calls::{CallKind, MOST_LIVE, MOST_UPLOADS};
use hi_calls::Calls;
use hm_message::Message;
use hv_value::{Items, Text};
use std::alloc::Global;

/// How often so many calls are begun and settled in the whole.
const ROUNDS: u32 = 1_000;

/// Begins a call, and answers its id.
fn begin(alloc: Global, calls: &mut Calls, uploads: u32) -> Option<Text> {
    if uploads > MOST_UPLOADS {
        return None;
    }
    let (target, arguments) = (
        Text::of(alloc, "say").ok()?,
        Items::of(Vec::new(alloc)).ok()?,
    );
    match calls.begin(alloc, CallKind::Call, target, arguments, uploads) {
        Ok((_, Message::Invocation { id, .. })) => id,
        _ => None,
    }
}

/// Begins as many calls as may live, and settles each. Answers how many, and the sum of their numbers.
fn fill(alloc: Global, calls: &mut Calls, ids: &mut Vec<Text>, uploads: u32) -> Option<(u64, u64)> {
    let many = MOST_LIVE / u64::from(uploads.saturating_add(1));
    for _ in 0..many {
        ids.push(begin(alloc, calls, uploads)?).ok()?;
    }
    let mut sum: u64 = 0;
    for _ in 0..many {
        sum = sum.wrapping_add(calls.settle(&ids.pop()?).ok()?);
    }
    Some((many, sum))
}

/// How many calls were settled, and the sum of their numbers.
fn run(alloc: Global, uploads: u32, rounds: u32) -> Option<(u64, u64)> {
    let mut calls = Calls::start(alloc, "").ok()?;
    let mut ids = Vec::new(alloc);
    let (mut count, mut sum): (u64, u64) = (0, 0);
    for _ in 0..rounds {
        let (many, more) = fill(alloc, &mut calls, &mut ids, uploads)?;
        count = count.saturating_add(many);
        sum = sum.wrapping_add(more);
    }
    Some((count, sum))
}

/// How many calls were settled, and the sum of their numbers. Each has so many uploads.
pub fn measured(alloc: Global, uploads: u32, length: Length) -> Option<String> {
    let (count, sum) = run(alloc, uploads, length.of(ROUNDS))?;
    format!(in alloc; "calls {count} sum {sum}").ok()
}
