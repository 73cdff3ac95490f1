//! Pushes, writes and acknowledges 200-byte frames, a full buffer at a time: a measure of `hq_resend`. `bench/resend/peer.rs` is the same in
//! Rust.

use crate::length::Length;
use hq_resend::{Frame, LEAST_FRAME, Limits, MOST_BYTES, Resend};
use std::alloc::{AllocError, Global};

/// How many frames are held.
const HELD: usize = 1_024;

/// How many bytes a frame has.
const SIZE: usize = 200;

/// How many times the buffer is filled in the whole.
const ROUNDS: u32 = 5_000;

/// The next frame: with these bytes, or, if `shared`, with those of the frame.
fn next_frame(alloc: Global, frame: &Frame, shared: bool) -> Result<Frame, AllocError> {
    if shared {
        frame.share()
    } else {
        Frame::of(alloc, frame.bytes())
    }
}

/// Pushes frames until the buffer is full.
fn fill(alloc: Global, resend: &mut Resend, frame: &Frame, shared: bool) -> Result<(), AllocError> {
    for _ in 0..HELD {
        let next = next_frame(alloc, frame, shared)?;
        if next.bytes().len() > resend.limits().frame() || resend.push(next).is_err() {
            break;
        }
    }
    Ok(())
}

/// Takes each frame that isn't written, and adds its number, its length and its first byte.
fn write_all(resend: &mut Resend, mut sum: u64) -> u64 {
    for _ in 0..HELD {
        let Some((number, [first, rest @ ..])) = resend.next_unwritten() else {
            break;
        };
        sum = sum
            .wrapping_add(number)
            .wrapping_add(rest.len() as u64 + 1)
            .wrapping_add(u64::from(*first));
    }
    sum
}

/// Fills, writes and acknowledges so many times.
fn run(alloc: Global, limits: Limits, shared: bool, rounds: u32) -> Result<(u64, u64), AllocError> {
    let frame = Frame::of(alloc, &[b'a'; SIZE])?;
    let mut resend = Resend::start(alloc, limits, true)?;
    let mut sum = 0;
    for _ in 0..rounds {
        fill(alloc, &mut resend, &frame, shared)?;
        sum = write_all(&mut resend, sum);
        let most = resend.most_written();
        if resend.ack(most).is_err() {
            break;
        }
    }
    Ok((resend.count_sent(), sum))
}

/// How many frames were sent, and a sum over them. If not `shared`, each frame is made.
pub fn measured(alloc: Global, shared: bool, length: Length) -> Option<String> {
    let limits = Limits::of(SIZE.max(LEAST_FRAME), HELD, MOST_BYTES)?;
    let (frames, sum) = run(alloc, limits, shared, length.of(ROUNDS)).ok()?;
    format!(in alloc; "frames {frames} sum {sum}").ok()
}
