//! Reads requests of one head from a lane: a measure of `hh_http`. `bench/http/peer` parses the same head with Rust's `httparse` alone.

use hh_http::{HttpError, HttpLane};
use std::alloc::Global;

/// How many bytes of paths came.
fn read_one(lane: &mut HttpLane, head: &[u8]) -> Result<u64, HttpError> {
    let _fed = lane.feed(head);
    match lane.next_request()? {
        Some(request) => Ok(request.path.bytes().len() as u64),
        None => Ok(0),
    }
}

fn run(alloc: Global, head: &[u8], requests: u32) -> Result<u64, HttpError> {
    let mut lane = HttpLane::start(alloc)?;
    let mut sum: u64 = 0;
    for _ in 0..requests {
        sum = sum.wrapping_add(read_one(&mut lane, head)?);
    }
    Ok(sum)
}

/// How many bytes of paths came in so many requests.
pub fn measured(alloc: Global, head: &[u8], requests: u32) -> Option<String> {
    let sum = run(alloc, head, requests).ok()?;
    format!(in alloc; "bytes {sum}").ok()
}
