//! Whole requests and responses, taken off the front of the bytes that a lane holds.
ghost use Rattle.std.specs.Prelude.{◌≡◌, ◌≤◌, ◌<◌, min, drop, slice_range, vec_len, vec_capacity, IfSome, IfNone, IfOk, OnErr};

use crate::limits::MOST_HEAD;
use hw_lanes::Vec8;
use std::alloc::{AllocError, Global};

/// Takes the first `end` bytes off, and gives those from `start` on, or `None` if there are fewer. Of the memory that was reserved for
/// them `held` then keeps [`MOST_HEAD`] bytes, or more if what is left needs more.
pub(crate) fn take_body(
    alloc: Global,
    held: &mut Vec<u8>,
    start: usize,
    end: usize,
) -> Result<Option<Vec8>, AllocError>
    requires { start ≤ end }
    ensures body { IfOk result (λ o. IfSome o (λ body.
        body ≡ slice_range held.old.items start end)) }
    ensures whole { IfOk result (λ o. IfSome o (λ body. end ≤ vec_len held.old)) }
    ensures rest { IfOk result (λ o. IfSome o (λ body.
        held.new.items ≡ drop end held.old.items)) }
    ensures short { IfOk result (λ o. IfNone o (vec_len held.old < end)) }
    ensures waits { IfOk result (λ o. IfNone o (held.new.items ≡ held.old.items)) }
    ensures err { OnErr result (held.new.items ≡ held.old.items) }
    ensures keeps { IfOk result (λ o. IfSome o (λ body.
        min MOST_HEAD (vec_capacity held.old) ≤ vec_capacity held.new)) }
    ensures capacity { IfOk result (λ o. IfNone o (vec_capacity held.new ≡ vec_capacity held.old)) }
    ensures err_capacity { OnErr result (vec_capacity held.new ≡ vec_capacity held.old) }
{
    if held.len() < end {
        return Ok(None);
    }
    let body = Vec8::of(alloc, &held[start..end])?;
    held.drain(..end);
    held.shrink_to(MOST_HEAD);
    Ok(Some(body))
}
