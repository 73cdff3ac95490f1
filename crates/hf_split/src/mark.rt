//! Where the first record separator stands.

ghost use Rattle.hf_split.specs.Marks.{IsFirstMark};

use crate::framing::SEPARATOR;
use memchr::memchr;

// How many bytes are looked at one by one: `memchr` looks at 64 at once, which is slow for short frames.
const NEAR: usize = 8;

/// The place of the first separator, looking at one byte after the other.
fn near_mark(bytes: &[u8]) -> Option<usize>
    ensures { IsFirstMark bytes.now result }
{
    for (i, byte) in bytes.iter().enumerate() {
        if *byte == SEPARATOR {
            return Some(i);
        }
    }
    None
}

/// The place of the first separator, looking at many bytes at once.
#[inline(never)]
fn far_mark(bytes: &[u8]) -> Option<usize>
    ensures { IsFirstMark bytes.now result }
{
    memchr(SEPARATOR, bytes)
}

/// The place of the first separator.
#[inline(always)]
pub(crate) fn first_mark(bytes: &[u8]) -> Option<usize>
    ensures { IsFirstMark bytes.now result }
{
    let near = bytes.len().min(NEAR);
    if let Some(place) = near_mark(&bytes[..near]) {
        return Some(place);
    }
    let place = far_mark(&bytes[near..])?;
    Some(near + place)
}
