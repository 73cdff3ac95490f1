//! The limits of what an end holds.

ghost use Rattle.std.specs.Prelude.{◌≡◌, ◌↔◌, IsSome, IfSome};
ghost use Rattle.hd_delivery.specs.Bounds.{AreLimits};

use crate::vocabulary::MOST_FRAMING;
use std::marker::Model;

/// The least limit of a frame, in bytes without its framing.
pub const LEAST_FRAME: usize = 256;

/// The greatest limit of a frame: a mebibyte, without its framing.
pub const MOST_FRAME: usize = 1_048_576;

/// The greatest limit of the number of frames held.
pub const MOST_COUNT: usize = 65_536;

/// The greatest limit of the bytes held, framing included: 16 MiB.
pub const MOST_BYTES: usize = 16_777_216;

/// The most bytes of a frame without its framing, and the most frames and framed bytes that are held.
#[derive(Clone, Copy, Debug, PartialEq, Eq)]
pub struct Limits {
    frame: usize,
    count: usize,
    bytes: usize,
}

impl Model for Limits {
    ghost use Rattle.hd_delivery.specs.Worlds as worlds;
    ghost use Rattle.hd_delivery.specs.Bounds.{AreLimits};

    ghost Value = { worlds.Limits };

    ghost view = { λ l. record { frame = l.frame; count = l.count; bytes = l.bytes } };

    ghost invariant = { λ l. AreLimits (record { frame = l.frame; count = l.count; bytes = l.bytes }) };

    ghost inverse = { λ d. record { frame = d.frame; count = d.count; bytes = d.bytes } };
}

impl Limits {
    /// These limits, if each is in range: `frame` from `LEAST_FRAME` to `MOST_FRAME`, `count` from 1 to `MOST_COUNT`, and
    /// `bytes` from the largest framed frame to `MOST_BYTES`.
    pub fn of(frame: usize, count: usize, bytes: usize) -> Option<Limits>
        ensures in_range { IsSome result ↔
            AreLimits (record { frame = frame; count = count; bytes = bytes }) }
        ensures value { IfSome result (λ limits.
            limits ≡ record { frame = frame; count = count; bytes = bytes }) }
    {
        let in_range = LEAST_FRAME <= frame
            && frame <= MOST_FRAME
            && 1 <= count
            && count <= MOST_COUNT
            && frame + MOST_FRAMING <= bytes
            && bytes <= MOST_BYTES;
        if !in_range {
            return None;
        }
        Some(Limits {
            frame,
            count,
            bytes,
        })
    }

    /// The most bytes of a frame, without its framing.
    pub fn frame(&self) -> usize
        ensures value { result ≡ self.now.frame }
        ensures in_range { AreLimits self.now }
    {
        self.frame
    }

    /// The most frames that are held.
    pub fn count(&self) -> usize
        ensures value { result ≡ self.now.count }
        ensures in_range { AreLimits self.now }
    {
        self.count
    }

    /// The most bytes that are held, of frames with their framing.
    pub fn bytes(&self) -> usize
        ensures value { result ≡ self.now.bytes }
        ensures in_range { AreLimits self.now }
    {
        self.bytes
    }
}
