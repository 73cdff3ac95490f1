//! How much the ends of a server hold.

ghost use Rattle.std.specs.Prelude.{◌≡◌, ◌↔◌, ℕ, List, IsSome, IfSome};
ghost use Rattle.hd_delivery.specs.Bytes.{Wire};
ghost use Rattle.hd_server.specs.Numbers.{most_live};
ghost use Rattle.hd_server.specs.Plans.{usual_setup};
ghost use Rattle.hub_server.specs.Resend.{AreResendLimits, limits_with, setup_with, usual_resend};

use hd_delivery::{Limits, MOST_COUNT, MOST_FRAMING};
use hd_server::{MOST_FRAME, MOST_HELD, MOST_HELD_BYTES};
use std::marker::Model;

/// The greatest limit of the bytes held, framing included: half of what a WebSocket message may have, because all that is said again on a new
/// link goes in one message.
pub const MOST_RESEND_BYTES: usize = 524_288;

/// The most messages that each end of a server holds, and the most bytes of these with their framing. A resumable connection holds a message
/// until it is acknowledged, and any other until it is written.
///
/// Each end takes 8 bytes for each of `count` messages when it begins.
#[derive(Clone, Copy, Debug, PartialEq, Eq)]
pub struct ResendLimits {
    count: usize,
    bytes: usize,
}

impl Model for ResendLimits {
    ghost use Rattle.hub_server.specs.Resend as limits;
    ghost use Rattle.hub_server.specs.Resend.{AreResendLimits};

    ghost Value = { limits.ResendLimits };

    ghost view = { λ r. record { count = r.count; bytes = r.bytes } };

    ghost invariant = { λ r. AreResendLimits (record { count = r.count; bytes = r.bytes }) };

    ghost inverse = { λ d. record { count = d.count; bytes = d.bytes } };
}

impl ResendLimits {
    /// 1,024 messages and 100,000 bytes.
    pub fn usual() -> ResendLimits
        ensures value { result ≡ usual_resend }
        ensures setup { (base : List ℕ) (wire : Wire) → setup_with base wire result most_live ≡ usual_setup base wire }
    {
        hd_server::numbers_are_named();
        ResendLimits {
            count: MOST_HELD,
            bytes: MOST_HELD_BYTES,
        }
    }

    /// These limits, if each is in range: `count` from 1 to `MOST_COUNT`, which is 65,536, and `bytes` from the largest framed frame, which
    /// is 32,773, to [`MOST_RESEND_BYTES`].
    pub fn of(count: usize, bytes: usize) -> Option<ResendLimits>
        ensures in_range { IsSome result ↔ AreResendLimits (record { count = count; bytes = bytes }) }
        ensures value { IfSome result (λ resend. resend ≡ record { count = count; bytes = bytes }) }
    {
        let in_range = 1 <= count
            && count <= MOST_COUNT
            && MOST_FRAME + MOST_FRAMING <= bytes
            && bytes <= MOST_RESEND_BYTES;
        if !in_range {
            return None;
        }
        Some(ResendLimits { count, bytes })
    }

    /// The limits of an end.
    pub fn limits(self) -> Limits
        ensures { result ≡ limits_with self }
    {
        hd_server::numbers_are_named();
        Limits::of(MOST_FRAME, self.count, self.bytes).unwrap()
    }
}
