//! How a door answers what is no request.

ghost use Rattle.std.specs.Prelude.{◌≡◌};
ghost use Rattle.hw_net.specs.Lane.{refusal_of};

use hw_lanes::{BodyKind, Refusal, Reply, Vec8};
use std::alloc::Global;

/// A reply with this status and field, and no body, after which the lane ends.
pub fn refusal_reply(alloc: Global, refusal: Refusal) -> Reply
    ensures { result ≡ refusal_of refusal }
{
    Reply {
        status: refusal.status,
        kind: BodyKind::None,
        body: Vec8::from_vec(Vec::new(alloc)),
        accept: None,
        field: refusal.field,
        close: true,
    }
}
