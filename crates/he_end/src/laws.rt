//! What holds of two ends. No function here does anything: its contract is the law.

ghost use Rattle.he_end.specs.Laws.{Deliver};

use crate::end::End;
use hd_delivery::delivery_as_sent;
use he_wire::wire_is_faithful;

/// Two ends deliver what they send: nothing is refused, each message is processed once and in the order in which it was sent,
/// and once both ends are still all of them are processed and none is held. It holds in each world in which each keeps to its own
/// limits, with one greatest frame for both, and for whose histories they stand.
pub fn ends_deliver(client: &End, server: &End)
    ensures { Deliver client.now server.now }
{
    delivery_as_sent();
    wire_is_faithful();
    // Limits are in range, so handshakes and control frames have room in a frame.
    let _ = client.limits().frame();
    let _ = server.limits().frame();
}
