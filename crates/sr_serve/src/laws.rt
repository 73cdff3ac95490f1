//! What crates above cite of serving. No function here does anything: its contract is the law.

ghost use Rattle.sr_serve.specs.Wires.{WiresAreServed};

use hub_demo::ServeJob;
use hw_door::{Door, Wires};
use hw_net::NetDoor;

/// What is served over a `NetDoor` that was just started, over any wires, is so to the byte: on each wire the requests and messages are heard that the bytes read
/// there spell, and what is written there, or waits, are the replies and the messages that the server gives for them.
pub fn wires_are_served<W: Wires + Drop>()
    ensures { WiresAreServed ⟦<NetDoor<W> as Door>⟧.Goes W.trace }
{
    hd_carried::bytes_are_served::<W, ServeJob>();
}
