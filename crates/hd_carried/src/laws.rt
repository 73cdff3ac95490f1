//! Laws of a server over wires. No function here does anything: its contract is the law.

ghost use Rattle.hd_carried.specs.Answered.{RequestsComeFree};
ghost use Rattle.hd_carried.specs.Told.{LanesAreKnown};
ghost use Rattle.hd_carried.specs.Wires.{BytesAreServed};

use hw_door::{Door, Wires};
use hw_net::NetDoor;

/// A server and its door's session, where they tell the same in the same order, know the same of each lane: whether a reply is awaited there, and whether
/// it is upgraded.
pub fn lanes_are_known()
    ensures { LanesAreKnown }
{}

/// To a server that did nothing before, over a door that was just started, a request comes only where it may: on a lane that is no WebSocket and on which
/// none waits for its reply. So all that it heard is answered, but for the last event where the answer to that was cut short.
pub fn requests_come_free<W: Wires + Drop, Job>()
    ensures { RequestsComeFree ⟦<NetDoor<W> as Door>⟧.Goes Job }
{
    hw_net::calls_are_a_session::<W>();
    hw_net::requests_are_free();
    hd_server::parts_of_turns();
    hd_server::each_request_is_answered::<Job>();
}

/// From the bytes that are read to those that are written: on each wire of a door the server hears the requests and messages that the bytes read there spell, and
/// what it gives for them is what is written there, or waits: the texts of its replies, in order, and on a WebSocket frames, of which the messages are those that
/// it sent. Not said are the last reply and the messages for a lane that isn't live any more, and messages for a WebSocket that is gone.
pub fn bytes_are_served<W: Wires + Drop, Job>()
    ensures { BytesAreServed ⟦<NetDoor<W> as Door>⟧.Goes W.trace Job }
{
    hw_socket::lanes_write_frames();
    hw_net::calls_are_a_session::<W>();
    hw_net::requests_are_asked();
    hw_net::requests_are_free();
    hw_net::replies_are_written();
    hw_net::replies_are_said();
    hw_net::sockets_are_carried();
    hd_server::parts_of_turns();
    hd_server::each_request_is_answered::<Job>();
}
