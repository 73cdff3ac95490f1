//! Laws of a client. No function here does anything: its contract is the law.

ghost use Rattle.hd_client.specs.Laws.{AllReasonsAreComputed, CallsEndOnce, ClientsAreDialed, ClientsAreSides, DialedIsTurns, EndsLeaveNoLane, NothingIsLeft, RefusalsAreRight};

/// A client's connection is dialed by the rules of `hd_dialing`, so its laws hold of it.
pub fn clients_are_dialed<Job>()
    ensures { ClientsAreDialed Job }
{}

/// What a client's peer did is what a peer can do by itself, and it is the client's side of every world in which it stands: each message comes once
/// and in order, whatever links are lost.
pub fn clients_are_sides<Job>()
    ensures { ClientsAreSides Job }
{
    hd_delivery::delivery_over_bytes();
}

/// A call is printed as ended at most once.
pub fn calls_end_once<Job>()
    ensures { CallsEndOnce Job }
{
    hd_calls::peers_keep::<Job>();
}

/// After a turn nothing is due on the lane that is up, unless that was full.
pub fn nothing_left<Job>()
    ensures { NothingIsLeft Job }
{}

/// After a turn that ends a client no lane of its connection is up, and it is dialed no more.
pub fn ends_leave_no_lane<Job>()
    ensures { EndsLeaveNoLane Job }
{}

/// What a client that hears through a dialer is told to have heard, given, seen, drawn and printed is what a list of turns does.
pub fn dialed_is_turns<Job>()
    ensures { DialedIsTurns Job }
{}

/// Why a message isn't sent is computed as the rules of peers and ends say it.
pub fn refusals_are_right()
    ensures { RefusalsAreRight }
{}

/// A reason by which a peer refuses a call, an upload or a cancellation is the one that is computed, so there is only one; and what it does has none.
pub fn reasons_are_computed()
    ensures { AllReasonsAreComputed }
{}
