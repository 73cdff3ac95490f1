//! What crates above cite of the definitions. No function here does anything: its contract is the law.

ghost use Rattle.std.specs.Prelude.{◌≡◌};
ghost use Rattle.hw_net.specs.Awaited.{RepliesAreSaid, RequestsAreFree};
ghost use Rattle.hw_net.specs.Bounds.{FailsAreWithin, FlushesAreWithin, HaltsAreWithin, NextIsWithin, NextIsInTime, RepliesAreWithin, SendsAreWithin, ShutsAreWithin};
ghost use Rattle.hw_net.specs.Chains.{CallsAreASession, CallsSplit};
ghost use Rattle.hw_net.specs.DialerChains.{CallsAreADialerSession};
ghost use Rattle.hw_net.specs.DialerNumbers.{AsksRise};
ghost use Rattle.hw_net.specs.DialerSessions.{AsksAreWritten, DialedDrainedWereFull, DialedFullnessIsTold, DialedLanesAreBounded, DialedLanesHaveWires, DialedLossesHaveCauses, DialedSocketsAreCarried, DialedWiresAreShutForACause, DialedWiresAreShutOnce, LanesAreThoseAsked, LanesKeepWires, NothingIsHeardAfter, ResponsesAreAwaited, ResponsesAreGiven, UndialedAreMissed};
ghost use Rattle.hw_net.specs.Limits.{piece, most_unwritten, most_gathered, most_gathered_bytes, most_before_full, most_drained, most_stalled, most_wait, most_closing, most_named, switching};
ghost use Rattle.hw_net.specs.Numbers.{FlushesKeepNumbers, NumbersRise, RepliesKeepNumbers, SendsKeepNumbers, ShutsKeepNumbers};
ghost use Rattle.hw_net.specs.Reaching.{OthersListen, LanesAreReached};
ghost use Rattle.hw_net.specs.Sessions.{FlushesAreCalls, NextIsCalls, RequestsAreAsked, RefusalsAreDeserved, RepliesAreWritten, RequestsWaitForReplies, WiresAreShutForACause, WiresAreShutOnce, LanesHaveWires, LossesHaveCauses, FullnessIsTold, DrainedWereFull, SocketsAreCarried};

use crate::dialer::NetDialer;
use crate::door::NetDoor;
use crate::limits::{
    MOST_BEFORE_FULL, MOST_CLOSING, MOST_DRAINED, MOST_GATHERED, MOST_GATHERED_BYTES, MOST_NAMED,
    MOST_STALLED, MOST_UNWRITTEN, MOST_WAIT, PIECE, SWITCHING,
};
use hw_door::{Dialer, Door, Wires};

/// The constants are the numbers of the definitions.
pub fn limits_are_named()
    ensures read { PIECE ≡ piece }
    ensures unwritten { MOST_UNWRITTEN ≡ most_unwritten }
    ensures gathered { MOST_GATHERED ≡ most_gathered }
    ensures gathered_bytes { MOST_GATHERED_BYTES ≡ most_gathered_bytes }
    ensures full { MOST_BEFORE_FULL ≡ most_before_full }
    ensures drained { MOST_DRAINED ≡ most_drained }
    ensures stalled { MOST_STALLED ≡ most_stalled }
    ensures wait { MOST_WAIT ≡ most_wait }
    ensures closing { MOST_CLOSING ≡ most_closing }
    ensures named { MOST_NAMED ≡ most_named }
    ensures status { SWITCHING ≡ switching }
{}

/// After each call no more waits on a lane than may, unless its wire was shut.
pub fn lanes_are_bounded()
    ensures next { NextIsWithin }
    ensures fails { FailsAreWithin }
    ensures halts { HaltsAreWithin }
    ensures flushed { FlushesAreWithin }
    ensures replied { RepliesAreWithin }
    ensures sent { SendsAreWithin }
    ensures shut { ShutsAreWithin }
{}

/// A lane closes for less than 30,000 ms: after each call of `next` those that still close began to after that.
pub fn closing_ends()
    ensures { NextIsInTime }
{}

/// The numbers of lanes rise in the order in which the lanes came, so no two lanes have one number.
pub fn numbers_rise()
    ensures next { NumbersRise }
    ensures flushed { FlushesKeepNumbers }
    ensures replied { RepliesKeepNumbers }
    ensures sent { SendsKeepNumbers }
    ensures shut { ShutsKeepNumbers }
{}

/// In any calls of a dialer the lanes of its asks rise, from the first after the lane that was answered last.
pub fn asks_rise<W: Wires + Drop>()
    ensures { AsksRise ⟦<NetDialer<W> as Dialer>⟧.Goes }
{}

/// The calls by which a dialer that was just started goes anywhere are a session of the dialer, if none of `next` failed: it heard and was given the same, in
/// order, its asks that are said stand on wires, and over wires that tell, its answers are what they told meanwhile.
pub fn dialer_calls_are_a_session<W: Wires + Drop>()
    ensures { CallsAreADialerSession ⟦<NetDialer<W> as Dialer>⟧.Goes W.trace W.wires }
{}

/// A flush is calls of a session, each of which writes what waits on one lane. A call of `next` is such calls, or none, and then one that hears. So
/// what holds in any session holds whatever is gathered.
pub fn flushes_are_calls()
    ensures flushed { FlushesAreCalls }
    ensures next { NextIsCalls }
{}

/// The calls by which a door that was just started goes anywhere are a session, if none of `next` failed: it heard and was given the same, in order, and
/// over wires that tell, its answers are what they told meanwhile. So what holds in any session holds of all that was heard through the door and given to
/// it, up to the first call of `next` that fails.
pub fn calls_are_a_session<W: Wires + Drop>()
    ensures session { CallsAreASession ⟦<NetDoor<W> as Door>⟧.Goes W.trace W.wires }
    ensures split { CallsSplit ⟦<NetDoor<W> as Door>⟧.Goes }
{}

/// In any session the requests heard on a lane are those of all bytes read on its wire, in whatever pieces, and what is refused
/// there is what these leave.
pub fn requests_are_asked()
    ensures asked { RequestsAreAsked }
    ensures refused { RefusalsAreDeserved }
{}

/// In any session the bytes written on a lane's wire, and then those that wait, are the texts of the replies said there, in order, and
/// then the frames of its WebSocket, if it became one.
pub fn replies_are_written()
    ensures { RepliesAreWritten }
{}

/// In any session of a dialer the bytes written on a lane's wire, and then those that wait, are the text of its ask, and then the frames of its WebSocket, if it
/// became one. A lane stands on the wire on which it asked, and what is heard, sent and shut on a wire is told of the lane that asked there.
pub fn asks_are_written()
    ensures written { AsksAreWritten }
    ensures lanes { LanesKeepWires }
    ensures told { LanesAreThoseAsked }
{}

/// A request is heard on a lane only once each one before it there was replied to.
pub fn requests_wait_for_replies()
    ensures { RequestsWaitForReplies }
{}

/// To a caller that replies only where a reply is awaited, a request is heard only on a lane where none is and that was given no upgrade.
pub fn requests_are_free()
    ensures { RequestsAreFree }
{}

/// Of a caller that replies only where a reply is awaited, all replies are said, in order, but for the last one on a lane that isn't live any more.
pub fn replies_are_said()
    ensures { RepliesAreSaid }
{}

/// A wire is shut only if its lane is heard no more but for its loss, and only once, and then nothing is read or written on it.
pub fn wires_are_shut_for_a_cause()
    ensures cause { WiresAreShutForACause }
    ensures once { WiresAreShutOnce }
    ensures lanes { LanesHaveWires }
{}

/// A lane is heard as lost only for one of the causes: a read found that its wire ended or failed, a write on it failed, its WebSocket is gone, it waited for a
/// request for 30,000 ms, it was full and nothing could be written on its wire for 30,000 ms, more than 1,048,576 bytes would wait, or memory was out when it was
/// read. Where a read found the end, its WebSocket had heard each message that is whole in the bytes read, also in those that came with its upgrade, or was gone.
pub fn losses_have_causes()
    ensures { LossesHaveCauses }
{}

/// A response that is heard on a dialed lane is the first there, and the one with which all bytes begin that were read on its wire, in whatever pieces. The lane of
/// an ask for a WebSocket is heard as upgraded exactly if that is a 101 which accepts its own key. A live lane on which none was heard has read the beginning
/// of one, or nothing: so each response that is read is heard, unless its lane is lost or shut before.
pub fn responses_are_given()
    ensures given { ResponsesAreGiven }
    ensures awaited { ResponsesAreAwaited }
{}

/// A lane of a dialer is heard as lost only for one of the causes of a door's, where what it waits for is its response, or because what came is no response, or
/// a 101 that isn't the upgrade that was asked for. Where a read found the end, its WebSocket had heard all that is whole, as a door's had. A lane that stands on
/// no wire is lost because its ask went nowhere: once, and in the order of the asks. Nothing is heard of a lane after its loss, and of one that the caller shut
/// nothing but its loss, where its wire was shut before.
pub fn dialed_losses_have_causes()
    ensures causes { DialedLossesHaveCauses }
    ensures missed { UndialedAreMissed }
    ensures last { NothingIsHeardAfter }
{}

/// The wire of a dialed lane is shut only if the lane is heard no more but for its loss, or if memory was out for its ask; and only once, and then nothing is read
/// or written on it.
pub fn dialed_wires_are_shut_for_a_cause()
    ensures cause { DialedWiresAreShutForACause }
    ensures once { DialedWiresAreShutOnce }
    ensures lanes { DialedLanesHaveWires }
{}

/// In any session of a dialer no more waits on a lane than may, unless its wire was shut.
pub fn dialed_lanes_are_bounded()
    ensures { DialedLanesAreBounded }
{}

/// In any session a live lane is full exactly if the answer to the last message sent there was so and it wasn't heard as drained since;
/// and it is heard as drained only if it was full.
pub fn fullness_is_told()
    ensures full { FullnessIsTold }
    ensures drained { DrainedWereFull }
{}

/// In any session of a dialer a live lane is full exactly if that was told last, and it is heard as drained only if it was full.
pub fn dialed_fullness_is_told()
    ensures full { DialedFullnessIsTold }
    ensures drained { DialedDrainedWereFull }
{}

/// A lane listens in each search that doesn't pass it over, as one does that hears a lane before it, unless lanes rest in it. Calls one after
/// the other, in any state of a door, pass it over in fewer of `next` than 65 for each lane that is there or comes meanwhile, whatever the wires
/// name.
pub fn lanes_are_reached()
    ensures listens { OthersListen }
    ensures reached { LanesAreReached }
{}

/// A lane that became a WebSocket carries a fresh one, call by call. It is fed what the requests leave of the bytes read up to the upgrade and then all others that
/// are read, its payloads are the messages heard, and what it wrote stands behind the replies.
pub fn sockets_are_carried()
    ensures { SocketsAreCarried }
{}

/// So does a lane of a dialer, from its upgrade on. It is a client's, with the masks of the seed that was given with the ask, is fed what the response leaves of the
/// bytes read up to the upgrade and then all others that are read, and what it wrote stands behind the ask.
pub fn dialed_sockets_are_carried()
    ensures { DialedSocketsAreCarried }
{}
