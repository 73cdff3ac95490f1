//! Laws of a server. No function here does anything: its contract is the law.

ghost use Rattle.std.specs.Prelude.{◌≡◌, ◌+◌};
ghost use Rattle.hd_delivery.specs.Numbers.{most_framing};
ghost use Rattle.hd_server.specs.Laws.{AllowedAreServed, BodiesAreBounded, ConnectionsInOrder, EachMemberOnce, EachRequestIsAnswered, FatesAreRefusals, FewLive, GroupsAreFew, IdleTicksAreUnseen, LivesAreSettled, LotsMatterToTokens, MomentsComeOnce, NothingIsLeft, OutcomesSuit, PartsOfTurns, ServedIsServes, ServersArePeers, ServersHaveFew, ServersNoteInOrder, SocketsByLife, TokensDiffer, TurnsAreTested, TurnsGoFurther, WhatIsToldGrows};
ghost use Rattle.hd_server.specs.Numbers.{most_before_last, most_connections, most_frame, most_held, most_held_bytes, most_live, most_polled, most_wait, lives_for, held_for};

use crate::vocabulary::{
    HELD_FOR, LIVES_FOR, MOST_BEFORE_LAST, MOST_CONNECTIONS, MOST_FRAME, MOST_HELD,
    MOST_HELD_BYTES, MOST_LIVE, MOST_POLLED, MOST_WAIT,
};

/// The constants are the numbers of the definitions.
pub fn numbers_are_named()
    ensures live { MOST_LIVE ≡ most_live }
    ensures made { MOST_CONNECTIONS ≡ most_connections }
    ensures unused { LIVES_FOR ≡ lives_for }
    ensures held { HELD_FOR ≡ held_for }
    ensures polled { MOST_POLLED ≡ most_polled }
    ensures wait { MOST_WAIT ≡ most_wait }
    ensures before_last { MOST_BEFORE_LAST ≡ most_before_last }
    ensures frame { MOST_FRAME ≡ most_frame }
    ensures count { MOST_HELD ≡ most_held }
    ensures bytes { MOST_HELD_BYTES ≡ most_held_bytes }
    ensures last { most_before_last + (most_frame + most_framing) ≡ most_polled }
{}

/// A socket that names a token is answered by the token's life and whether its end may be resumed, and by nothing else.
pub fn sockets_by_life()
    ensures { SocketsByLife }
{}

/// What is done about a request suits it and what was looked at: a refusal can be sent, a connection is made for one who may have it, and
/// what is done for a token is done in a life for which it is meant.
pub fn outcomes_suit()
    ensures { OutcomesSuit }
{}

/// Lots that fail turn away a request for a token with status 500, and no other request.
pub fn lots_matter_to_tokens()
    ensures { LotsMatterToTokens }
{}

/// No request is refused with 405 whose method is allowed at its path, as a 405 tells.
pub fn allowed_are_served()
    ensures { AllowedAreServed }
{}

/// The machine lets a peer's jobs have turns exactly if the rules of peers do.
pub fn turns_are_tested()
    ensures { TurnsAreTested }
{}

/// A member of a broadcast gets it if its end may send it, is closed if its end refuses it for want of room, and is passed over if it
/// nests too deep or its end refuses it for another reason.
pub fn fates_are_refusals()
    ensures { FatesAreRefusals }
{
    hm_message::image_is_its_image();
}

/// A deed is told to each member of its group or user once, also to one that joined twice.
pub fn broadcasts_once()
    ensures { EachMemberOnce }
{
    hd_rooms::pairs_stay_distinct();
}

/// A connection is in 256 groups at most.
pub fn groups_are_few()
    ensures { GroupsAreFew }
{
    hd_rooms::groups_are_bounded();
}

/// In a round connections have their turns in the order of their numbers.
pub fn connections_in_order()
    ensures { ConnectionsInOrder }
{}

/// A tick that is no silence and makes no new Ping due changes nothing that the end says or reads then.
pub fn idle_ticks()
    ensures { IdleTicksAreUnseen }
{}

/// After an event nothing is due on a connection that stands on a socket whose lane isn't full, or holds a poll.
pub fn nothing_left<Job>()
    ensures { NothingIsLeft Job }
{}

/// An event is heard once in its turn, and what was done before stays.
pub fn turns_go_further<Job>()
    ensures { TurnsGoFurther Job }
{}

/// Of which events each part of a turn consists: what a moment has ended, what is asked, what is planned, and what a connection does as
/// it ticks and as it says what is due.
pub fn parts_of_turns()
    ensures { PartsOfTurns }
{}

/// What was heard, asked, drawn, said and answered to messages is told as lists that only grow.
pub fn what_is_told_grows()
    ensures { WhatIsToldGrows }
{}

/// A server heard what it is said to have heard, and what each of its connections did is what a peer can do by itself.
pub fn servers_are_peers<Job>()
    ensures { ServersArePeers Job }
{
    turns_go_further::<Job>();
}

/// The body of a poll's reply has at most 65,536 bytes, if no frame in it has more than 32,773 with its framing.
pub fn bodies_are_bounded()
    ensures { BodiesAreBounded }
{}

/// Once the first of the connections whose moment has come has expired, the others are left.
pub fn moments_come_once()
    ensures { MomentsComeOnce }
{}

/// Two connections have two tokens, whatever was drawn for them.
pub fn tokens_differ()
    ensures { TokensDiffer }
{}

/// Where no moment has come that wasn't noted, the life of a connection is what it is but for moments.
pub fn lives_are_settled()
    ensures { LivesAreSettled }
{}

/// At most so many connections live, if moments don't fall, new ones are made while fewer live, of the moments that come the first is
/// noted, and anything else is noted only of one whose life is known.
pub fn few_live()
    ensures { FewLive }
{}

/// A server that hears through a door is one that heard all that it answered, gave first what it says of that, and saw what was answered to
/// its messages. Not answered is what comes from a request on that may not come, and the last event if its answer was cut short.
pub fn served_is_serves<Job>()
    ensures { ServedIsServes Job }
{}

/// What a server notes of its connections comes in order, and nothing later than what it heard last.
pub fn servers_note_in_order<Job>()
    ensures { ServersNoteInOrder Job }
{}

/// At most as many connections of a server live as it was begun with, after each event and until the next.
pub fn servers_have_few<Job>()
    ensures { ServersHaveFew Job }
{
    servers_note_in_order::<Job>();
    few_live();
}

/// A server answers each request once, by a reply that may be sent, and leaves none without a reply but the polls that it holds.
pub fn each_request_is_answered<Job>()
    ensures { EachRequestIsAnswered Job }
{}
