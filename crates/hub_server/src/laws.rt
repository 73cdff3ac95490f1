//! What crates above cite of servers. No function here does anything: its contract is the law.

ghost use Rattle.hub_server.specs.Laws.{PollsAreBounded};

/// The body of a poll's reply has at most 65,536 bytes, whatever the end of its connection did: no frame that such an end has to say
/// has more than 32,773 with its framing.
pub fn polls_are_bounded()
    ensures { PollsAreBounded }
{
    hd_server::bodies_are_bounded();
    he_wire::says_no_more();
}
