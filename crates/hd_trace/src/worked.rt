//! Worked traces, of two ends and of one, which the checker computes.

ghost use Rattle.std.specs.Prelude.{◌≡◌, ◌++◌, true, false, Some, None, [], ◌∷◌};
ghost use Rattle.hd_delivery.specs.declared.vocabulary.Got.TheVariants as gives;
ghost use Rattle.hd_delivery.specs.declared.vocabulary.Got.TheVariants.{Resumed};
ghost use Rattle.hd_delivery.specs.declared.vocabulary.Side.TheVariants.{Client, Server};
ghost use Rattle.hd_delivery.specs.Histories.{Attached, Lent, Sent, Silenced, Took};
ghost use Rattle.hd_delivery.specs.Frames.{Ack, Numbered, Sequence};
ghost use Rattle.hd_delivery.specs.Bytes.{Bytes, Does};
ghost use Rattle.hd_delivery.specs.Examples.{a, b, limits_of, usual};
ghost use Rattle.hd_delivery.specs.ExamplesOverBytes.{acknowledged_over_bytes, bytewise, client, closed_over_bytes, three_said, unread_nine};
ghost use Rattle.hd_trace.specs.declared.trace.Rule.TheVariants as rule;
ghost use Rattle.hd_trace.specs.declared.trace.ToldStep.TheVariants as tells;
ghost use Rattle.hd_trace.specs.declared.verdict.Verdict.TheVariants as verdict;
ghost use Rattle.hd_trace.specs.declared.verdict.VerdictAlone.TheVariants as alone;
ghost use Rattle.hd_trace.specs.Examples.{AreBroken, BreaksAfter, BreaksAlone, BreaksFrom, ComesTo, ComesToAlone, IsTold, MayComeAfter, MayComeAlone, MayComeFrom, acknowledged_lines, again_at, attached, by_client, by_server, client_on_five, closed_unread, closed_with_allow, counts, lost, lost_at, marks_at, processed_at, requested, resuming, server_lines, server_on_five, setup_at, silent, ticked, told_lines, unread_lines};

use crate::laws::{records_tell, records_tell_alone};

/// A session, line by line: a message is said, processed and acknowledged. What it tells is a world.
pub fn a_session()
    ensures lines { told_lines acknowledged_over_bytes ≡ acknowledged_lines (tells.Send a) }
    ensures told { IsTold (acknowledged_lines (tells.Send a)) acknowledged_over_bytes }
    ensures silent { told_lines silent ≡
        by_client (tells.Attach 0) ∷ by_client (tells.Lend (1 ∷ 2 ∷ 0 ∷ 0 ∷ [])) ∷
        by_client (tells.Tick 30000) ∷ by_server (tells.Attach 0) ∷ [] }
    ensures untold { told_lines closed_with_allow ≡ by_client (tells.Attach 0) ∷ [] }
{
    hd_delivery::worked_over_bytes();
    records_tell();
}

/// The first lines of a trace, and those that break it off: the number of such a line, and its rule.
pub fn first_lines()
    ensures attached { IsTold (by_client (tells.Attach 0) ∷ []) attached }
    ensures requested { IsTold
        (by_client (tells.Attach 0) ∷ by_client (tells.Lend (1 ∷ 2 ∷ 0 ∷ 0 ∷ [])) ∷ []) requested }
    ensures first { AreBroken (by_server (tells.Attach 0) ∷ []) 2 rule.Link }
    ensures second { AreBroken
        (by_client (tells.Attach 0) ∷ by_client (tells.Lend (123 ∷ 125 ∷ 30 ∷ [])) ∷
        by_client tells.Detach ∷ []) 3 rule.Due }
{}

/// What lines come to: both ends are still, or an Ack wasn't taken yet; a trace without a line, one that breaks off, and one of the server alone.
pub fn verdicts()
    ensures still { ComesTo (acknowledged_lines (tells.Send a))
        (verdict.World (counts 1 0) (counts 0 1) true) }
    ensures unread { ComesTo (unread_lines (tells.Send a))
        (verdict.World (counts 1 0) (counts 0 1) false) }
    ensures none { ComesTo [] (verdict.World (counts 0 0) (counts 0 0) false) }
    ensures breaks { ComesTo (by_server (tells.Attach 0) ∷ []) (verdict.Breaks 2 rule.Link) }
    ensures alone { ComesToAlone Server server_lines (alone.History (counts 0 1)) }
{
    hd_delivery::worked_over_bytes();
    hd_delivery::worlds_are_histories();
    records_tell();
    records_tell_alone();
    a_session();
    first_lines();
}

/// Links: those that an end may not begin, and steps that need one, also of a closed end.
pub fn links()
    ensures closed_and_lost { BreaksAfter usual lost Client (tells.Feed []) rule.Link }
    ensures unknown { BreaksAfter usual acknowledged_over_bytes Server (tells.Attach 1) rule.Link }
    ensures twice { BreaksAfter usual acknowledged_over_bytes Server (tells.Attach 0) rule.Link }
    ensures lower { BreaksAfter usual acknowledged_over_bytes Client (tells.Attach 0) rule.Link }
    ensures higher { MayComeAfter usual acknowledged_over_bytes Client (tells.Attach 1)
        (Does (Attached 1 0)) }
    ensures ungranted { BreaksAfter usual attached Client (tells.Attach 1) rule.Link }
    ensures closed { BreaksAfter usual closed_over_bytes Server (tells.Attach 1) rule.Link }
    ensures lost { BreaksAfter usual attached Server tells.Detach rule.Link }
    ensures fed { BreaksAfter usual attached Server (tells.Feed []) rule.Link }
    ensures lent { BreaksAfter usual [] Client (tells.Lend (1 ∷ 2 ∷ 0 ∷ 0 ∷ [])) rule.Link }
    ensures took { BreaksAfter usual attached Server (tells.Take (1 ∷ 2 ∷ [])) rule.Link }
{}

/// States: what a closed end doesn't do, nor one before the handshake is complete, and moments that fall.
pub fn states()
    ensures fed { BreaksAfter usual closed_over_bytes Server (tells.Feed []) rule.State }
    ensures sent { BreaksAfter usual attached Client (tells.Send a) rule.State }
    ensures sent_closed { BreaksAfter usual closed_over_bytes Server (tells.Send a) rule.State }
    ensures took { BreaksAfter usual closed_unread Server (tells.Take (1 ∷ 2 ∷ [])) rule.State }
    ensures close { BreaksAfter usual closed_over_bytes Server tells.Close rule.State }
    ensures earlier { BreaksAfter usual ticked Client (tells.Tick 4) rule.State }
    ensures earlier_there { BreaksAfter usual ticked Server (tells.Tick 4) rule.State }
    ensures silence { MayComeAfter usual requested Client (tells.Tick 30000)
        (Does (Silenced 30000)) }
{}

/// Bytes: others than the other end said next, and more than an end may have unread.
pub fn bytes()
    ensures other { BreaksAfter usual three_said Server (tells.Feed (3 ∷ 98 ∷ [])) rule.Bytes }
    ensures more { BreaksAfter usual acknowledged_over_bytes Client (tells.Feed (4 ∷ [])) rule.Bytes }
    ensures unread { BreaksAfter (limits_of 4 1024 100000) unread_nine Server (tells.Feed (99 ∷ []))
        rule.Bytes }
    ensures next { MayComeAfter usual unread_nine Server (tells.Feed (99 ∷ [])) (Bytes (99 ∷ [])) }
{}

/// What was said and isn't due, and what was taken and isn't what the next frame gives.
pub fn frames()
    ensures nothing { BreaksAfter usual requested Client (tells.Lend (1 ∷ 2 ∷ 0 ∷ 0 ∷ [])) rule.Due }
    ensures two_frames { BreaksAfter usual attached Client
        (tells.Lend (1 ∷ 2 ∷ 0 ∷ 0 ∷ 1 ∷ 2 ∷ 0 ∷ 0 ∷ [])) rule.Due }
    ensures no_frame { BreaksAfter usual attached Client (tells.Take (1 ∷ 2 ∷ [])) rule.Took }
    ensures other_message { BreaksAfter usual unread_nine Server (tells.Take (2 ∷ 1 ∷ 98 ∷ []))
        rule.Took }
    ensures other_number { BreaksAfter usual unread_nine Server (tells.Take (2 ∷ 2 ∷ 97 ∷ []))
        rule.Took }
    ensures message { MayComeAfter usual unread_nine Server (tells.Take (2 ∷ 1 ∷ 97 ∷ []))
        (Does (Took (gives.Message a))) }
{}

/// Messages without room: too many, too many bytes, and one that is too long.
pub fn room()
    ensures count { BreaksAfter (limits_of 4 3 100000) three_said Client (tells.Send a) rule.Room }
    ensures bytes { BreaksAfter (limits_of 4 1024 15) three_said Client (tells.Send a) rule.Room }
    ensures frame { BreaksAfter (limits_of 3 1024 100000) three_said Client (tells.Send a) rule.Room }
{}

/// Versions: an Ack at version 2 alone; how a later link is opened at versions 2 and 3; and when a message comes again there.
pub fn versions()
    ensures acked { MayComeFrom (setup_at usual 2 true) (processed_at 2) Server
        (tells.Lend (4 ∷ 1 ∷ 0 ∷ 0 ∷ [])) (Does (Lent (Ack 1))) }
    ensures unacked { BreaksFrom (setup_at usual 1 true) (processed_at 1) Server
        (tells.Lend (4 ∷ 1 ∷ 0 ∷ 0 ∷ [])) rule.Due }
    ensures opening { MayComeFrom (setup_at usual 2 true) (again_at 2) Client
        (tells.Lend (5 ∷ 1 ∷ 0 ∷ 0 ∷ [])) (Does (Lent (Sequence 1 None))) }
    ensures opening_of_three { MayComeFrom (setup_at usual 3 true) (again_at 3) Client
        (tells.Lend (5 ∷ 1 ∷ 1 ∷ 0 ∷ [])) (Does (Lent (Sequence 1 (Some 0)))) }
    ensures uncounted { BreaksFrom (setup_at usual 3 true) (again_at 3) Client
        (tells.Lend (5 ∷ 1 ∷ 0 ∷ 0 ∷ [])) rule.Due }
    ensures again { MayComeFrom (setup_at usual 2 true)
        (again_at 2 ++ client (Does (Lent (Sequence 1 None)) ∷ [])) Client
        (tells.Lend (3 ∷ 97 ∷ 0 ∷ 0 ∷ [])) (Does (Lent (Numbered a))) }
    ensures waits { BreaksFrom (setup_at usual 3 true) resuming Client
        (tells.Lend (3 ∷ 97 ∷ 0 ∷ 0 ∷ [])) rule.Due }
    ensures resumed { MayComeFrom (setup_at usual 3 true) resuming Client
        (tells.Take (5 ∷ 1 ∷ 0 ∷ [])) (Does (Took (Resumed 1 0))) }
    ensures again_at_three { MayComeFrom (setup_at usual 3 true)
        (resuming ++ client (Does (Took (Resumed 1 0)) ∷ [])) Client
        (tells.Lend (3 ∷ 97 ∷ 0 ∷ 0 ∷ [])) (Does (Lent (Numbered a))) }
{}

/// A plain connection, as one of version 1 is: it ends with its link, and holds no message that was said.
pub fn plain()
    ensures kept { MayComeFrom (setup_at usual 2 true) (lost_at 2) Client (tells.Attach 1)
        (Does (Attached 1 0)) }
    ensures lost { BreaksFrom (setup_at usual 2 false) (lost_at 2) Client (tells.Attach 1) rule.Link }
    ensures lost_at_one { BreaksFrom (setup_at usual 1 true) (lost_at 1) Client (tells.Attach 1)
        rule.Link }
    ensures held { BreaksFrom (setup_at (limits_of 32768 1 100000) 2 true) (processed_at 2) Client
        (tells.Send b) rule.Room }
    ensures room { MayComeFrom (setup_at (limits_of 32768 1 100000) 2 false) (processed_at 2) Client
        (tells.Send b) (Does (Sent b)) }
{}

/// One end alone: a server takes whatever link it is given, and any bytes; a client's links rise; all else is as beside another end.
pub fn alone()
    ensures link { MayComeAlone Server [] (tells.Attach 7) (Does (Attached 7 0)) }
    ensures earlier_link { MayComeAlone Server server_on_five (tells.Attach 3)
        (Does (Attached 3 0)) }
    ensures lower { BreaksAlone Client client_on_five (tells.Attach 3) rule.Link }
    ensures fed { MayComeAlone Server server_on_five (tells.Feed (6 ∷ 0 ∷ 0 ∷ 0 ∷ []))
        (Bytes (6 ∷ 0 ∷ 0 ∷ 0 ∷ [])) }
    ensures took { MayComeAlone Server (server_on_five ++ Bytes (6 ∷ 0 ∷ 0 ∷ 0 ∷ []) ∷ [])
        (tells.Take (6 ∷ [])) (Does (Took gives.Ping)) }
    ensures fault { BreaksAlone Server (server_on_five ++ Bytes (8 ∷ 0 ∷ 0 ∷ 0 ∷ []) ∷ [])
        (tells.Take (6 ∷ [])) rule.Took }
    ensures due { BreaksAlone Server server_on_five (tells.Lend (6 ∷ 0 ∷ 0 ∷ 0 ∷ [])) rule.Due }
{}

/// The marks of a client that had a message acknowledged, and of a server that processed one of three.
pub fn marks_of_two()
    ensures acknowledged { (marks_at Client acknowledged_over_bytes).acked ≡ 1 }
    ensures written { (marks_at Client acknowledged_over_bytes).written ≡ 1 }
    ensures said { (marks_at Client acknowledged_over_bytes).said ≡ Some 2 }
    ensures reported { (marks_at Server acknowledged_over_bytes).reported ≡ 1 }
    ensures next { (marks_at Server bytewise).next ≡ Some 4 }
    ensures processed { (marks_at Server bytewise).processed ≡ 3 }
{}
