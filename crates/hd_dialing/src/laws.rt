//! Laws of dialing. No function here does anything: its contract is the law.

ghost use Rattle.hd_dialing.specs.Laws.{AllAskByToken, AllKeepPauses, AllLoseFew, AwayIsDialed, DialersArePatient, EachDialsAlone, EventsReachOne, FirstLossesAreMetAtOnce, LanesAreApart, LinksCountAnew, LossesAreMet, NewsIsOfLinks, NothingAfterTheEnd, OneLaneAtMost, OtherLanesPassOver, PhasesSuitAsks, TokensAreKept};
ghost use Rattle.hd_dialing.specs.Telling.{MovesAdd, WhatIsNewIsToldLast};

/// The lane that is up or being made is that of the last ask, which was for a token while none was told, and for a socket with it afterwards.
pub fn phases_suit_asks()
    ensures { PhasesSuitAsks }
{}

/// Nothing is asked while a lane is up or being made.
pub fn one_lane_at_most()
    ensures { OneLaneAtMost }
{}

/// A token is asked for only if none was told, and a socket with the token that was told, by the key and the seed that were drawn just before.
pub fn all_ask_by_token()
    ensures { AllAskByToken }
{}

/// What was told stays.
pub fn tokens_are_kept()
    ensures { TokensAreKept }
{}

/// What comes next of a connection that is away: it is dialed as soon as it may be, and before that something is heard; or whoever dials it leaves.
pub fn away_is_dialed()
    ensures { AwayIsDialed }
{}

/// A connection that lost its lane is away, with what it was told, or given up after five lost dials in a row.
pub fn losses_are_met()
    ensures { LossesAreMet }
{}

/// A connection that is up counts no lost dials.
pub fn links_count_anew()
    ensures { LinksCountAnew }
{}

/// A connection that lost no dial since its link, or one, may be dialed at once.
pub fn first_losses_are_met_at_once()
    ensures { FirstLossesAreMetAtOnce }
{}

/// At most five dials in a row are lost, and fewer unless it is over.
pub fn all_lose_few()
    ensures { AllLoseFew }
{}

/// Each ask keeps the pause after the lost dials before it.
pub fn all_keep_pauses()
    ensures { AllKeepPauses }
{}

/// The fifth dial in a row is asked for 3,500 ms or more after the first of them was lost.
pub fn dialers_are_patient()
    ensures { DialersArePatient }
{}

/// Nothing is asked, drawn or shut once it is over.
pub fn nothing_after_the_end()
    ensures { NothingAfterTheEnd }
{}

/// An event on another lane than its own changes nothing.
pub fn other_lanes_pass_over()
    ensures { OtherLanesPassOver }
{}

/// A link begins where the socket comes up, and ends where that is lost.
pub fn news_is_of_links()
    ensures { NewsIsOfLinks }
{}

/// Of many connections over one dialer each is dialed as it would be by itself, so all laws of one hold of each.
pub fn each_dials_alone()
    ensures { EachDialsAlone }
{}

/// No lane is that of two connections.
pub fn lanes_are_apart()
    ensures { LanesAreApart }
{}

/// What comes on a lane is one connection's at most.
pub fn events_reach_one()
    ensures { EventsReachOne }
{}

/// A move adds to what happened, and takes nothing back.
pub fn moves_add()
    ensures { MovesAdd }
{}

/// What the dialer and the lots are told of what is new comes after what they were told before.
pub fn what_is_new_is_told_last()
    ensures { WhatIsNewIsToldLast }
{}
