//! What holds of moves that one side makes after a world of two peers. No function here does anything: its contract is the law.

ghost use Rattle.sr_peers.specs.Laws.{DoingsKeep, LentGoesOn, LossesAreFew, OneSideGrows, OthersJoin, ReadsAreSaid, WorldsGrow, WritesLend};

use hd_delivery::{fed_is_unseen, frames_are_taken, lent_comes_last, lent_stays};

/// The moves of one side are its own, and the other side's stay as they were.
pub fn one_side_grows()
    ensures { OneSideGrows }
{}

/// A world of two peers goes on with moves of one side that its end can make by itself and that may join it.
pub fn worlds_grow()
    ensures { WorldsGrow }
{}

/// A side that reads what the other side lent on its link may join a world.
pub fn reads_are_said()
    ensures { ReadsAreSaid }
{
    fed_is_unseen();
    frames_are_taken();
}

/// Moves that neither read anything nor take a link may join a world.
pub fn others_join()
    ensures { OthersJoin }
{}

/// What a peer lent on a link stays as it was at moves of the other side, and at its own that lend nothing there. What it writes comes
/// after it.
pub fn what_is_lent_goes_on()
    ensures { LentGoesOn }
{
    lent_stays();
    lent_comes_last();
}

/// All that a peer does keeps to its side, but for taking a link, writing and reading.
pub fn doings_keep()
    ensures { DoingsKeep }
{}

/// A peer lends where it writes, on the link where it stands, and nowhere else.
pub fn writes_lend()
    ensures { WritesLend }
{
    frames_are_taken();
}

/// A closed end hands out no more calls as gone than numbers were drawn, and one.
pub(crate) fn losses_are_few()
    ensures { LossesAreFew }
{}
