//! What crates above cite of the definitions. No function here does anything: its contract is the law.

ghost use Rattle.std.specs.Prelude.{◌≡◌};
ghost use Rattle.hd_calls.specs.Ids.{IdsAreDrawn};
ghost use Rattle.hd_calls.specs.Laws.{FramesAreTested, HoldsAsSent, PeersAreBounded, TablesAgree, WorldsArePeers};
ghost use Rattle.hd_calls.specs.Numbers.{base_weight, most_inputs, most_live, most_numbers, most_uploads, most_weight};

use crate::vocabulary::{
    BASE_WEIGHT, MOST_INPUTS, MOST_LIVE, MOST_NUMBERS, MOST_UPLOADS, MOST_WEIGHT,
};

/// What a peer's history says of its calls and jobs is what their own happenings say, which are all that a table of calls and a
/// table of jobs see.
pub fn tables_agree()
    ensures { TablesAgree }
{}

/// In a world of two peers each does what a peer can do by itself.
pub fn worlds_are_peers<C, S>()
    ensures { WorldsArePeers C S }
{
    hd_delivery::worlds_are_histories();
}

/// Delivery and `calls_once` where of each end's messages is known that they are read as themselves in that end's codec.
pub fn calls_once_as_sent<C, S>()
    ensures { HoldsAsSent C S }
{
    hd_delivery::all_is_read();
    hd_delivery::delivery_as_sent();
    crate::calls_once::<C, S>();
}

/// At most 1,024 own calls and uploads of a peer are live, and at most 1,024 jobs; at most 4,096 inputs wait at each; no number past 2^62
/// is drawn; and while its end is open what its jobs keep weighs at most 16,777,216.
pub fn peers_are_bounded<Job>()
    ensures { PeersAreBounded Job }
{}

/// What is asked before an answer is sent is whether it fits and its frame is within the limit.
pub fn frames_are_tested()
    ensures { FramesAreTested }
{}

/// The ids that peers draw are apart, as `calls_once` asks, and have at most 20 bytes.
pub fn ids_are_drawn()
    ensures { IdsAreDrawn }
{}

/// The constants are the numbers of the definitions.
pub fn bounds_are_named()
    ensures live { MOST_LIVE ≡ most_live }
    ensures uploads { MOST_UPLOADS ≡ most_uploads }
    ensures inputs { MOST_INPUTS ≡ most_inputs }
    ensures numbers { MOST_NUMBERS ≡ most_numbers }
    ensures weight { MOST_WEIGHT ≡ most_weight }
    ensures base { BASE_WEIGHT ≡ base_weight }
{}
