//! What other crates may cite of all frames: the function does nothing, and its contract is the law.
ghost use Rattle.hm_pack.specs.Laws.{FramesHaveOneMeaning, WrittenIsSaid};

use hm_message::{kinds_have_numbers, values_are_trees};
use hv_pack::{
    is_spelled_or_refused, one_reading, one_refusal, shortest_reads_back, spelled_is_not_refused,
};

/// Each frame says exactly one message, is of exactly one type that no message has, or is refused
/// for exactly one reason. It does nothing: its contract is the law.
pub fn one_meaning()
    ensures { FramesHaveOneMeaning }
{
    values_are_trees();
    kinds_have_numbers();
    one_reading();
    one_refusal();
    spelled_is_not_refused();
    is_spelled_or_refused();
}

/// The frame that [`write_message`](crate::write_message) appends says its message. It does nothing: its contract is the
/// law.
pub fn written_is_said()
    ensures { WrittenIsSaid }
{
    values_are_trees();
    shortest_reads_back();
}
