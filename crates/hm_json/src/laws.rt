//! What other crates may cite of all frames: each function does nothing, and its contract is the law.
ghost use Rattle.hm_json.specs.Laws.{FrameIsOfImage, FramesHaveOneMeaning, WrittenIsSaid};

use hm_message::{kinds_have_numbers, values_are_trees};
use hv_json::{reading_takes_no_memory, text_is_of_image, text_is_read_again};
use hv_value::last_pair_counts;

/// Each frame says exactly one message, is of exactly one type that no message has, or is refused
/// for exactly one reason. It does nothing: its contract is the law.
pub fn one_meaning()
    ensures { FramesHaveOneMeaning }
{
    values_are_trees();
    kinds_have_numbers();
    reading_takes_no_memory();
}

/// The frame that [`write_message`](crate::write_message) appends says its message, with each of its bytes as the text of
/// their base64. It does nothing: its contract is the law.
pub fn written_is_said()
    ensures { WrittenIsSaid }
{
    values_are_trees();
    last_pair_counts();
    text_is_read_again();
}

/// A message has the frame of its image, in which each of its bytes is the text of their base64. It
/// does nothing: its contract is the law.
pub fn frame_is_of_image()
    ensures { FrameIsOfImage }
{
    values_are_trees();
    text_is_of_image();
}
