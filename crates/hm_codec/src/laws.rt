//! What holds of all frames and all messages. A law is a function that does nothing: its contract is what counts.
ghost use Rattle.hm_codec.specs.Laws.{ControlsAreSaid, ControlsAreShort, ErrorsAreShort, FrameIsOfImage, FramesHaveOneMeaning};

use hv_json::text_has_no_control;

/// Each frame, in each codec, says exactly one message, is of exactly one type that no message has, or is refused for
/// exactly one reason.
pub fn one_meaning()
    ensures { FramesHaveOneMeaning }
{
    hm_json::one_meaning();
    hm_pack::one_meaning();
}

/// A message has the frame of what its frame says: in JSON that is the message with each of its bytes as a text.
pub fn frame_is_of_image()
    ensures { FrameIsOfImage }
{
    hm_json::frame_is_of_image();
}

/// What is written of a message that is not sequenced says the message itself, in each codec.
pub fn controls_are_said()
    ensures { ControlsAreSaid }
{
    hm_json::written_is_said();
    hm_pack::written_is_said();
    text_has_no_control();
}

/// The frame of a message that is not sequenced has at most 128 bytes, and six for each byte of its error.
pub fn controls_are_short()
    ensures { ControlsAreShort }
{}

/// The frame of a Completion with an error and without headers has at most 48 bytes beside its id and its error, and of
/// each of these texts at most six for each byte.
pub fn errors_are_short()
    ensures { ErrorsAreShort }
{}
