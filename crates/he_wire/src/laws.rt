//! What holds of the wire. Each function only calls other laws, and its contract is the law.
ghost use Rattle.std.specs.Prelude.{◌≡◌};
ghost use Rattle.he_wire.specs.Controls.{most_control};
ghost use Rattle.he_wire.specs.Laws.{AnswersAreRead, AnswersAreSpelled, BytesAreRead, HasWire, ReadsOnce, SaysNoMore, WireIsFaithful, WireIsSound};

use crate::control_buffer::MOST_CONTROL;

/// The constant is the number of the definitions.
pub fn numbers_are_named()
    ensures { MOST_CONTROL ≡ most_control }
{}

/// A refused request is answered in the bytes that `hs_shake` gives for it, and the separator.
pub fn answers_are_spelled()
    ensures { AnswersAreSpelled }
{}

/// Bytes are read in one way.
pub fn reads_once()
    ensures { ReadsOnce }
{
    hf_split::begins_once();
    hf_split::one_beginning();
    hm_codec::one_meaning();
    hs_shake::one_request_meaning();
    hs_shake::one_response_meaning();
}

/// What a wire of this project says of bytes, by what these begin with.
pub fn bytes_are_read()
    ensures { BytesAreRead }
{
    reads_once();
}

/// For each limit of a frame there is a wire of this project.
pub fn has_wire()
    ensures { HasWire }
{
    hf_split::begins_once();
    hf_split::one_beginning();
    hm_codec::one_meaning();
    hs_shake::one_request_meaning();
    hs_shake::one_response_meaning();
}

/// The wire adds at most five bytes to a frame that can be sent, its readers never wait on a full buffer, and what they
/// say stays so.
pub fn wire_is_sound()
    ensures { WireIsSound }
{
    hf_split::begins_once();
    hf_split::one_beginning();
    hm_codec::one_meaning();
    hs_shake::one_request_meaning();
    hs_shake::one_response_meaning();
    hf_split::empty_waits();
    hf_split::waiting_has_room();
    hf_split::too_long_stays();
    hf_split::bad_length_stays();
}

/// What two ends say is read as itself, whatever comes after it, and not before it is whole, if a frame may have 256 bytes,
/// the version is 1 to 3, and each message's frame says the message, which [`hm_codec::write_message`] tells of what it
/// writes.
pub fn wire_is_faithful()
    ensures { WireIsFaithful }
{
    hf_split::begins_once();
    hf_split::one_beginning();
    hf_split::too_long_begins_none();
    hf_split::bad_length_begins_none();
    hf_split::wrapped_begins();
    hm_codec::one_meaning();
    hm_codec::controls_are_said();
    hm_codec::controls_are_short();
    hs_shake::one_request_meaning();
    hs_shake::one_response_meaning();
    hs_shake::requests_are_read();
    hs_shake::response_is_read();
    hs_shake::texts_are_plain();
    hs_shake::texts_are_short();
}

/// A client reads the answer of a refused request as the refusal of its handshake, if a frame may have 256 bytes.
pub fn answers_are_read()
    ensures { AnswersAreRead }
{
    hf_split::begins_once();
    hf_split::one_beginning();
    hf_split::too_long_begins_none();
    hf_split::bad_length_begins_none();
    hf_split::wrapped_begins();
    hs_shake::one_request_meaning();
    hs_shake::one_response_meaning();
    hs_shake::refusals_are_read();
    hs_shake::texts_are_plain();
    hs_shake::texts_are_short();
}

/// What an end has to say, whatever it did, has no more bytes than the greatest frame with its framing, if a frame may have 256
/// bytes.
pub fn says_no_more()
    ensures { SaysNoMore }
{
    hd_delivery::due_is_short();
    hs_shake::texts_are_short();
    answers_are_spelled();
    wire_is_faithful();
    wire_is_sound();
}
