//! What holds of all handshakes. A law is a function that does nothing: its contract is what counts.
ghost use Rattle.std.specs.Prelude.{◌≡◌};
ghost use Rattle.hs_shake.specs.Laws.{RequestsHaveOneMeaning, ResponsesHaveOneMeaning, RequestsAreRead, RefusalsAreRead, TextsArePlain, TextsAreShort, most_handshake};
ghost use Rattle.hs_shake.specs.Requests.{highest_version};
ghost use Rattle.hs_shake.specs.Responses.{Accepts, response_frame};

use crate::shake::HIGHEST_VERSION;
use crate::writing::MOST_HANDSHAKE;

/// As a request each frame asks for one codec and one version, or is refused for one reason.
pub fn one_request_meaning()
    ensures { RequestsHaveOneMeaning }
{}

/// As a response each frame says that the request was taken, or why not, for one reason.
pub fn one_response_meaning()
    ensures { ResponsesHaveOneMeaning }
{}

/// What is written to ask for a codec and a version that is spoken asks for them.
pub fn requests_are_read()
    ensures { RequestsAreRead }
{}

/// The response that takes a request is read as taking it.
pub fn response_is_read()
    ensures { Accepts response_frame }
{}

/// What is written for a refusal is read as a refusal with its text.
pub fn refusals_are_read()
    ensures { RefusalsAreRead }
{}

/// No record separator stands in what is written.
pub fn texts_are_plain()
    ensures { TextsArePlain }
{}

/// What is written has at most [`MOST_HANDSHAKE`] bytes, and the separator.
pub fn texts_are_short()
    ensures { TextsAreShort }
{}

/// The constants are the numbers of the definitions.
pub fn numbers_are_named()
    ensures version { HIGHEST_VERSION ≡ highest_version }
    ensures bytes { MOST_HANDSHAKE ≡ most_handshake }
{}
