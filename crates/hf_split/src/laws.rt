//! The laws of streams and frames. Each is a function that does nothing: its contract is the law.

ghost use Rattle.hf_split.specs.Laws.{HasCutting, HasOneCutting, BeginsOnce, HasOneBeginning, EmptyWaits, WaitingHasRoom, TooLongBeginsNone, BadLengthBeginsNone, TooLongStays, BadLengthStays, WrappedBegins, WrappedIsShortest};

/// Each stream has a cutting.
pub fn has_cutting()
    ensures { HasCutting }
{}

/// A stream is cut in one way.
pub fn one_cutting()
    ensures { HasOneCutting }
{}

/// Bytes begin with one frame at most, and no other with more after them.
pub fn begins_once()
    ensures { BeginsOnce }
{}

/// Bytes begin with a frame, with a fault or with neither, which is to wait, and with one of these alone. A fault is a
/// frame that is too long or a bad length, and not both.
pub fn one_beginning()
    ensures { HasOneBeginning }
{}

/// The empty list of bytes waits.
pub fn empty_waits()
    ensures { EmptyWaits }
{}

/// Bytes that wait leave room for more in a buffer of the largest frame with its framing.
pub fn waiting_has_room()
    ensures { WaitingHasRoom }
{}

/// Bytes that are too long begin with no frame.
pub fn too_long_begins_none()
    ensures { TooLongBeginsNone }
{}

/// Bytes with a bad length begin with no frame.
pub fn bad_length_begins_none()
    ensures { BadLengthBeginsNone }
{}

/// Bytes that are too long stay too long.
pub fn too_long_stays()
    ensures { TooLongStays }
{}

/// A bad length stays bad.
pub fn bad_length_stays()
    ensures { BadLengthStays }
{}

/// What `wrap` writes begins with the frame that it was given.
pub fn wrapped_begins()
    ensures { WrappedBegins }
{}

/// What `wrap` writes is the shortest spelling of its frame.
pub fn wrapped_is_shortest()
    ensures { WrappedIsShortest }
{}
