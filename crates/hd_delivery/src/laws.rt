//! What crates above cite of the definitions. No function here does anything: its contract is the law.

ghost use Rattle.std.specs.Prelude.{◌≡◌};
ghost use Rattle.hd_delivery.specs.Bounds.{least_frame, most_bytes, most_count, most_frame};
ghost use Rattle.hd_delivery.specs.HistoryLaws.{DueIsShort, FactsHold, FramesCount, HistoriesAreInOrder, LinksGrow, NextIsRead, SentCanBeSent, UnreadBegins, UnreadGrows, UnreadIsBounded, UnreadMoves, UnreadStays, UnusedIsUntouched, WorldsAreHistories};
ghost use Rattle.hd_delivery.specs.Laws.{AllIsRead, HoldsAsSent, CutsGrow, FedIsCut, FedIsUnseen, FedIsWhole, SequencedIsNumbered};
ghost use Rattle.hd_delivery.specs.Numbers.{most_framing, most_messages, ping_after, silence_after};

use crate::limits::{LEAST_FRAME, MOST_BYTES, MOST_COUNT, MOST_FRAME};
use crate::vocabulary::{MOST_FRAMING, MOST_MESSAGES, PING_AFTER, SILENCE_AFTER};

/// A sequenced message is numbered on a link.
pub fn sequenced_is_numbered()
    ensures { SequencedIsNumbered }
{}

/// With more bytes after them, some bytes are cut into the same frames and further ones, if the readers are sound.
pub fn cuts_grow()
    ensures { CutsGrow }
{}

/// The frames that an end was fed on a link are those that its readers cut off its bytes there, if the readers are sound
/// and no handshake is taken after a second link.
pub fn fed_is_cut()
    ensures { FedIsCut }
{}

/// What an end is, has said and has to say doesn't depend on the bytes that it was fed and hasn't dealt with.
pub fn fed_is_unseen()
    ensures { FedIsUnseen }
{}

/// In a world over bytes each end's steps are a history that it can make by itself.
pub fn worlds_are_histories()
    ensures { WorldsAreHistories }
{}

/// A history that an end can make by itself is in order, as `fed_is_cut` asks.
pub fn histories_are_in_order()
    ensures { HistoriesAreInOrder }
{}

/// What is acknowledged was said, what was said was sent, and what else holds of the numbers of one end.
pub fn facts_hold()
    ensures { FactsHold }
{}

/// On a link on which the end never stood nothing was fed, said or dealt with.
pub fn unused_is_untouched()
    ensures { UnusedIsUntouched }
{}

/// What is said, and what is dealt with, is one more frame of the present link.
pub fn links_grow()
    ensures { LinksGrow }
{}

/// What one more frame makes of the next number, of what is told and of whether a Close was said.
pub fn frames_count()
    ensures { FramesCount }
{}

/// The next frame of the present link is the one that the reader finds in the bytes that aren't dealt with, until the end
/// is closed.
pub fn next_is_read()
    ensures { NextIsRead }
{}

/// Bytes that are fed come after those that aren't dealt with.
pub fn unread_grows()
    ensures { UnreadGrows }
{}

/// Dealing with a frame, well or not, drops its bytes.
pub fn unread_moves()
    ensures { UnreadMoves }
{}

/// The other steps but an attach leave the bytes of a link as they were.
pub fn unread_stays()
    ensures { UnreadStays }
{}

/// A link begins with no bytes.
pub fn unread_begins()
    ensures { UnreadBegins }
{}

/// The bytes that aren't dealt with are never more than a frame and its framing.
pub fn unread_is_bounded()
    ensures { UnreadIsBounded }
{}

/// Each message that an end sent can be sent, in the codec that the end speaks: it fits, and its frame is within the limit.
pub fn sent_can_be_sent()
    ensures { SentCanBeSent }
{}

/// What an end has to say has no more bytes than the greatest frame with its framing, if the wire is sound and faithful, and
/// what answers a refused handshake has no more.
pub fn due_is_short()
    ensures { DueIsShort }
{}

/// The constants are the numbers of the definitions.
pub fn numbers_are_named()
    ensures messages { MOST_MESSAGES ≡ most_messages }
    ensures ping { PING_AFTER ≡ ping_after }
    ensures silence { SILENCE_AFTER ≡ silence_after }
    ensures framing { MOST_FRAMING ≡ most_framing }
    ensures least_frame { LEAST_FRAME ≡ least_frame }
    ensures most_frame { MOST_FRAME ≡ most_frame }
    ensures most_count { MOST_COUNT ≡ most_count }
    ensures most_bytes { MOST_BYTES ≡ most_bytes }
{}

/// `delivery_over_bytes` where of each end's messages is known that they are read as themselves in that end's codec.
pub fn delivery_as_sent()
    ensures { HoldsAsSent }
{}

/// In such a world the wire is faithful to all that both ends sent.
pub fn all_is_read()
    ensures { AllIsRead }
{}

/// What an end was fed in frames on its link are the frames that the other end said there whose bytes were all fed.
pub fn fed_is_whole()
    ensures { FedIsWhole }
{}
