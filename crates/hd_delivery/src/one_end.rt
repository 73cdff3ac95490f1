//! Worked cases of one end, some with frames that no other end of this kind says.
ghost use Rattle.std.specs.Prelude.{◌≡◌, ◌^◌, ◌+◌, ◌-◌, pos, reverse, true, false, Some, None, [], ◌∷◌, codes};
ghost use Rattle.hm_message.specs.declared.message.Codec.TheVariants.{Json};
ghost use Rattle.hd_delivery.specs.declared.vocabulary.Got.TheVariants.{Sequenced, Shaken, Skipped};
ghost use Rattle.hd_delivery.specs.declared.vocabulary.Reason.TheVariants.{Done, Expired, Flood, InUse, Protocol, Slow, TooMany};
ghost use Rattle.hd_delivery.specs.declared.vocabulary.Side.TheVariants.{Client, Server};
ghost use Rattle.hd_delivery.specs.declared.vocabulary.Why.TheVariants.{BeforeSequence, Duplicate, NotUsed, Unknown};
ghost use Rattle.hd_delivery.specs.declared.vocabulary.Got.TheVariants as gives;
ghost use Rattle.hd_delivery.specs.declared.vocabulary.State.TheVariants as states;
ghost use Rattle.hm_message.specs.declared.message.Message.TheVariants as message;
ghost use Rattle.hd_delivery.specs.Due.{is_quiet};
ghost use Rattle.hd_delivery.specs.Frames.{Ack, Close, Numbered, Ping, Refusal, Request, Response, Sequence, Unreadable, frame_of};
ghost use Rattle.hd_delivery.specs.Histories.{AckBeyond, Attached, Failed, Fed, Gap, Lent, Shake, Took, Unread, as_told, written_moment};
ghost use Rattle.hd_delivery.specs.Processes.{reads_message};
ghost use Rattle.hd_delivery.specs.Bytes.{Bytes, Does, Reads, Refuses, Stops, Waits};
ghost use Rattle.hd_delivery.specs.Examples.{a};
ghost use Rattle.hd_delivery.specs.ExamplesOverBytes.{HasUnread, IsOfServer, ServerMayNot, asked, stopped, unreadable, unreadable_failed, unreadable_later, unreadable_whole};
ghost use Rattle.hd_delivery.specs.OneEnd.{NextDue, NextStep, SilentAt, StateIs, at_once, beyond, closed_asked, closed_for, closed_opened, closed_told, closed_unasked, closed_unopened, closed_unsaid, closed_waiting, early, early_three, first_fed, from_zero, from_zero_on, gap, gap_beyond, gap_failed, gap_opened, gap_told, heard_nothing, left, left_told, lost_early, no_handshake, not_taken, odd, odd_skipped, opened_client, pinged, plain_ack, plain_message, plain_sequence, quiet_attached, quiet_closed, quiet_opening, quiet_pinged, quiet_until, received_beyond, refused_answered, refused_failed, refused_request, refused_response, refused_unanswered, request_again, silent_early, slow, slow_last, slow_told, taken_now, unknown_version, waits, waits_no_more};

/// Numbers: gaps, counts of messages that were never lent, messages that come too early, and what has no number.
pub fn numbers()
    ensures gap { NextStep Server gap (Some (Failed (Gap 5 4))) }
    ensures gap_failed { NextDue Server gap_failed (Some (Sequence 1 None)) }
    ensures gap_opened { NextDue Server gap_opened
        (Some (Close (Some (codes "Protocol error.")) false)) }
    ensures gap_told { NextDue Server gap_told None }
    ensures from_zero { NextStep Server from_zero (Some (Took (Sequenced 0))) }
    ensures from_zero_on { NextStep Server from_zero_on (Some (Took (Skipped (Duplicate 0)))) }
    ensures in_64_bits { as_told (2 ^ 64 - 1) ≡ 2 ^ 64 - 1 }
    ensures past_64_bits { as_told (2 ^ 64) ≡ 2 ^ 64 - 1 }
    ensures ack { frame_of (message.Ack 3) ≡ Ack 3 }
    ensures sequence { frame_of (message.Sequence 3 (Some 2)) ≡ Sequence 3 (Some 2) }
    ensures ping { frame_of message.Ping ≡ Ping }
    ensures close { frame_of (message.Close (Some (codes "e")) true)
        ≡ Close (Some (codes "e")) true }
    ensures greatest { reads_message (2 ^ 62) (Some (2 ^ 62 + 1)) a ≡ Failed
        (Gap (2 ^ 62 + 1) (2 ^ 62)) }
    ensures beyond { NextStep Server beyond (Some (Failed (AckBeyond 9 8))) }
    ensures received_beyond { NextStep Server received_beyond (Some (Failed (AckBeyond 1 0))) }
    ensures gap_beyond { NextStep Server gap_beyond (Some (Failed (Gap 9 1))) }
    ensures early { NextStep Server early (Some (Took (Skipped BeforeSequence))) }
    ensures early_three { NextStep Server early_three (Some (Took (Skipped BeforeSequence))) }
    ensures plain_ack { NextStep Server plain_ack (Some (Took (Skipped NotUsed))) }
    ensures plain_sequence { NextStep Server plain_sequence (Some (Took (Skipped NotUsed))) }
    ensures plain_message { NextStep Server plain_message (Some (Took (gives.Message a))) }
    ensures not_taken { NextDue Server not_taken None }
    ensures taken { NextDue Server taken_now (Some (Ack 1)) }
    ensures waits { NextDue Server waits None }
    ensures waits_no_more { NextDue Server waits_no_more (Some (Numbered a)) }
{}

/// The handshake, and frames that cannot be read.
pub fn first_frames()
    ensures at_once { NextStep Server at_once (Some (Took (Shaken Json 1))) }
    ensures pinged { NextStep Server pinged (Some (Took gives.Ping)) }
    ensures refused { NextStep Server refused_request (Some (Failed unknown_version)) }
    ensures over { NextStep Server refused_failed None }
    ensures answer { NextDue Server refused_failed
        (Some (Refusal (codes "The version is not known."))) }
    ensures answered { NextDue Server refused_answered None }
    ensures response { NextStep Client refused_response
        (Some (Failed (Shake (codes "Version 9") None))) }
    ensures unanswered { NextDue Client refused_unanswered None }
    ensures closed_unasked { NextDue Server closed_unasked None }
    ensures not_taken_any_more { NextStep Server closed_unasked None }
    ensures closed_unsaid { NextDue Client closed_unsaid None }
    ensures closed_asked { NextDue Client closed_asked None }
    ensures closed_unopened { NextDue Client closed_unopened None }
    ensures lost_early { StateIs lost_early states.Closed }
    ensures silent_early { StateIs silent_early states.Closed }
    ensures odd { NextStep Server odd (Some (Took (Skipped (Unknown (pos 10))))) }
    ensures unread { NextStep Server odd_skipped (Some (Failed (Unread 1 20 (codes "NotJson")))) }
    ensures request_again { NextStep Server request_again (Some (Failed (Unread 0 0 []))) }
    ensures unread_first { NextStep Server (first_fed (Unreadable 0 (codes "TooLong")))
        (Some (Failed (Unread 0 0 (codes "TooLong")))) }
    ensures unread_response { NextStep Client (first_fed (Unreadable 0 (codes "TooLong")))
        (Some (Failed (Unread 0 0 (codes "TooLong")))) }
    ensures message_first { NextStep Server (first_fed (Numbered a)) (Some (Failed no_handshake)) }
    ensures ping_first { NextStep Client (first_fed Ping) (Some (Failed no_handshake)) }
    ensures request_back { NextStep Client (first_fed (Request Json 2))
        (Some (Failed no_handshake)) }
    ensures response_back { NextStep Server (first_fed Response) (Some (Failed no_handshake)) }
    ensures refusal { NextStep Client (first_fed (Refusal (codes "No."))) (Some (Failed no_handshake)) }
{}

/// The Close, and what a closed end says before it.
pub fn closings()
    ensures slow { NextDue Server slow (Some (Numbered a)) }
    ensures slow_last { NextDue Server slow_last (Some (Close (Some (codes "Too slow.")) false)) }
    ensures slow_told { NextDue Server slow_told None }
    ensures left { NextDue Client left (Some (Numbered a)) }
    ensures left_told { NextDue Client left_told None }
    ensures closed_waiting { NextDue Server closed_waiting (Some (Sequence 1 (Some 0))) }
    ensures closed_opened { NextDue Server closed_opened (Some (Close None false)) }
    ensures closed_told { NextDue Server closed_told None }
    ensures done { NextDue Server (closed_for Done) (Some (Close None false)) }
    ensures protocol { NextDue Server (closed_for Protocol)
        (Some (Close (Some (codes "Protocol error.")) false)) }
    ensures in_use { NextDue Server (closed_for InUse)
        (Some (Close (Some (codes "Id in use.")) false)) }
    ensures too_many { NextDue Server (closed_for TooMany)
        (Some (Close (Some (codes "Too many calls.")) false)) }
    ensures flood { NextDue Server (closed_for Flood)
        (Some (Close (Some (codes "Too many inputs.")) false)) }
    ensures too_slow { NextDue Server (closed_for Slow)
        (Some (Close (Some (codes "Too slow.")) false)) }
    ensures expired { NextDue Server (closed_for Expired)
        (Some (Close (Some (codes "Connection expired.")) false)) }
{}

/// When a Ping is due, and when a tick is a silence.
pub fn moments()
    ensures too_soon { NextDue Client (quiet_until 14999) None }
    ensures quiet { NextDue Client (quiet_until 15000) (Some Ping) }
    ensures said { NextDue Client quiet_pinged None }
    ensures opening { NextDue Client quiet_opening None }
    ensures closed { NextDue Client quiet_closed (Some (Close None false)) }
    ensures not_late { SilentAt (quiet_until 0) 29999 false }
    ensures late { SilentAt (quiet_until 0) 30000 true }
    ensures no_tick { SilentAt (opened_client 2) 90000 false }
    ensures new_link { SilentAt (Attached 0 5 ∷ []) 30004 false }
    ensures new_link_late { SilentAt (Attached 0 5 ∷ []) 30005 true }
    ensures heard { SilentAt heard_nothing 90000 false }
    ensures closed_silent { SilentAt quiet_closed 90000 false }
    ensures new_link_written { written_moment (reverse quiet_attached) ≡ 20000 }
    ensures new_link_quiet { is_quiet (reverse quiet_attached) ≡ false }
{}

/// An end over bytes, whatever is on the other side: which steps it can make, and which bytes it hasn't dealt with.
pub fn alone_over_bytes()
    ensures steps { IsOfServer unreadable_failed }
    ensures not_due { ServerMayNot unreadable (Does (Lent Ping)) }
    ensures not_next { ServerMayNot unreadable (Does (Took gives.Ping)) }
    ensures no_frames { ServerMayNot unreadable (Does (Fed [])) }
    ensures no_second_link { ServerMayNot asked (Does (Attached 1 0)) }
    ensures closed { ServerMayNot unreadable_failed (Bytes []) }
    ensures handshake { HasUnread asked 0 0 (1 ∷ 2 ∷ 0 ∷ 0 ∷ []) (Reads (Request Json 2) 4) }
    ensures waits { HasUnread unreadable 0 8 (8 ∷ 8 ∷ 8 ∷ []) Waits }
    ensures refused { HasUnread unreadable_whole 0 8 (8 ∷ 8 ∷ 8 ∷ 8 ∷ [])
        (Refuses (codes "NotJson") 4) }
    ensures dealt_with { HasUnread unreadable_failed 0 12 [] Waits }
    ensures later { HasUnread unreadable_later 1 4 (8 ∷ 8 ∷ 8 ∷ 8 ∷ []) (Refuses (codes "NotJson") 4) }
    ensures stops { HasUnread stopped 1 0 (9 ∷ 9 ∷ 9 ∷ 9 ∷ 6 ∷ 0 ∷ 0 ∷ 0 ∷ [])
        (Stops (codes "BadLength")) }
{}
