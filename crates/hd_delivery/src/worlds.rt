//! Worked worlds, over frames and over bytes, which the checker computes.
ghost use Rattle.std.specs.Prelude.{ℕ, pos, reverse, true, false, Some, None, [], ◌∷◌, codes};
ghost use Rattle.hm_message.specs.declared.message.Codec.TheVariants.{Json, Pack};
ghost use Rattle.hm_message.specs.declared.message.Message.TheVariants as message;
ghost use Rattle.hd_delivery.specs.declared.vocabulary.Got.TheVariants as gives;
ghost use Rattle.hd_delivery.specs.declared.vocabulary.Got.TheVariants.{Skipped};
ghost use Rattle.hd_delivery.specs.declared.vocabulary.Why.TheVariants.{BeforeSequence, Duplicate, NotUsed, Unknown};
ghost use Rattle.hd_delivery.specs.declared.vocabulary.Reason.TheVariants.{Done};
ghost use Rattle.hd_delivery.specs.declared.vocabulary.Side.TheVariants.{Client, Server};
ghost use Rattle.hd_delivery.specs.Frames.{Ack, Ping, Response, Sequence};
ghost use Rattle.hd_delivery.specs.declared.vocabulary.State.TheVariants.{Away, Ready};
ghost use Rattle.hd_delivery.specs.declared.vocabulary.State.TheVariants as states;
ghost use Rattle.hd_delivery.specs.Histories.{Closed, Detached, Failed, Fed, Gap, Sent, Silenced, Ticked, Took, Unread};
ghost use Rattle.hd_delivery.specs.Worlds.{Delivers, IsFaultless, IsOnOneClock, IsSound, MayAttach, MaySend, SkipsNone, alike, config};
ghost use Rattle.hd_delivery.specs.Bytes.{IsFaithful, IsFirst, IsLater, IsSoundWire, IsWorldOverBytes};
ghost use Rattle.hd_delivery.specs.Examples.{ClientMayNot, IsStill, IsWorked, a, acknowledged, b, c, client_after, closed_before_response, closed_kept, closed_with_allow, far_link, filled, further_sequence, limits_of, lost_at_four, older_link_later, one_sequence, opened, packed, plain_delivered, plain_loss, plain_room, plain_silence, resume_after_ack, resume_duplicates, resumed_with_none, resumed_with_one, sent_away, server_after, server_away, silence, sizes, terms, terms_in, ticked_at_five, too_deep, two_clocks, usual, with_bytes};
ghost use Rattle.hd_delivery.specs.ExamplesOverBytes.{IsFullFor, IsStillOverBytes, IsWorkedOverBytes, NextStepOverBytes, acknowledged_over_bytes, bytewise, closed_over_bytes, cut_by_a_loss, four, lazy, own_limits, padded, stopped, three_said, two_greatest_frames, unread_nine, unreadable, unreadable_later, unreadable_whole};

/// Whole worlds, and what the client and the server are in the end: the state, and how many
/// messages were sent, processed and are held.
pub fn worked_worlds()
    ensures acknowledged { IsWorked usual (terms 2 true) acknowledged
        (Ready, 1, 0, 0) (Ready, 0, 1, 0) }
    ensures resume_after_ack { IsWorked usual (terms 2 true) resume_after_ack
        (Ready, 2, 0, 1) (Ready, 0, 2, 0) }
    ensures resume_duplicates { IsWorked usual (terms 2 true) resume_duplicates
        (Ready, 2, 0, 2) (Ready, 0, 2, 0) }
    ensures older_link_later { IsWorked usual (terms 2 true) older_link_later
        (Ready, 1, 0, 1) (Ready, 0, 1, 0) }
    ensures further_sequence { IsWorked usual (terms 2 true) further_sequence
        (Ready, 3, 0, 1) (Ready, 0, 3, 0) }
    ensures one_sequence { IsWorked usual (terms 2 true) one_sequence
        (Ready, 3, 0, 1) (Ready, 0, 3, 0) }
    ensures resumed_with_none { IsWorked usual (terms 3 true) resumed_with_none
        (Ready, 2, 0, 0) (Ready, 0, 2, 0) }
    ensures resumed_with_one { IsWorked usual (terms 3 true) resumed_with_one
        (Ready, 2, 0, 1) (Ready, 0, 2, 0) }
    ensures silence { IsWorked usual (terms 2 true) silence (Away, 0, 0, 0) (Ready, 0, 0, 0) }
    ensures plain_silence { IsWorked usual (terms 2 false) plain_silence
        (states.Closed, 0, 0, 0) (Ready, 0, 0, 0) }
    ensures plain_loss { IsWorked usual (terms 2 false) plain_loss
        (states.Closed, 0, 0, 0) (Ready, 0, 0, 0) }
    ensures plain_delivered { IsWorked usual (terms 2 false) plain_delivered
        (Ready, 1, 0, 0) (Ready, 0, 1, 0) }
    ensures plain_room { IsWorked (limits_of 38 1 39) (terms 2 false) plain_room
        (Ready, 2, 0, 1) (Ready, 0, 0, 0) }
    ensures filled { IsWorked (limits_of 38 3 117) (terms 2 true) filled
        (Ready, 3, 0, 3) (Ready, 0, 0, 0) }
    ensures closed_before_response { IsWorked usual (terms 2 true) closed_before_response
        (states.Closed, 0, 1, 0) (states.Closed, 1, 0, 1) }
    ensures sent_away { IsWorked usual (terms 2 true) sent_away (Away, 1, 0, 1) (Ready, 0, 0, 0) }
    ensures server_away { IsWorked usual (terms 2 true) server_away
        (Ready, 0, 0, 0) (Away, 1, 0, 1) }
    ensures far_link { IsWorked usual (terms 2 true) far_link (Ready, 0, 0, 0) (Ready, 0, 0, 0) }
    ensures closed_with_allow { IsWorked usual (terms 2 true) closed_with_allow
        (states.Closed, 0, 0, 0) (states.Closed, 0, 0, 0) }
    ensures packed { IsWorked (limits_of 8 2 18) (terms_in Pack 2 true) packed
        (Ready, 2, 0, 2) (Ready, 2, 0, 2) }
{}

/// Where both ends are still, so that all has arrived and nothing is held.
pub fn still_worlds()
    ensures resumable { IsStill (terms 2 true) acknowledged }
    ensures plain { IsStill (terms 2 false) plain_delivered }
    ensures version_three { IsStill (terms 3 true) resumed_with_none }
{}

/// What may not come: a send past a limit, or of a message that can't be sent; a link or a send after an end was closed
/// or a plain connection was lost; a link that the other end doesn't know; a moment before the last one; a tick that is
/// a silence, and a silence that is none.
pub fn what_may_not_come()
    ensures count { MaySend (limits_of 38 3 156) sizes (config Client (terms 2 true))
        (client_after filled) a → ⊥ }
    ensures bytes { MaySend (limits_of 38 4 117) sizes (config Client (terms 2 true))
        (client_after filled) a → ⊥ }
    ensures frame { MaySend (limits_of 37 4 156) sizes (config Client (terms 2 true))
        (client_after filled) a → ⊥ }
    ensures link { (l now : ℕ) → MayAttach (config Client (terms 2 false)) (client_after plain_loss)
        (server_after plain_loss) l now → ⊥ }
    ensures send { MaySend usual sizes (config Client (terms 2 false)) (client_after plain_loss) a →
        ⊥ }
    ensures closed { (l now : ℕ) → MayAttach (config Client (terms 2 true))
        (client_after closed_kept) (server_after closed_kept) l now → ⊥ }
    ensures version_four { (l now : ℕ) → MayAttach (config Client (terms 4 true))
        (client_after lost_at_four) (server_after lost_at_four) l now → ⊥ }
    ensures earlier { (l : ℕ) → MayAttach (config Client (terms 2 true))
        (client_after ticked_at_five) (server_after ticked_at_five) l 4 → ⊥ }
    ensures unsequenced { MaySend usual sizes (config Client (terms 2 true))
        (client_after (opened 2)) message.Ping → ⊥ }
    ensures deep { MaySend usual sizes (config Client (terms 2 true)) (client_after (opened 2))
        too_deep → ⊥ }
    ensures json_bytes { MaySend usual sizes (config Client (terms 2 true))
        (client_after (opened 2)) with_bytes → ⊥ }
    ensures lower_link { (now : ℕ) → MayAttach (config Client (terms 2 true))
        (client_after far_link) (server_after far_link) 1 now → ⊥ }
    ensures unknown_link { (now : ℕ) → MayAttach (config Server (terms 2 true))
        (server_after acknowledged) (client_after acknowledged) 1 now → ⊥ }
    ensures same_link { (now : ℕ) → MayAttach (config Server (terms 2 true))
        (server_after acknowledged) (client_after acknowledged) 0 now → ⊥ }
    ensures tick { ClientMayNot ticked_at_five (Ticked 30005) }
    ensures silence { ClientMayNot ticked_at_five (Silenced 30004) }
    ensures loss { ClientMayNot sent_away (Detached 0) }
    ensures loss_earlier { ClientMayNot ticked_at_five (Detached 4) }
    ensures close { ClientMayNot closed_kept (Closed Done false) }
    ensures piece { ClientMayNot closed_kept (Fed []) }
{}

/// What the theorem excludes: messages that were never sent or come in another order, faults, frames that are skipped,
/// and counts that are too high.
pub fn what_is_excluded()
    ensures unsent { Delivers [] (Took (gives.Message a) ∷ []) → ⊥ }
    ensures order { Delivers (Sent b ∷ Sent a ∷ []) (Took (gives.Message b) ∷ []) → ⊥ }
    ensures twice { Delivers (Sent a ∷ [])
        (Took (gives.Message a) ∷ Took (gives.Message a) ∷ []) → ⊥ }
    ensures fault { IsFaultless (Failed (Gap 5 4) ∷ []) → ⊥ }
    ensures unknown { IsFaultless (Took (Skipped (Unknown (pos 10))) ∷ []) → ⊥ }
    ensures early { IsFaultless (Took (Skipped BeforeSequence) ∷ []) → ⊥ }
    ensures unused { IsFaultless (Took (Skipped NotUsed) ∷ []) → ⊥ }
    ensures duplicate { SkipsNone (Took (Skipped (Duplicate 1)) ∷ []) → ⊥ }
    ensures ack { IsSound 2 9 (Ping ∷ Ack 3 ∷ []) → ⊥ }
    ensures sequence { IsSound 9 2 (Sequence 4 None ∷ []) → ⊥ }
    ensures received { IsSound 2 9 (Sequence 1 (Some 3) ∷ []) → ⊥ }
    ensures two_clocks { IsOnOneClock (reverse two_clocks) → ⊥ }
    ensures waiting { IsSoundWire (limits_of 4 1024 100000) lazy → ⊥ }
    ensures framing { IsSoundWire usual padded → ⊥ }
    ensures greatest_frames { IsWorldOverBytes two_greatest_frames four (terms 2 true) [] → ⊥ }
    ensures response { IsLater Response → ⊥ }
    ensures first { IsFirst Server Ping → ⊥ }
{}

/// The same over bytes, for a way to write frames that is faithful.
pub fn worked_over_bytes()
    ensures json { IsFaithful usual four Json 2 (a ∷ b ∷ c ∷ []) }
    ensures pack { IsFaithful usual four Pack 2 (a ∷ b ∷ c ∷ []) }
    ensures sound { IsSoundWire usual four }
    ensures bytewise { IsWorkedOverBytes (alike usual) (terms 2 true) bytewise
        (Ready, 3, 0, 3) (Ready, 0, 3, 0) }
    ensures cut_by_a_loss { IsWorkedOverBytes (alike usual) (terms_in Pack 2 true) cut_by_a_loss
        (Ready, 2, 0, 1) (Ready, 0, 2, 0) }
    ensures acknowledged { IsWorkedOverBytes (alike usual) (terms 2 true) acknowledged_over_bytes
        (Ready, 1, 0, 0) (Ready, 0, 1, 0) }
    ensures still { IsStillOverBytes (terms 2 true) acknowledged_over_bytes }
    ensures unread_nine { IsWorkedOverBytes (alike (limits_of 4 1024 100000)) (terms 2 true) unread_nine
        (Ready, 3, 0, 3) (Ready, 0, 0, 0) }
    ensures own_limits { IsWorkedOverBytes own_limits (terms 2 true) three_said
        (Ready, 3, 0, 3) (Ready, 0, 0, 0) }
    ensures no_more { IsFullFor (limits_of 4 1024 100000) (terms 2 true) unread_nine (99 ∷ []) }
    ensures no_more_closed { IsFullFor usual (terms 2 true) closed_over_bytes [] }
    ensures unreadable { NextStepOverBytes unreadable None }
    ensures place { NextStepOverBytes unreadable_whole
        (Some (Failed (Unread 0 8 (codes "NotJson")))) }
    ensures place_later { NextStepOverBytes unreadable_later
        (Some (Failed (Unread 1 4 (codes "NotJson")))) }
    ensures stopped { NextStepOverBytes stopped (Some (Failed (Unread 1 0 (codes "BadLength")))) }
{}
