//! Worked worlds of two peers, which the checker computes.

ghost use Rattle.std.specs.Prelude.{[], false, reverse, Some, true, ℕ, ◌∷◌, ◌≡◌};
ghost use Rattle.hm_message.specs.declared.message.Codec.TheVariants.{Json, Pack};
ghost use Rattle.hm_message.specs.declared.message.Ending.TheVariants.{Void, Result};
ghost use Rattle.hd_delivery.specs.declared.vocabulary.Reason.TheVariants as reason;
ghost use Rattle.hd_delivery.specs.declared.vocabulary.Side.TheVariants.{Server};
ghost use Rattle.hd_delivery.specs.Bytes.{Does, IsFaithful};
ghost use Rattle.hd_delivery.specs.Examples.{usual};
ghost use Rattle.hd_delivery.specs.Histories.{Closed};
ghost use Rattle.hd_calls.specs.Hubs.{End, Item, message_of};
ghost use Rattle.hd_calls.specs.Peers.{Handles, Settings, TooMany, given, step_of};
ghost use Rattle.hd_calls.specs.PeerWorlds.{HasLastWords, IsIdle, all_sent, settings};
ghost use Rattle.hd_calls.specs.Ledgers.{Called, Gone, Got, ledger};
ghost use Rattle.hd_calls.specs.Examples.{asked, asking, closed_with_calls, fed, FillsCalls, FillsJobs, first_call, int, IsWorked, lost_link, notice, numbered, of_client, of_server, pair, second_call, streamed, three_calls};

/// A stream that is cancelled, a call with an upload, and a call whose job asks its caller: each is answered by its job. The way in
/// which its frames are written is faithful, so the theorem speaks of this world.
pub fn three_calls()
    ensures is_world { IsWorked (pair Json 1 false) (three_calls Json) }
    ensures faithful { IsFaithful usual numbered Json 1 (all_sent (pair Json 1 false)
        (reverse (three_calls Json))) }
    ensures streamed { given 1 (of_client (three_calls Json)) ≡ Item (int 41) ∷ End Void ∷ [] }
    ensures fed { given 2 (of_client (three_calls Json)) ≡ End (Result (int 5)) ∷ [] }
    ensures asking { given 4 (of_client (three_calls Json)) ≡ End (Result (int 7)) ∷ [] }
    ensures asked { given 1 (of_server (three_calls Json)) ≡ End (Result (int 7)) ∷ [] }
{}

/// A call that is lost with its link comes again on the next one. In the end nothing is left to do.
pub fn lost_link()
    ensures is_world { IsWorked (pair Pack 2 true) lost_link }
    ensures answered { given 1 (of_client lost_link) ≡ End Void ∷ [] }
    ensures words { HasLastWords (settings Server (pair Pack 2 true)) (of_server lost_link) (of_client lost_link) }
    ensures idle { IsIdle (pair Pack 2 true) (reverse lost_link) }
{}

/// Of two calls that are live when the client is closed one ends with the Completion that waits, and one is gone.
pub fn closed_with_calls()
    ensures is_world { IsWorked (pair Json 1 false) closed_with_calls }
    ensures first { ledger 1 (of_client closed_with_calls) ≡ Called 1 first_call ∷ Got 1 (End Void) ∷ [] }
    ensures second { ledger 2 (of_client closed_with_calls) ≡ Called 2 second_call ∷ Gone 2 ∷ [] }
{}

/// 1,024 notices that no round comes to begin as many jobs. The next one begins none, and closes the connection.
pub fn too_many_jobs()
    ensures fills { (t : Settings) (k : ℕ) → FillsJobs t k }
    ensures closes { (t : Settings) → step_of t Json false (Handles (message_of notice) (TooMany notice)) ≡ Some (Does (Closed reason.TooMany false)) }
{}

/// 1,024 calls that nobody answers can be made. The next one is refused.
pub fn too_many_calls()
    ensures { (t : Settings) (k : ℕ) → FillsCalls t k }
{}
