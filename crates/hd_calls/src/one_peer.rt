//! Cases of one peer, which the checker computes: what is answered, what a message does, and what may not come.

ghost use Rattle.std.specs.Prelude.{[], Bool, false, None, Some, true, ℕ, ◌*◌, ◌+◌, ◌++◌, ◌∷◌, ◌≡◌};
ghost use Rattle.hv_value.specs.declared.value.Value.TheVariants as value;
ghost use Rattle.hv_value.specs.Tree as tree;
ghost use Rattle.hv_value.specs.Tree.{bytes, list, map, more, no_pairs, no_trees, null, text};
ghost use Rattle.hm_message.specs.declared.message.Codec.{Codec};
ghost use Rattle.hm_message.specs.declared.message.Codec.TheVariants.{Json, Pack};
ghost use Rattle.hm_message.specs.declared.message.Ending.TheVariants.{Error, Result, Void};
ghost use Rattle.hm_message.specs.declared.message.Message.{Message};
ghost use Rattle.hm_message.specs.declared.message.Message.TheVariants.{CancelInvocation};
ghost use Rattle.hm_message.specs.Message.{value_image};
ghost use Rattle.hd_delivery.specs.declared.vocabulary.Reason.TheVariants as reason;
ghost use Rattle.hd_delivery.specs.declared.vocabulary.Side.TheVariants.{Server};
ghost use Rattle.hd_delivery.specs.Bytes.{Does};
ghost use Rattle.hd_delivery.specs.Histories.{Closed};
ghost use Rattle.hd_calls.specs.declared.vocabulary.Act.TheVariants as act;
ghost use Rattle.hd_calls.specs.declared.vocabulary.Deed.TheVariants.{Join};
ghost use Rattle.hd_calls.specs.declared.vocabulary.Input.TheVariants as input;
ghost use Rattle.hd_calls.specs.Hubs.{Answer, answer_message, Call, Cancelled, End, Given, Invoked, Item, message_of, Notify, Stream, upload_input};
ghost use Rattle.hd_calls.specs.Peers.{acts, Answers, answers, ask_refused, Begins, Brings, Calls, Feeds, Flood, Handles, InUse, last_of, Loses, Marks, Nothing, Reads, Refuses, Rounds, Runs, Settings, step_of, too_long, Uploads};
ghost use Rattle.hd_calls.specs.Rules.{IsPeerDue, IsPrompt, IsRefusedCancel, IsRefusedUpload, kept_weight, MayMove, MayTurn, next_input, Unknown};
ghost use Rattle.hd_calls.specs.Weights.{call_weight, input_weight, value_weight};
ghost use Rattle.hd_calls.specs.PeerWorlds.{settings};
ghost use Rattle.hd_calls.specs.Ledgers.{Called, Gone, IsLegal, IsLegalLedger, ledger};
ghost use Rattle.hd_calls.specs.Examples.{ask_answered, ask_made, ask_told, asked, asking, begins, calls_made, cancelled_once, ClientMayNot, closed_with_two, deed_done, deed_handed_up, doing, fed, FillsByCall, FillsByEnding, FillsByInput, FillsInputs, first_call, hub, int, item_fed, item_taken, laden, notice, noticed, of_client, of_server, one_asked, one_asks, one_begun, one_more_ending, one_more_item, opened, pair, reads, same_id_again, same_stream_again, server, server_keeps, ServerMay, ServerMayNot, ServerNever, short_asks, sized, stream_twice, streamed, three_calls, upload_ended, uploaded_often, with_own_call};

/// What is sent for a job: its items to a Stream alone, and its ending. One that is too long ends the call in its place, with an error;
/// if that is too long too, nothing is said.
pub fn what_is_answered()
    ensures stream { answers (sized 9) Json (Stream []) (act.Item (int 1) ∷ act.More ∷ act.End Void ∷ [])
        ≡ Item (int 1) ∷ End Void ∷ [] }
    ensures call { answers (sized 9) Json (Call []) (act.Item (int 1) ∷ act.End Void ∷ []) ≡ End Void ∷ [] }
    ensures notify { answers (sized 9) Json Notify (act.Item (int 1) ∷ act.End Void ∷ []) ≡ [] }
    ensures too_long { answers (sized 8) Json (Stream []) (act.Item (int 1) ∷ act.Item (int 2) ∷ act.End Void ∷ [])
        ≡ End too_long ∷ [] }
    ensures long_id { answers (sized 4) Json (Call (1 ∷ [])) (act.End Void ∷ []) ≡ [] }
    ensures nothing { answers (sized 3) Json (Call []) (act.End Void ∷ []) ≡ [] }
    ensures json { answers (sized 9) Json (Stream []) (act.Item (value.Bytes (1 ∷ [])) ∷ [])
        ≡ Item (value_image (value.Bytes (1 ∷ []))) ∷ [] }
    ensures pack { answers (sized 9) Pack (Stream []) (act.Item (value.Bytes (1 ∷ [])) ∷ [])
        ≡ Item (value.Bytes (1 ∷ [])) ∷ [] }
{}

/// What a peer may not do: draw a number for a notice; answer an ask as if it were a deed; refuse a call that can be made, make it
/// twice, or leave it lying; read a message while one waits; give its caller a second ending, or an item of a call that is no Stream;
/// end an upload with a result; give a job a turn that isn't due, or for which there is no room, or an act that isn't its hub's;
/// refuse a call as in use that isn't; hand out a call as gone before a lesser one, or on an open end.
pub fn what_may_not_come()
    ensures notice { ClientMayNot (opened Json 1) (Calls None 1 notice) }
    ensures deed { ServerMayNot one_asks (Answers 0 (input.Done (int 1))) }
    ensures refusal { ServerMayNot one_asks (Refuses 0) }
    ensures twice { ServerMayNot one_asked (Calls (Some 0) 2 asked) }
    ensures waits { ServerMayNot (one_begun ++ server (Reads (message_of fed) ∷ [])) (Reads (message_of asking)) }
    ensures again { (floods : Bool) → ClientMayNot one_more_ending
        (Handles (answer_message (1 ∷ []) (End Void)) (Brings 1 (End Void) floods)) }
    ensures item { (floods : Bool) → ClientMayNot one_more_item
        (Handles (answer_message (2 ∷ []) (Item (int 1))) (Brings 2 (Item (int 1)) floods)) }
    ensures upload { ClientMayNot (three_calls Json) (Uploads 2 0 (End (Result (int 1)))) }
    ensures turn { ServerMayNot one_asked (Runs 0 asking 10 (Given input.Go 12) (act.Ask (0 ∷ []) [])) }
    ensures ended { ServerMayNot (three_calls Json) (Runs 0 streamed 10 Cancelled (act.End Void)) }
    ensures act { ServerMayNot (opened Json 1 ++ one_begun) (Runs 0 streamed 10 (Given input.Go 11) (act.End Void)) }
    ensures in_use { ServerMayNot (one_begun ++ server (Reads (message_of fed) ∷ []))
        (Handles (message_of fed) (InUse fed)) }
    ensures prompt { IsPrompt (Rounds ∷ of_server one_asks) → ⊥ }
    ensures room { MayTurn (sized 100000) short_asks → ⊥ }
    ensures order { ClientMayNot closed_with_two (Loses 2) }
    ensures open { ClientMayNot (opened Json 1 ++ calls_made) (Loses 1) }
{}

/// An ask whose message is too long is refused, and the job is told so.
pub fn an_ask_refused()
    ensures may { MayMove hub (sized 3) short_asks (Refuses 0) }
    ensures told { next_input 0 (Refuses 0 ∷ short_asks) (last_of (acts 0 short_asks))
        ≡ Some (input.Asked ask_refused) }
    ensures once { MayMove hub (sized 3) (Refuses 0 ∷ short_asks) (Refuses 0) → ⊥ }
{}

/// What is no ledger and what are no answers, in the theorem's own words: an item or a second ending after an ending, items for a
/// call, anything after a call is gone. The number 0 is that of each notice, so it has no ledger.
pub fn what_is_excluded()
    ensures item { IsLegal true (End Void ∷ Item (int 1) ∷ []) → ⊥ }
    ensures ending { IsLegal true (End Void ∷ End Void ∷ []) → ⊥ }
    ensures call { IsLegal false (Item (int 1) ∷ []) → ⊥ }
    ensures gone { IsLegalLedger (Called 1 first_call ∷ Gone 1 ∷ Gone 1 ∷ []) → ⊥ }
    ensures twice { IsLegalLedger (Called 1 first_call ∷ Called 1 first_call ∷ []) → ⊥ }
    ensures zero { IsLegalLedger (ledger 0 (Calls None 0 notice ∷ Calls None 0 notice ∷ [])) → ⊥ }
{}

/// What a call does at a server, whatever the client is: it is refused if its id is that of a live job, or if it names a stream that
/// is open or names one twice, and not if the stream has ended.
pub fn ids_in_use()
    ensures id { ServerMay (reads (begins fed) (message_of same_id_again))
        (Handles (message_of same_id_again) (InUse same_id_again)) }
    ensures id_begins_none { (floods : Bool) → ServerNever (reads (begins fed) (message_of same_id_again))
        (Handles (message_of same_id_again) (Begins same_id_again 12 floods)) }
    ensures stream { ServerMay (reads (begins fed) (message_of same_stream_again))
        (Handles (message_of same_stream_again) (InUse same_stream_again)) }
    ensures ended { ServerMay (reads upload_ended (message_of same_stream_again))
        (Handles (message_of same_stream_again) (Begins same_stream_again 12 false)) }
    ensures twice { ServerMay (reads [] (message_of stream_twice))
        (Handles (message_of stream_twice) (InUse stream_twice)) }
{}

/// An id is looked up among own calls first, an item's among Streams alone, and then among the streams of jobs.
pub fn own_calls_come_first()
    ensures item { ServerMay (reads with_own_call (answer_message (115 ∷ 1 ∷ []) (Item (int 1))))
        (Handles (answer_message (115 ∷ 1 ∷ []) (Item (int 1))) (Feeds 0 0 (Item (int 1)))) }
    ensures ending { ServerMay (reads with_own_call (answer_message (115 ∷ 1 ∷ []) (End Void)))
        (Handles (answer_message (115 ∷ 1 ∷ []) (End Void)) (Brings 1 (End Void) false)) }
    ensures not_fed { ServerNever (reads with_own_call (answer_message (115 ∷ 1 ∷ []) (End Void)))
        (Handles (answer_message (115 ∷ 1 ∷ []) (End Void)) (Feeds 0 0 (End Void))) }
    ensures result { upload_input (0, End (Result (int 1))) ≡ input.StreamEnd 0 None }
{}

/// A job is cancelled once. A deed is answered before the job has its next turn, which is given that answer.
pub fn marks_and_deeds()
    ensures again { ServerMay (reads cancelled_once (CancelInvocation [] (1 ∷ [])))
        (Handles (CancelInvocation [] (1 ∷ [])) Nothing) }
    ensures once { ServerNever (reads cancelled_once (CancelInvocation [] (1 ∷ [])))
        (Handles (CancelInvocation [] (1 ∷ [])) (Marks 0)) }
    ensures deed { ServerMay deed_handed_up (Answers 0 (input.Done (int 7))) }
    ensures awaits { ServerNever (deed_handed_up ++ Rounds ∷ [])
        (Runs 0 doing 10 (Given input.Go 12) (act.Do (Join (1 ∷ [])))) }
    ensures goes_on { ServerMay (deed_done ++ Rounds ∷ [])
        (Runs 0 doing 10 (Given (input.Done (int 7)) 12) (act.End (Result (int 7)))) }
    ensures round { ServerNever deed_done
        (Runs 0 doing 10 (Given (input.Done (int 7)) 12) (act.End (Result (int 7)))) }
{}

/// 4,096 items of one upload can wait. The next one floods the job.
pub fn too_many_inputs()
    ensures fills { (k : ℕ) → FillsInputs k }
    ensures closes { (t : Settings) → step_of t Json false (Handles (message_of notice) Flood)
        ≡ Some (Does (Closed reason.Flood false)) }
{}

/// A call from which jobs keep more than they may begins its job, and closes the end. An ending that is too heavy is given to its job, and
/// closes the end too. An input that is too heavy isn't given.
pub fn too_heavy()
    ensures call { (t : Settings) (k now : ℕ) → FillsByCall t k now }
    ensures ending { (k : ℕ) → FillsByEnding k }
    ensures input { (k : ℕ) → FillsByInput k }
{}

/// Where the jobs keep too much an open end is closed for Flood, and no other one is.
pub fn what_closes()
    ensures call { (t : Settings) (code : Codec) (m : Message) (c : Invoked) (now : ℕ)
        → step_of t code false (Handles m (Begins c now true)) ≡ Some (Does (Closed reason.Flood false)) }
    ensures call_on_closed { (t : Settings) (code : Codec) (m : Message) (c : Invoked) (now : ℕ)
        → step_of t code true (Handles m (Begins c now true)) ≡ None }
    ensures light_call { (t : Settings) (code : Codec) (shut : Bool) (m : Message) (c : Invoked) (now : ℕ)
        → step_of t code shut (Handles m (Begins c now false)) ≡ None }
    ensures answer { (t : Settings) (code : Codec) (m : Message) (n : ℕ) (a : Answer)
        → step_of t code false (Handles m (Brings n a true)) ≡ Some (Does (Closed reason.Flood false)) }
    ensures answer_on_closed { (t : Settings) (code : Codec) (m : Message) (n : ℕ) (a : Answer)
        → step_of t code true (Handles m (Brings n a true)) ≡ None }
    ensures light_answer { (t : Settings) (code : Codec) (shut : Bool) (m : Message) (n : ℕ) (a : Answer)
        → step_of t code shut (Handles m (Brings n a false)) ≡ None }
{}

/// What jobs keep: each call until its job is over, each input until the turn at which it is given, and the answer to an ask until the next
/// turn. That an ask is refused adds nothing, nor does the answer to a deed.
pub fn what_jobs_keep()
    ensures calls { (t : Settings) (k : ℕ) → kept_weight t (noticed k) ≡ 96 * k }
    ensures inputs { (t : Settings) (k : ℕ) → kept_weight t (uploaded_often k) ≡ 195 + 48 * k }
    ensures fed { server_keeps item_fed ≡ 243 }
    ensures taken { server_keeps item_taken ≡ 195 }
    ensures made { server_keeps ask_made ≡ 146 }
    ensures answered { server_keeps ask_answered ≡ 242 }
    ensures told { server_keeps ask_told ≡ 146 }
    ensures refused { kept_weight (sized 3) (Refuses 0 ∷ short_asks) ≡ 146 }
    ensures done { server_keeps deed_done ≡ 97 }
    ensures ended { kept_weight (settings Server (pair Json 1 false)) (of_server (three_calls Json)) ≡ 0 }
{}

/// What values, calls and inputs weigh: 48 for each value, list of arguments, target, id and end, with the bytes of texts, of bytes, of
/// keys, of targets and ids, and of errors.
pub fn what_values_weigh()
    ensures null { value_weight null ≡ 48 }
    ensures list { value_weight (list (more (text (1 ∷ 2 ∷ [])) (more (bytes (3 ∷ [])) no_trees))) ≡ 147 }
    ensures map { value_weight (map (tree.pair (1 ∷ 2 ∷ []) null no_pairs)) ≡ 98 }
    ensures notice { call_weight notice ≡ 96 }
    ensures call { call_weight fed ≡ 195 }
    ensures stream { call_weight laden ≡ 345 }
    ensures item { input_weight (input.Item 0 (value.Text (1 ∷ 2 ∷ 3 ∷ []))) ≡ 51 }
    ensures stream_end { input_weight (input.StreamEnd 0 None) ≡ 48 }
    ensures stream_error { input_weight (input.StreamEnd 0 (Some (1 ∷ 2 ∷ []))) ≡ 50 }
    ensures nothing { input_weight (input.Asked Void) ≡ 48 }
    ensures error { input_weight (input.Asked (Error (1 ∷ 2 ∷ []))) ≡ 50 }
    ensures refusal { input_weight (input.Asked ask_refused) ≡ 0 }
    ensures result { input_weight (input.Asked (Result (int 7))) ≡ 96 }
    ensures deed { input_weight (input.Done (int 7)) ≡ 0 }
{}

/// Nothing is due without room. What speaks of no live call or upload is refused.
pub fn what_is_refused()
    ensures room { IsPeerDue (sized 100000) short_asks → ⊥ }
    ensures upload { IsRefusedUpload (sized 9) (of_client (three_calls Json)) 2 0 (End Void) Unknown }
    ensures cancel { IsRefusedCancel (sized 9) (of_client (three_calls Json)) 1 Unknown }
    ensures live { IsRefusedCancel (sized 9) (of_client closed_with_two) 1 Unknown → ⊥ }
{}
