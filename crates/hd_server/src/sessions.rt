//! Worked sessions of a server, which the checker computes: what is said at each event.
#![tactic(auto, unfolding(form_urlencoded::proofs::OnLiterals::form_urlencoded_on_literals))]

ghost use Rattle.std.specs.Prelude.{◌≡◌, true, false, Some, None, [], ◌∷◌, ◌++◌, codes};
ghost use Rattle.hw_door.specs.declared.heard.Event.TheVariants as event;
ghost use Rattle.hw_lanes.specs.declared.http.ReplyField.TheVariants.{AllowPost, AllowGetPostDelete, AuthenticateBearer};
ghost use Rattle.hd_server.specs.declared.vocabulary.Said.TheVariants as say;
ghost use Rattle.hd_server.specs.Texts.{negotiate_body};
ghost use Rattle.hd_server.specs.LivesExamples.{first_token, second_token, third_token};
ghost use Rattle.hd_server.specs.TableExamples.{key};
ghost use Rattle.hd_server.specs.Plans.{bare_reply, frames_reply, socket_reply, token_reply};
ghost use Rattle.hd_server.specs.Sessions.{asks_history, at, at_drawing, at_stranger, closing_reply, delete, ended, expired_text, first_socket, get_negotiate, held_before, IsServed, joins_a_room, joins_and_posts, joins_on_full, last_negotiate, last_poll, last_socket, members_by_two, negotiate, next_after, on_socket, other_method, plain_socket, poll, polled_once, polls_and_posts, post, posted, posts_a_text, refused, room_of_three, said_after, said_at, said_by_two, said_of_live, silent_until, socket, socket_with, strangers_socket, told_reply, unnamed_poll, wrote};

/// A room is joined and a text posted to it. Each job has one turn in a round, so its deeds come event by event.
pub fn rooms()
    ensures posts { said_at (joins_and_posts true) ≡
        (say.Reply 1 (socket_reply key) ∷ []) ∷ (wrote 1 (codes "{}") ∷ []) ∷ [] ∷
        (wrote 1 (codes "{\"invocationId\":\"1\",\"type\":3}") ∷ []) ∷ [] ∷
        (wrote 1 (posted (codes "1")) ∷ []) ∷
        (wrote 1 (codes "{\"invocationId\":\"2\",\"type\":3}") ∷ []) ∷ [] }
    ensures store_fails { said_at (joins_and_posts false) ≡
        (say.Reply 1 (socket_reply key) ∷ []) ∷ (wrote 1 (codes "{}") ∷ []) ∷ [] ∷
        (wrote 1 (codes "{\"invocationId\":\"1\",\"type\":3}") ∷ []) ∷ [] ∷
        (wrote 1 (codes "{\"error\":\"The store failed.\",\"invocationId\":\"2\",\"type\":3}") ∷ []) ∷ [] ∷ [] }
{}

/// A token is told, and lives until its moment; so does a connection that lost its lane.
pub fn first_sockets()
    ensures in_time { said_at (first_socket 30999) ≡
        (say.Reply 1 (token_reply (negotiate_body 1 first_token true)) ∷ []) ∷ (say.Reply 2 (socket_reply key) ∷ []) ∷ [] }
    ensures too_late { said_at (first_socket 31000) ≡
        (say.Reply 1 (token_reply (negotiate_body 1 first_token true)) ∷ []) ∷ (say.Reply 2 (bare_reply 404) ∷ []) ∷ [] }
    ensures resumed { said_after on_socket (at 2000 (event.Lost 2) ∷ at 31999 (socket 3) ∷ []) ≡
        [] ∷ (say.Reply 3 (socket_reply key) ∷ wrote 3 (codes "{\"sequenceId\":1,\"type\":9}") ∷ []) ∷ [] }
    ensures forgotten { said_after on_socket (at 2000 (event.Lost 2) ∷ at 32000 (socket 3) ∷ []) ≡
        [] ∷ (say.Reply 3 (bare_reply 404) ∷ []) ∷ [] }
{}

/// What a token's life excludes.
pub fn conflicts()
    ensures on_socket { said_after on_socket (at 2000 (poll 3) ∷ at 2000 (delete 3) ∷ []) ≡
        (say.Reply 3 (bare_reply 409) ∷ []) ∷ (say.Reply 3 (bare_reply 409) ∷ []) ∷ [] }
    ensures polling { said_at (at_drawing 0 (negotiate 1) ∷ at 0 (poll 2) ∷ at 0 (socket 3) ∷ []) ≡
        (say.Reply 1 (token_reply (negotiate_body 1 first_token true)) ∷ []) ∷
        (say.Reply 2 (bare_reply 200) ∷ []) ∷ (say.Reply 3 (bare_reply 409) ∷ []) ∷ [] }
    ensures unnamed { said_at (at 0 (unnamed_poll 1) ∷ []) ≡ (say.Reply 1 (closing_reply (bare_reply 400)) ∷ say.Shut 1 ∷ []) ∷ [] }
    ensures lots_fail { said_at (at 0 (negotiate 1) ∷ []) ≡ (say.Reply 1 (bare_reply 500) ∷ []) ∷ [] }
{}

/// Where as many connections live as may, the first that nobody used gives way to a new token or socket; one that was used gives way to
/// none, and nothing gives way to a token for which nothing was drawn.
pub fn giving_way()
    ensures first { said_of_live 2 (at_drawing 0 (negotiate 1) ∷ at_drawing 0 (negotiate 2) ∷ at_drawing 0 (negotiate 3) ∷
        at 0 (socket 4) ∷ at 0 (socket_with second_token 5) ∷ at 0 (socket_with third_token 6) ∷ []) ≡
        (say.Reply 1 (token_reply (negotiate_body 1 first_token true)) ∷ []) ∷
        (say.Reply 2 (token_reply (negotiate_body 2 second_token true)) ∷ []) ∷
        (say.Reply 3 (token_reply (negotiate_body 3 third_token true)) ∷ []) ∷
        (say.Reply 4 (bare_reply 404) ∷ []) ∷ (say.Reply 5 (socket_reply key) ∷ []) ∷ (say.Reply 6 (socket_reply key) ∷ []) ∷ [] }
    ensures to_a_socket { said_of_live 1 (at_drawing 0 (negotiate 1) ∷ at 0 (plain_socket 2) ∷ at 0 (socket 3) ∷ []) ≡
        (say.Reply 1 (token_reply (negotiate_body 1 first_token true)) ∷ []) ∷
        (say.Reply 2 (socket_reply key) ∷ []) ∷ (say.Reply 3 (bare_reply 404) ∷ []) ∷ [] }
    ensures used { said_of_live 1 (at_drawing 0 (negotiate 1) ∷ at 0 (socket 2) ∷ at_drawing 0 (negotiate 3) ∷ at 0 (plain_socket 4) ∷ []) ≡
        (say.Reply 1 (token_reply (negotiate_body 1 first_token true)) ∷ []) ∷ (say.Reply 2 (socket_reply key) ∷ []) ∷
        (say.Reply 3 (bare_reply 503) ∷ []) ∷ (say.Reply 4 (bare_reply 503) ∷ []) ∷ [] }
    ensures lots_fail { said_of_live 1 (at_drawing 0 (negotiate 1) ∷ at 0 (negotiate 2) ∷ at 0 (socket 3) ∷ []) ≡
        (say.Reply 1 (token_reply (negotiate_body 1 first_token true)) ∷ []) ∷
        (say.Reply 2 (bare_reply 500) ∷ []) ∷ (say.Reply 3 (socket_reply key) ∷ []) ∷ [] }
{}

/// A refusal tells what its path allows, or how a caller is known. A lane that is to end says so in its last reply, and only there.
pub fn refusals()
    ensures negotiate { said_at (at 0 (get_negotiate 1) ∷ []) ≡ (say.Reply 1 (told_reply 405 AllowPost) ∷ []) ∷ [] }
    ensures base { said_at (at 0 (other_method 1) ∷ []) ≡ (say.Reply 1 (told_reply 405 AllowGetPostDelete) ∷ []) ∷ [] }
    ensures stranger { said_at (at_stranger 0 (strangers_socket 1) ∷ []) ≡ (say.Reply 1 (told_reply 401 AuthenticateBearer) ∷ []) ∷ [] }
    ensures last { said_at (at 0 (last_negotiate 1) ∷ at 0 (get_negotiate 2) ∷ []) ≡
        (say.Reply 1 (closing_reply (told_reply 405 AllowPost)) ∷ say.Shut 1 ∷ []) ∷ (say.Reply 2 (told_reply 405 AllowPost) ∷ []) ∷ [] }
{}

/// Long polling: the first poll is answered at once, the second is held until the third comes.
pub fn held_polls()
    ensures { said_at polls_and_posts ≡
        (say.Reply 1 (token_reply (negotiate_body 1 first_token true)) ∷ []) ∷
        (say.Reply 2 (bare_reply 200) ∷ []) ∷ [] ∷ (say.Reply 3 (bare_reply 204) ∷ []) ∷
        (say.Reply 5 (bare_reply 200) ∷ say.Reply 4 (frames_reply (ended (codes "{}"))) ∷ []) ∷
        (say.Reply 6 (bare_reply 202) ∷ []) ∷ (say.Reply 7 (bare_reply 404) ∷ []) ∷ [] }
{}

/// How polls end: by a Ping, by a silence, after 90,000 ms, by the moment after the last one, and by the loss of their lane.
pub fn ends_of_polls()
    ensures pinged { said_after polled_once (at 0 (poll 5) ∷ at 14999 event.Quiet ∷ at 15000 event.Quiet ∷ []) ≡
        [] ∷ [] ∷ (say.Reply 5 (frames_reply (ended (codes "{\"type\":6}"))) ∷ []) ∷ [] }
    ensures silent { said_after held_before (at 29999 event.Quiet ∷ at 30000 event.Quiet ∷ at 30000 (poll 4) ∷ []) ≡
        [] ∷ (say.Reply 3 (bare_reply 204) ∷ []) ∷ (say.Reply 4 (bare_reply 404) ∷ []) ∷ [] }
    ensures held_too_long { said_after held_before (at 20000 (post 4 []) ∷ at 40000 (post 5 []) ∷ at 60000 (post 6 []) ∷ at 80000 (post 7 []) ∷
        at 89999 event.Quiet ∷ at 90000 event.Quiet ∷ []) ≡
        (say.Reply 4 (bare_reply 200) ∷ []) ∷ (say.Reply 5 (bare_reply 200) ∷ []) ∷ (say.Reply 6 (bare_reply 200) ∷ []) ∷ (say.Reply 7 (bare_reply 200) ∷ []) ∷
        [] ∷ (say.Reply 3 (bare_reply 200) ∷ []) ∷ [] }
    ensures expired { said_after polled_once (at 30000 (poll 5) ∷ at 30000 (poll 6) ∷ at 30000 (poll 7) ∷ []) ≡
        (say.Reply 5 (frames_reply (ended expired_text)) ∷ []) ∷
        (say.Reply 6 (bare_reply 204) ∷ []) ∷ (say.Reply 7 (bare_reply 404) ∷ []) ∷ [] }
    ensures expired_long_ago { said_after polled_once (at 30000 event.Quiet ∷ at 60000 (poll 5) ∷ []) ≡
        [] ∷ (say.Reply 5 (bare_reply 404) ∷ []) ∷ [] }
    ensures broken { said_after held_before (at 0 (event.Lost 3) ∷ at 0 (post 4 (1 ∷ [])) ∷ at 0 (poll 5) ∷ []) ≡
        [] ∷ (say.Reply 4 (bare_reply 200) ∷ []) ∷ (say.Reply 5 (frames_reply (ended (codes "{}"))) ∷ []) ∷ [] }
{}

/// A socket on which nothing is heard: a Ping, and then the lane is shut. Its connection can be resumed until its moment.
pub fn silences()
    ensures resumed { said_after on_socket (silent_until 61999) ≡
        [] ∷ (wrote 2 (codes "{\"type\":6}") ∷ []) ∷ [] ∷ (say.Shut 2 ∷ []) ∷
        (say.Reply 3 (socket_reply key) ∷ wrote 3 (codes "{\"sequenceId\":1,\"type\":9}") ∷ []) ∷ [] }
    ensures forgotten { said_after on_socket (silent_until 62000) ≡
        [] ∷ (wrote 2 (codes "{\"type\":6}") ∷ []) ∷ [] ∷ (say.Shut 2 ∷ []) ∷
        (say.Reply 3 (bare_reply 404) ∷ []) ∷ [] }
{}

/// A connection is resumed while it stands on a socket: the older lane is shut, and its loss changes nothing.
pub fn takeovers()
    ensures { said_after on_socket (at 3000 (socket 3) ∷ at 3000 (event.Lost 2) ∷ at 3000 event.Quiet ∷ []) ≡
        (say.Shut 2 ∷ say.Reply 3 (socket_reply key) ∷ wrote 3 (codes "{\"sequenceId\":1,\"type\":9}") ∷ []) ∷ [] ∷ [] ∷ [] }
{}

/// What ends a socket: a handshake that is refused, the other end's Close, and its loss on a connection that isn't kept.
pub fn closings()
    ensures refused { said_at (at 0 (plain_socket 1) ∷ at 0 (event.Bytes 1 (9 ∷ 0 ∷ [])) ∷ at 0 (event.Bytes 1 (0 ∷ [])) ∷ []) ≡
        (say.Reply 1 (socket_reply key) ∷ []) ∷
        (wrote 1 (codes "{\"error\":\"The handshake is not JSON.\"}") ∷ say.Shut 1 ∷ []) ∷ [] ∷ [] }
    ensures close { said_at (at 0 (plain_socket 1) ∷ at 0 (event.Bytes 1 (1 ∷ 6 ∷ [])) ∷ []) ≡
        (say.Reply 1 (socket_reply key) ∷ []) ∷ (wrote 1 (codes "{}") ∷ say.Shut 1 ∷ []) ∷ [] }
    ensures last_request { said_at (at 0 (last_socket 1) ∷ at 0 (last_poll 2) ∷ []) ≡
        (say.Reply 1 (socket_reply key) ∷ []) ∷ (say.Reply 2 (closing_reply (bare_reply 404)) ∷ say.Shut 2 ∷ []) ∷ [] }
{}

/// A lane on which the door refused a request is shut already, so it isn't shut again: after a reply, at a takeover, at a silence, and
/// after the last bytes of a connection that is closed.
pub fn refused_lanes()
    ensures reply { said_after polled_once (at 0 (last_poll 5) ∷ at 0 (refused 5) ∷ at 0 (poll 6) ∷ []) ≡
        [] ∷ [] ∷ (say.Reply 5 (bare_reply 204) ∷ []) ∷ [] }
    ensures takeover { said_after on_socket (at 3000 (refused 2) ∷ at 3000 (socket 3) ∷ []) ≡
        [] ∷ (say.Reply 3 (socket_reply key) ∷ wrote 3 (codes "{\"sequenceId\":1,\"type\":9}") ∷ []) ∷ [] }
    ensures silence { said_after on_socket (at 2000 (refused 2) ∷ at 2000 event.Quiet ∷ at 32000 event.Quiet ∷ []) ≡ [] ∷ [] ∷ [] ∷ [] }
    ensures close { said_at (at 0 (plain_socket 1) ∷ at 0 (refused 1) ∷ at 0 (event.Bytes 1 (1 ∷ 6 ∷ [])) ∷ []) ≡
        (say.Reply 1 (socket_reply key) ∷ []) ∷ [] ∷ (wrote 1 (codes "{}") ∷ []) ∷ [] }
{}

/// On a lane that is full nothing is said of an end that is open: what is due is said once the lane has drained. An end that is closed says it all the
/// same.
pub fn full_lanes()
    ensures drained { said_at (joins_on_full ++ at 0 (event.Drained 1) ∷ []) ≡
        (say.Reply 1 (socket_reply key) ∷ []) ∷ (wrote 1 (codes "{}") ∷ []) ∷ [] ∷ [] ∷
        (wrote 1 (codes "{\"invocationId\":\"1\",\"type\":3}") ∷ []) ∷ [] }
    ensures closed { said_at (joins_on_full ++ at 0 (event.Bytes 1 (6 ∷ [])) ∷ []) ≡
        (say.Reply 1 (socket_reply key) ∷ []) ∷ (wrote 1 (codes "{}") ∷ []) ∷ [] ∷ [] ∷
        (wrote 1 (codes "{\"invocationId\":\"1\",\"type\":3}") ∷ say.Shut 1 ∷ []) ∷ [] }
    ensures other { said_at (joins_on_full ++ at 0 (event.Drained 2) ∷ []) ≡
        (say.Reply 1 (socket_reply key) ∷ []) ∷ (wrote 1 (codes "{}") ∷ []) ∷ [] ∷ [] ∷ [] ∷ [] }
{}

/// A text is posted to a room of three, one of which holds two messages at most: it gets two, and is closed at the third. A member that
/// joined twice gets each text once.
pub fn broadcasts()
    ensures { said_by_two room_of_three (posts_a_text ++ posts_a_text ++ posts_a_text ++ posts_a_text) ≡
        [] ∷ (wrote 1 (posted (codes "1")) ∷ say.Bytes 2 (ended (posted (codes "1"))) false ∷ wrote 3 (posted (codes "1")) ∷ []) ∷ [] ∷
        [] ∷ (wrote 1 (posted (codes "1")) ∷ say.Bytes 2 (ended (posted (codes "1"))) false ∷ wrote 3 (posted (codes "1")) ∷ []) ∷ [] ∷
        [] ∷ (wrote 1 (posted (codes "1")) ∷ say.Bytes 2 (ended (posted (codes "1"))) false ∷ wrote 3 (codes "{\"error\":\"Too slow.\",\"type\":7}") ∷ say.Shut 3 ∷ []) ∷ [] ∷
        [] ∷ (wrote 1 (posted (codes "1")) ∷ say.Bytes 2 (ended (posted (codes "1"))) false ∷ []) ∷ [] ∷ [] }
{}

/// A member whose lane is lost is in no room any more, nor is one that was too slow.
pub fn losses()
    ensures told { said_by_two room_of_three (at 0 (event.Lost 2) ∷ posts_a_text) ≡
        [] ∷ [] ∷ (wrote 1 (posted (codes "1")) ∷ wrote 3 (posted (codes "1")) ∷ []) ∷ [] ∷ [] }
    ensures members { members_by_two room_of_three ≡ 1 ∷ 2 ∷ 3 ∷ [] }
    ensures lost { members_by_two (room_of_three ++ at 0 (event.Lost 2) ∷ []) ≡ 1 ∷ 3 ∷ [] }
    ensures too_slow { members_by_two (room_of_three ++ posts_a_text ++ posts_a_text ++ posts_a_text) ≡ 1 ∷ 2 ∷ [] }
{}

/// The last texts of a room are asked for, and the store answers or fails.
pub fn histories()
    ensures told { said_by_two room_of_three (asks_history (Some (codes "hi" ∷ []))) ≡
        [] ∷ (wrote 1 (codes "{\"invocationId\":\"3\",\"result\":[\"hi\"],\"type\":3}") ∷ []) ∷ [] }
    ensures fails { said_by_two room_of_three (asks_history None) ≡
        [] ∷ (wrote 1 (codes "{\"error\":\"The store failed.\",\"invocationId\":\"3\",\"type\":3}") ∷ []) ∷ [] }
{}

/// A socket is accepted, its handshake answered and a room joined: a server that heard this may have said that, step by step as the
/// definitions want it.
pub fn a_room_is_joined()
    ensures { IsServed joins_a_room (say.Reply 1 (socket_reply key) ∷ wrote 1 (codes "{}") ∷ wrote 1 (codes "{\"invocationId\":\"1\",\"type\":3}") ∷ []) }
{}

/// When a server is idle: a job that just began has a turn at once, one that handed up a deed has its next one later, and at the end
/// none has.
pub fn idle_servers()
    ensures quiet { next_after (at 0 (plain_socket 1) ∷ at 0 (event.Bytes 1 (1 ∷ [])) ∷ []) ≡ None }
    ensures busy { next_after (at 0 (plain_socket 1) ∷ at 0 (event.Bytes 1 (1 ∷ 1 ∷ [])) ∷ []) ≡ Some 1 }
    ensures done { next_after (at 0 (plain_socket 1) ∷ at 0 (event.Bytes 1 (1 ∷ 1 ∷ [])) ∷ at 0 event.Quiet ∷ []) ≡ None }
{}
