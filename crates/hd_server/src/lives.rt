//! Lives of tokens, and the texts that tell tokens, which the checker computes.

ghost use Rattle.std.specs.Prelude.{◌≡◌, true, false, Some, None, [], ◌∷◌, ◌++◌, codes, length};
ghost use Rattle.hd_server.specs.declared.vocabulary.Life.TheVariants.{Unknown, Fresh, Socket, Lost, Polling, Ending};
ghost use Rattle.hd_server.specs.Lives.{Answered, Ended, Expired, LaneLost, Removed, Negotiated, Polled, Socketed, is_made, known_conn, life, live, made, overdue};
ghost use Rattle.hd_server.specs.LivesExamples.{first_token, held, moved, plain, polled, sixteen_zeros, told};
ghost use Rattle.hd_server.specs.Texts.{body_with, negotiate_body, sockets_body, sockets_body_with, token_of};

/// A token that isn't used is unknown 30,000 ms after it was told. One that nobody was told is unknown.
pub fn fresh_tokens()
    ensures at_once { life first_token 1000 told ≡ Fresh }
    ensures in_time { life first_token 30999 told ≡ Fresh }
    ensures too_late { life first_token 31000 told ≡ Unknown }
    ensures due_then { overdue 31000 told ≡ 1 ∷ [] }
    ensures not_before { overdue 30999 told ≡ [] }
    ensures once { overdue 31000 (Expired 1 31000 ∷ told) ≡ [] }
    ensures other { life (codes "AAAAAAAAAAAAAAAAAAAAAAAAAAAAAAAC") 1000 told ≡ Unknown }
    ensures deleted { life first_token 1000 (Removed 1 ∷ told) ≡ Unknown }
{}

/// On a socket no moment counts. The loss of an older lane changes nothing; after that of the present one it is lost, for 30,000 ms.
pub fn sockets()
    ensures stands { life first_token 900000 moved ≡ Socket 5 }
    ensures older_lost { life first_token 900000 (LaneLost 1 4 5000 ∷ moved) ≡ Socket 5 }
    ensures lost { life first_token 34999 (LaneLost 1 5 5000 ∷ moved) ≡ Lost }
    ensures lost_too_long { life first_token 35000 (LaneLost 1 5 5000 ∷ moved) ≡ Unknown }
    ensures resumed { life first_token 900000 (Socketed 1 6 34999 ∷ LaneLost 1 5 5000 ∷ moved) ≡ Socket 6 }
    ensures removed { life first_token 5000 (Removed 1 ∷ moved) ≡ Unknown }
{}

/// While a poll is held no moment counts; after the last one ended it polls for 30,000 ms. Then it is ending, though nobody noted that
/// yet; once it is noted, for 30,000 ms more.
pub fn polls()
    ensures polling { life first_token 31999 polled ≡ Polling }
    ensures closed { life first_token 32000 polled ≡ Ending }
    ensures held { life first_token 900000 held ≡ Polling }
    ensures older_answered { life first_token 900000 (Answered 1 4 3000 ∷ held) ≡ Polling }
    ensures held_lane_lost { life first_token 34000 (LaneLost 1 5 4000 ∷ held) ≡ Ending }
    ensures ending { life first_token 69999 (Expired 1 40000 ∷ polled) ≡ Ending }
    ensures ended { life first_token 70000 (Expired 1 40000 ∷ polled) ≡ Unknown }
    ensures closed_by_its_end { life first_token 32999 (Ended 1 3000 ∷ held) ≡ Ending }
    ensures closed_too_long { life first_token 33000 (Ended 1 3000 ∷ held) ≡ Unknown }
    ensures expired_twice { life first_token 70000 (Expired 1 70000 ∷ Expired 1 40000 ∷ polled) ≡ Unknown }
    ensures ended_once { life first_token 33000 (Ended 1 20000 ∷ Ended 1 3000 ∷ held) ≡ Unknown }
    ensures lost_since { life first_token 31030 (LaneLost 1 6 1030 ∷ Socketed 1 6 1020 ∷ Answered 1 5 1010 ∷ Polled 1 5 1005 ∷ told) ≡ Unknown }
    ensures not_known_again { life first_token 31030 (Expired 1 31030 ∷ LaneLost 1 6 1030 ∷ Socketed 1 6 1020 ∷ Answered 1 5 1010 ∷ Polled 1 5 1005 ∷ told) ≡ Unknown }
{}

/// A token tells its connection as long as its life is known, also while it is ending.
pub fn known_tokens()
    ensures fresh { known_conn first_token 30999 told ≡ Some 1 }
    ensures past { known_conn first_token 31000 told ≡ None }
    ensures ending { known_conn first_token 69999 (Expired 1 40000 ∷ polled) ≡ Some 1 }
    ensures ended { known_conn first_token 70000 (Expired 1 40000 ∷ polled) ≡ None }
    ensures removed { known_conn first_token 5000 (Removed 1 ∷ moved) ≡ None }
    ensures other { known_conn (codes "AAAAAAAAAAAAAAAAAAAAAAAAAAAAAAAC") 1000 told ≡ None }
{}

/// Connections with a token and without live until they are let go or their moment has come, and are numbered in one row.
pub fn connections()
    ensures made { made plain ≡ 2 }
    ensures first { is_made 1 plain ≡ true }
    ensures last { is_made 2 plain ≡ true }
    ensures none { is_made 0 plain ≡ false }
    ensures next { is_made 3 plain ≡ false }
    ensures gone { is_made 2 (Removed 2 ∷ plain) ≡ true }
    ensures live { live 30999 plain ≡ 1 ∷ 2 ∷ [] }
    ensures first_is_past { live 31000 plain ≡ 2 ∷ [] }
    ensures second_is_gone { live 30999 (Removed 2 ∷ plain) ≡ 1 ∷ [] }
{}

/// The token of connection 1 with 16 zero bytes, of connection 2^64 - 1 with 16 bytes of 255, and the bodies that tell a token.
pub fn tokens()
    ensures first { token_of sixteen_zeros 1 ≡ first_token }
    ensures last { token_of (255 ∷ 255 ∷ 255 ∷ 255 ∷ 255 ∷ 255 ∷ 255 ∷ 255 ∷ 255 ∷ 255 ∷ 255 ∷ 255 ∷ 255 ∷ 255 ∷ 255 ∷ 255 ∷ []) 18446744073709551615 ≡
        codes "________________________________" }
    ensures order { token_of (0 ∷ 16 ∷ 131 ∷ 16 ∷ 81 ∷ 135 ∷ 32 ∷ 146 ∷ 139 ∷ 48 ∷ 211 ∷ 143 ∷ 65 ∷ 20 ∷ 147 ∷ 81 ∷ []) 258 ≡
        codes "ABCDEFGHIJKLMNOPQRSTUQAAAAAAAAEC" }
    ensures body { body_with (codes "1") first_token true ≡ codes "{\"availableTransports\":[{\"transferFormats\":[\"Text\",\"Binary\"],\"transport\":\"WebSockets\"},{\"transferFormats\":[\"Text\",\"Binary\"],\"transport\":\"LongPolling\"}],\"connectionId\":\"1\",\"connectionToken\":\"AAAAAAAAAAAAAAAAAAAAAAAAAAAAAAAB\",\"negotiateVersion\":1,\"useStatefulReconnect\":true}" }
    ensures numbered { negotiate_body 27 first_token true ≡ body_with (codes "27") first_token true }
    ensures sockets { sockets_body_with (codes "1") first_token true ≡ codes "{\"availableTransports\":[{\"transferFormats\":[\"Text\",\"Binary\"],\"transport\":\"WebSockets\"}],\"connectionId\":\"1\",\"connectionToken\":\"AAAAAAAAAAAAAAAAAAAAAAAAAAAAAAAB\",\"negotiateVersion\":1,\"useStatefulReconnect\":true}" }
    ensures sockets_numbered { sockets_body 27 first_token false ≡ sockets_body_with (codes "27") first_token false }
    ensures size { length (body_with (codes "1") first_token true) ≡ 273 }
    ensures size_without { length (body_with (codes "1") first_token false) ≡ 245 }
{}
