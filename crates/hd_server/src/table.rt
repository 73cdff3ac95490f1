//! The table of requests, row by row and life by life, which the checker computes.
#![tactic(auto, unfolding(form_urlencoded::proofs::OnLiterals::form_urlencoded_on_literals))]

ghost use Rattle.std.specs.Prelude.{◌≡◌, true, false, Some, None, [], ◌∷◌, codes};
ghost use Rattle.hw_lanes.specs.declared.http.Method.TheVariants.{Delete, Get, Other, Post};
ghost use Rattle.hd_server.specs.Table.{Anonymous, Named, Unauthorized, KeeperFailed, Refusal, NewToken, PlainSocket, TokenSocket, FirstPoll, NextPoll, LastPoll, Posting, Deletion};
ghost use Rattle.hd_server.specs.TableExamples.{done_by_life, done_for, key, negotiated};

/// Negotiates, in the order of the table: the method comes before the version, that before the caller, and that before what there is
/// room for.
pub fn negotiates()
    ensures method { done_for Get (codes "/hub/negotiate") (codes "negotiateVersion=1") None Anonymous false false ≡ Refusal 405 }
    ensures no_version { negotiated [] Unauthorized true true ≡ Refusal 400 }
    ensures version_zero { negotiated (codes "negotiateVersion=00") Unauthorized true true ≡ Refusal 400 }
    ensures version_of_letters { negotiated (codes "negotiateVersion=1x") Anonymous false false ≡ Refusal 400 }
    ensures version_empty { negotiated (codes "negotiateVersion=") Anonymous false false ≡ Refusal 400 }
    ensures version_too_large { negotiated (codes "negotiateVersion=18446744073709551616") Anonymous false false ≡ Refusal 400 }
    ensures version_greatest { negotiated (codes "negotiateVersion=18446744073709551615") Anonymous false false ≡ NewToken false }
    ensures version_with_zero { negotiated (codes "negotiateVersion=01") (Named (codes "ann")) false false ≡ NewToken false }
    ensures reconnect { negotiated (codes "negotiateVersion=1&useStatefulReconnect=tru%65") Anonymous false false ≡ NewToken true }
    ensures no_reconnect { negotiated (codes "negotiateVersion=1&useStatefulReconnect=True") Anonymous false false ≡ NewToken false }
    ensures first_counts { negotiated (codes "negotiateVersion=0&negotiateVersion=1") Anonymous false false ≡ Refusal 400 }
    ensures unauthorized { negotiated (codes "negotiateVersion=1") Unauthorized true true ≡ Refusal 401 }
    ensures keeper_fails { negotiated (codes "negotiateVersion=1") KeeperFailed true true ≡ Refusal 500 }
    ensures busy { negotiated (codes "negotiateVersion=1") Anonymous true true ≡ Refusal 503 }
    ensures lots_fail { negotiated (codes "negotiateVersion=1") Anonymous false true ≡ Refusal 500 }
{}

/// Other requests that name no token.
pub fn without_token()
    ensures path { done_for Get (codes "/other") [] None Anonymous false false ≡ Refusal 404 }
    ensures path_of_socket { done_for Get (codes "/hub/") [] key Anonymous false false ≡ Refusal 404 }
    ensures socket { done_for Get (codes "/hub") [] key Anonymous false true ≡ PlainSocket }
    ensures socket_unauthorized { done_for Get (codes "/hub") [] key Unauthorized true true ≡ Refusal 401 }
    ensures socket_keeper_fails { done_for Get (codes "/hub") [] key KeeperFailed true true ≡ Refusal 500 }
    ensures socket_busy { done_for Get (codes "/hub") [] key Anonymous true true ≡ Refusal 503 }
    ensures other_method { done_for Other (codes "/hub") [] None Anonymous false false ≡ Refusal 405 }
    ensures no_id { done_for Get (codes "/hub") [] None Unauthorized true true ≡ Refusal 400 }
    ensures no_id_to_post { done_for Post (codes "/hub") [] None Anonymous false false ≡ Refusal 400 }
    ensures no_id_to_delete { done_for Delete (codes "/hub") [] None Anonymous false false ≡ Refusal 400 }
{}

/// Requests that name a token, by its life: unknown, fresh, on a socket, lost, polling, ending.
pub fn by_life()
    ensures socket { done_by_life Get key true ≡ Refusal 404 ∷ TokenSocket ∷ TokenSocket ∷ TokenSocket ∷ Refusal 409 ∷ Refusal 404 ∷ [] }
    ensures socket_not_granted { done_by_life Get key false ≡ Refusal 404 ∷ TokenSocket ∷ Refusal 409 ∷ TokenSocket ∷ Refusal 409 ∷ Refusal 404 ∷ [] }
    ensures poll { done_by_life Get None false ≡ Refusal 404 ∷ FirstPoll ∷ Refusal 409 ∷ Refusal 409 ∷ NextPoll ∷ LastPoll ∷ [] }
    ensures post { done_by_life Post None false ≡ Refusal 404 ∷ Refusal 409 ∷ Refusal 409 ∷ Refusal 409 ∷ Posting ∷ Refusal 404 ∷ [] }
    ensures delete { done_by_life Delete None false ≡ Refusal 404 ∷ Deletion ∷ Refusal 409 ∷ Refusal 409 ∷ Deletion ∷ Deletion ∷ [] }
    ensures other { done_by_life Other None false ≡ Refusal 405 ∷ Refusal 405 ∷ Refusal 405 ∷ Refusal 405 ∷ Refusal 405 ∷ Refusal 405 ∷ [] }
{}
