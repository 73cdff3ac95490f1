//! Worked sessions of dialing, which the checker computes.
#![tactic(auto, unfolding(form_urlencoded::proofs::OnLiterals::form_urlencoded_on_literals))]

ghost use Rattle.std.specs.Prelude.{◌≡◌, true, false, Some, None, [], ◌∷◌, ◌++◌, codes, reverse};
ghost use Rattle.hw_door.specs.declared.heard.Event.TheVariants as event;
ghost use Rattle.hd_dialing.specs.Bodies.{told_as_asked, told_by};
ghost use Rattle.hd_dialing.specs.Asks.{negotiate_target, socket_target};
ghost use Rattle.hd_dialing.specs.Events.{Draws, Learns, Shuts, GivesUp, Stops, Away, Negotiates, Upgrades, Stands, Over, phase, told, is_due, dials_from, lost_dials, wait_left, done};
ghost use Rattle.hd_dialing.specs.Plans.{Begins, Ends, Nothing, news};
ghost use Rattle.hd_dialing.specs.Dialing.{Drops, Leaves, Hears, Dials, IsDialing};
ghost use Rattle.hd_dialing.specs.Dialers.{AreDialing, history};
ghost use Rattle.hd_dialing.specs.Sessions.{answered, asks_socket, asks_token, body, dials, done_in, five_lost, four_lost, hears, kept, key, late, lost_after_a_token, lost_again, made, negotiated, on, run, setup, setup_of_root, two, up};

/// What is asked for, with an access token and without, below a path that ends with a slash and one that doesn't.
pub fn targets()
    ensures negotiate { negotiate_target setup ≡ codes "/hub/negotiate?negotiateVersion=1&useStatefulReconnect=true" }
    ensures socket { socket_target setup (codes "a/b-_") ≡ codes "/hub?id=a%2Fb-_" }
    ensures negotiate_at_root { negotiate_target setup_of_root ≡ codes "/negotiate?negotiateVersion=1&access_token=a+b%26" }
    ensures socket_at_root { socket_target setup_of_root (codes "T") ≡ codes "/?id=T&access_token=a+b%26" }
{}

/// What a body tells: a token that is a text, and a grant that is `true`, whatever else stands there.
#[tactic(auto, unfolding(serde_json::proofs::OnLiterals::serde_json_on_literals))]
pub fn bodies()
    ensures granted { told_by (codes "{\"connectionToken\":\"kT\",\"useStatefulReconnect\":true}") ≡ Some kept }
    ensures plain { told_by (codes "{\"useStatefulReconnect\":\"true\",\"connectionToken\":\"\",\"ttl\":1.5}") ≡
        Some (record { token = []; reconnect = false }) }
    ensures last { told_by (codes "{\"connectionToken\":\"a\",\"connectionToken\":\"kT\",\"useStatefulReconnect\":true}") ≡ Some kept }
    ensures no_text { told_by (codes "{\"connectionToken\":7}") ≡ None }
    ensures no_token { told_by (codes "{\"connectionId\":\"kT\"}") ≡ None }
    ensures no_object { told_by (codes "[\"connectionToken\"]") ≡ None }
    ensures no_json { told_by (codes "{\"connectionToken\":\"kT\"") ≡ None }
    ensures as_asked { told_as_asked true (codes "{\"connectionToken\":\"kT\",\"useStatefulReconnect\":true}") ≡ Some kept }
    ensures not_as_asked { told_as_asked false (codes "{\"connectionToken\":\"kT\",\"useStatefulReconnect\":true}") ≡ None }
{}

/// A token is asked for, its lane is shut, and a socket is asked for with it, by a key that is drawn before the seed.
pub fn first_dials()
    ensures first { done_in (dials 1 ∷ []) ≡ asks_token 1 ∷ [] }
    ensures second { done_in up ≡ made }
    ensures negotiates { phase (run (dials 1 ∷ [])) ≡ Negotiates 1 }
    ensures upgrades { phase (run negotiated) ≡ Upgrades 2 }
    ensures stands { phase (run up) ≡ Stands 2 }
    ensures begins { news (event.Upgraded 2) (phase (run negotiated)) ≡ Begins 2 }
{}

/// What gives a connection up: another status, a body that tells nothing, a response to the upgrade, whose lane isn't shut, and a draw that
/// fails.
pub fn refusals()
    ensures status { done_in (answered (event.Response 1 404 body)) ≡ asks_token 1 ∷ Shuts 1 ∷ GivesUp ∷ [] }
    ensures nothing_told { done_in (answered (event.Response 1 200 [])) ≡ asks_token 1 ∷ Shuts 1 ∷ GivesUp ∷ [] }
    ensures upgrade { done_in (negotiated ++ hears 20 (event.Response 2 200 body) ∷ []) ≡ made ++ GivesUp ∷ [] }
    ensures no_key { done_in (dials 1 ∷ Hears 10 (event.Response 1 200 body) (record { lane = 2; key = None; seed = Some key }) ∷ []) ≡
        asks_token 1 ∷ Shuts 1 ∷ Learns kept ∷ Draws None ∷ GivesUp ∷ [] }
    ensures no_seed { done_in (up ++ hears 30 (event.Lost 2) ∷ Dials (record { lane = 3; key = Some key; seed = None }) ∷ []) ≡
        made ++ Draws (Some key) ∷ Draws None ∷ GivesUp ∷ [] }
    ensures over { phase (run (answered (event.Response 1 404 body))) ≡ Over }
{}

/// Dials that are lost: after the first the next comes at once, after the others 500, 1,000 and 2,000 ms later, and the fifth gives the connection
/// up. A socket that comes up begins the count anew; a response to a negotiate doesn't.
pub fn lost_dials_in_a_row()
    ensures are_dialed { IsDialing setup (reverse five_lost) }
    ensures first { dials_from (run (dials 1 ∷ hears 1000 (event.Lost 1) ∷ [])) ≡ 1000 }
    ensures second { dials_from (run (dials 1 ∷ hears 1000 (event.Lost 1) ∷ dials 2 ∷ hears 1010 (event.Lost 2) ∷ [])) ≡ 1510 }
    ensures fourth { dials_from (run four_lost) ≡ 4500 }
    ensures waits { wait_left (run (four_lost ++ hears 4499 event.Quiet ∷ [])) ≡ 1 }
    ensures not_yet { is_due (run (four_lost ++ hears 4499 event.Quiet ∷ [])) ≡ false }
    ensures then_due { is_due (run (four_lost ++ hears 4500 event.Quiet ∷ [])) ≡ true }
    ensures fifth { done_in five_lost ≡ asks_token 1 ∷ asks_token 2 ∷ asks_token 3 ∷ asks_token 4 ∷ asks_token 5 ∷ GivesUp ∷ [] }
    ensures after_a_token { phase (run lost_after_a_token) ≡ Over }
    ensures anew { lost_dials (run late) ≡ 0 }
    ensures first_anew { dials_from (run lost_again) ≡ 5501 }
{}

/// A link that is lost, or that whoever dials gives up, is followed by a dial with the same token. One that leaves isn't.
pub fn links_end()
    ensures lost { done_in (up ++ hears 30 (event.Lost 2) ∷ dials 3 ∷ hears 40 (event.Upgraded 3) ∷ []) ≡ made ++ asks_socket 3 }
    ensures ends { news (event.Lost 2) (phase (run up)) ≡ Ends }
    ensures at_once { is_due (run (up ++ hears 30 (event.Lost 2) ∷ [])) ≡ true }
    ensures dropped { done_in (up ++ Drops ∷ dials 3 ∷ []) ≡ made ++ Shuts 2 ∷ asks_socket 3 }
    ensures left { done_in (up ++ Leaves ∷ hears 30 (event.Lost 2) ∷ []) ≡ made ++ Shuts 2 ∷ Stops ∷ [] }
    ensures left_early { done_in (dials 1 ∷ Leaves ∷ hears 30 (event.Response 1 200 body) ∷ []) ≡ asks_token 1 ∷ Shuts 1 ∷ Stops ∷ [] }
{}

/// What comes on an older lane, or on one of somebody else, is passed over.
pub fn other_lanes()
    ensures older { done_in (up ++ hears 30 (event.Lost 1) ∷ hears 30 (event.Response 1 404 []) ∷ []) ≡ done_in up }
    ensures still_up { phase (run (up ++ hears 30 (event.Lost 1) ∷ hears 30 (event.Response 1 404 []) ∷ [])) ≡ Stands 2 }
    ensures unnoticed { news (event.Bytes 1 body) (phase (run up)) ≡ Nothing }
    ensures not_counted { lost_dials (run (dials 1 ∷ hears 30 (event.Lost 9) ∷ [])) ≡ 0 }
{}

/// Two connections over one dialer: the first comes up and loses its link, the second is refused.
pub fn two_connections()
    ensures are_dialed { AreDialing two }
    ensures first { done (history 1 two) ≡ asks_token 1 ∷ Shuts 1 ∷ Learns kept ∷ asks_socket 3 }
    ensures second { done (history 2 two) ≡ asks_token 2 ∷ Shuts 2 ∷ GivesUp ∷ [] }
    ensures is_away { phase (history 1 two) ≡ Away }
{}
