//! Worked sessions of a client, which the checker computes.

ghost use Rattle.std.specs.Prelude.{◌≡◌, false, [], ◌∷◌, ◌++◌, Some, None, codes, drop};
ghost use Rattle.hw_door.specs.declared.heard.Event.TheVariants as event;
ghost use Rattle.hw_door.specs.declared.heard.Given.TheVariants as give;
ghost use Rattle.hd_delivery.specs.Frames.{Ack, Close, Ping, Sequence};
ghost use Rattle.hd_client.specs.declared.order.Order.TheVariants as order;
ghost use Rattle.hd_client.specs.Events.{FailsToDraw, GoesOn, IsDone, IsRefused};
ghost use Rattle.hd_client.specs.Sessions.{add, adding, answer, answered, asks_socket, asks_token, at, bytes, comes_again, dials, ends_by, filling, four_lost, given_by, lost_after, notifies, on, plainly_up, printed_by, request, sends, setup, setup_of_one, undrawn, up, waits_by};

/// A call is made once the handshake is complete, its ending is printed, and the last bytes are a Close.
pub fn adds()
    ensures printed { printed_by setup (add ∷ []) answered ≡ codes "shaken\ncall 1\nended 1 result 5\n" }
    ensures given { given_by setup (add ∷ []) answered ≡
        asks_token ∷ give.Shut 1 ∷ asks_socket 2 ∷ sends 2 (request ∷ []) ∷ sends 2 (adding ∷ []) ∷ sends 2 (Close None false ∷ []) ∷ give.Shut 2 ∷ [] }
    ensures done { ends_by setup (add ∷ []) answered ≡ IsDone }
    ensures until { ends_by setup (add ∷ []) up ≡ GoesOn }
{}

/// A link is lost with a call on it, and the next one has the answer. The call is sent again, and no token is asked for.
pub fn a_link_is_lost()
    ensures printed { printed_by setup (add ∷ []) comes_again ≡ codes "shaken\ncall 1\nlost\nagain\nended 1 result 5\n" }
    ensures given { drop 5 (given_by setup (add ∷ []) comes_again) ≡
        asks_socket 3 ∷ sends 3 (Sequence 1 None ∷ adding ∷ []) ∷ sends 3 (Close None false ∷ []) ∷ give.Shut 3 ∷ [] }
    ensures done { ends_by setup (add ∷ []) comes_again ≡ IsDone }
{}

/// What ends a client before its socket is up prints nothing. Dials that are lost are met after their pauses, and the fifth ends it.
pub fn dials_end()
    ensures upgrade { ends_by setup (add ∷ []) (dials 1 ∷ answer 200 2 (codes "kT") ∷ on (event.Response 2 404 []) ∷ []) ≡ IsRefused }
    ensures status { ends_by setup [] (dials 1 ∷ answer 503 2 (codes "kT") ∷ []) ≡ IsRefused }
    ensures body { ends_by setup [] (dials 1 ∷ answer 200 2 (codes "no") ∷ []) ≡ IsRefused }
    ensures four { ends_by setup (add ∷ []) four_lost ≡ GoesOn }
    ensures five { ends_by setup (add ∷ []) (four_lost ++ dials 5 ∷ at 3500 (event.Lost 5) ∷ []) ≡ IsRefused }
    ensures waits { waits_by setup lost_after ≡ 500 }
    ensures undrawn { ends_by setup (add ∷ []) undrawn ≡ FailsToDraw }
{}

/// After an empty script the end is closed once the handshake is complete, and not before. After `lose` with no live call the close comes in the
/// same turn, without a link.
pub fn scripts_end()
    ensures before { ends_by setup [] (dials 1 ∷ answer 200 2 (codes "kT") ∷ on (event.Upgraded 2) ∷ []) ≡ GoesOn }
    ensures after { ends_by setup [] up ≡ IsDone }
    ensures given { drop 3 (given_by setup [] up) ≡ sends 2 (request ∷ []) ∷ sends 2 (Close None false ∷ []) ∷ give.Shut 2 ∷ [] }
    ensures lost { printed_by setup (order.Lose ∷ []) up ≡ codes "shaken\nlost\n" }
    ensures unlinked { drop 3 (given_by setup (order.Lose ∷ []) up) ≡ sends 2 (request ∷ []) ∷ give.Shut 2 ∷ [] }
{}

/// A Close that is heard, a link that is lost for good, and one that is lost before its handshake is complete: the live calls are told as gone, and a
/// lane that is up is shut.
pub fn ends_that_come()
    ensures closed { printed_by setup (add ∷ []) (up ++ on (bytes 2 (Close (Some (codes "Too slow.")) false ∷ [])) ∷ []) ≡
        codes "shaken\ncall 1\nclosed \"Too slow.\"\nended 1 gone\n" }
    ensures shut { drop 5 (given_by setup (add ∷ []) (up ++ on (bytes 2 (Close (Some (codes "Too slow.")) false ∷ [])) ∷ [])) ≡ give.Shut 2 ∷ [] }
    ensures refused { ends_by setup (add ∷ []) (up ++ on (bytes 2 (Close (Some (codes "Too slow.")) false ∷ [])) ∷ []) ≡ IsRefused }
    ensures plain { printed_by setup (add ∷ []) (plainly_up ++ on (event.Lost 2) ∷ []) ≡ codes "shaken\ncall 1\nlost\nended 1 gone\n" }
    ensures opening { printed_by setup (add ∷ []) (dials 1 ∷ answer 200 2 (codes "kT") ∷ on (event.Upgraded 2) ∷ on (event.Lost 2) ∷ []) ≡ codes "lost\n" }
    ensures unshaken { ends_by setup (add ∷ []) (dials 1 ∷ answer 200 2 (codes "kT") ∷ on (event.Upgraded 2) ∷ on (event.Lost 2) ∷ []) ≡ IsRefused }
{}

/// A line waits for room. On a full lane nothing is said, until it has drained.
pub fn lanes_fill()
    ensures room { printed_by setup_of_one (notifies ∷ notifies ∷ []) up ≡ codes "shaken\ncall 0\n" }
    ensures acked { printed_by setup_of_one (notifies ∷ notifies ∷ []) (up ++ on (bytes 2 (Ack 1 ∷ [])) ∷ []) ≡ codes "shaken\ncall 0\ncall 0\n" }
    ensures full { drop 3 (given_by setup (add ∷ []) filling) ≡ sends 2 (request ∷ []) ∷ [] }
    ensures drained { drop 4 (given_by setup (add ∷ []) (filling ++ on (event.Drained 2) ∷ [])) ≡ sends 2 (adding ∷ []) ∷ [] }
{}

/// A link on which nothing is heard for 30,000 ms is lost: its lane is shut, and it is dialed again. A Ping is said after 15,000 ms.
pub fn silences()
    ensures pings { drop 5 (given_by setup (add ∷ []) (up ++ at 14999 event.Quiet ∷ at 15000 event.Quiet ∷ [])) ≡ sends 2 (Ping ∷ []) ∷ [] }
    ensures lost { drop 6 (given_by setup (add ∷ []) (up ++ at 29999 event.Quiet ∷ at 30000 event.Quiet ∷ dials 3 ∷ [])) ≡ give.Shut 2 ∷ asks_socket 3 ∷ [] }
{}
