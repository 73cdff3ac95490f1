//! What is done about a request: by where it leads, the rows of the table that are left, of which the first that applies decides.

ghost use Rattle.std.specs.Prelude.{◌≡◌, IfSome, List, ℕ, if◌then◌else◌, true};
ghost use Rattle.hw_lanes.specs.declared.http.Request.{Request as RequestMeant};
ghost use Rattle.hd_server.specs.Lives.{is_made};
ghost use Rattle.hd_server.specs.Table as table;
ghost use Rattle.hd_server.specs.declared.vocabulary.Outcome.TheVariants.{Refusal};
ghost use Rattle.hd_server.specs.Table.{Facts};
ghost use Rattle.hn_server_front.specs.Calls.{OfEach};
ghost use Rattle.hn_server_front.specs.Routes.{RoutesTo, entry_outcome, facts_at, known_conn_of_some, token_at};

use crate::front::Front;
use crate::route::Route;
use hd_server::{Caller, Life, Outcome};

impl Front {
    /// What is done about a request that leads there, at a moment: the first row of the table that applies. `caller` matters only if the
    /// request would make a connection (`Route::is_entry`); `resumable`: the end of the connection that it names may be resumed. Lots
    /// aren't asked: if they fail after `NewToken`, it is a refusal of status 500.
    pub fn outcome(&self, route: &Route, caller: &Caller, resumable: bool, now: u64) -> Outcome
        ensures by_rows { OfEach self.now (λ h. (base : List ℕ) (r : RequestMeant) → RoutesTo base r route.now →
            result ≡ table.outcome base r (facts_at self.now.live r caller.now resumable now h)) }
        ensures of_table { (base : List ℕ) (r : RequestMeant) → RoutesTo base r route.now →
            (f : Facts) × (result ≡ table.outcome base r f) }
    {
        match route {
            Route::Refuse(status) => Outcome::Refusal(*status),
            Route::Negotiate { asked } => {
                let made = Outcome::NewToken { reconnect: *asked };
                of_entry(caller, self.busy(now), made)
            }
            Route::Open => of_entry(caller, self.busy(now), Outcome::PlainSocket),
            Route::Socket { token } => of_socket(self.life(token, now), resumable),
            Route::Poll { token } => of_poll(self.life(token, now)),
            Route::Post { token } => of_post(self.life(token, now)),
            Route::Delete { token } => of_delete(self.life(token, now)),
        }
    }

    /// The connection whose token a route names, as long as the token's life is known.
    pub fn named(&self, route: &Route, now: u64) -> Option<u64>
        ensures known { OfEach self.now (λ h. result ≡ known_conn_of_some (token_at route.now) now h) }
        ensures made { OfEach self.now (λ h. IfSome result (λ conn. is_made conn h ≡ true)) }
    {
        match route {
            Route::Refuse(_) => None,
            Route::Negotiate { asked: _ } => None,
            Route::Open => None,
            Route::Socket { token } => self.conn_of(token, now),
            Route::Poll { token } => self.conn_of(token, now),
            Route::Post { token } => self.conn_of(token, now),
            Route::Delete { token } => self.conn_of(token, now),
        }
    }
}

/// A request that would make a connection: it does, if its caller may have one and the server isn't busy.
fn of_entry(caller: &Caller, busy: bool, made: Outcome) -> Outcome
    ensures { (f : Facts) → f.caller ≡ caller.now → f.busy ≡ busy → result ≡ entry_outcome made f }
{
    match caller {
        Caller::Unauthorized => Outcome::Refusal(401),
        Caller::KeeperFailed => Outcome::Refusal(500),
        Caller::Anonymous => unless_busy(busy, made),
        Caller::Named(_) => unless_busy(busy, made),
    }
}

/// What is done for a caller who may have a connection.
fn unless_busy(busy: bool, made: Outcome) -> Outcome
    ensures { result ≡ (if busy then Refusal 503 else made) }
{
    if busy {
        return Outcome::Refusal(503);
    }
    made
}

/// A WebSocket that names a token of this life; `resumable`: its connection's end may be resumed.
fn of_socket(life: Life, resumable: bool) -> Outcome
    ensures { result ≡ table.socket_outcome life resumable }
{
    match life {
        Life::Unknown => Outcome::Refusal(404),
        Life::Fresh => Outcome::TokenSocket,
        Life::Socket { lane: _ } => {
            if resumable {
                Outcome::TokenSocket
            } else {
                Outcome::Refusal(409)
            }
        }
        Life::Lost => Outcome::TokenSocket,
        Life::Polling => Outcome::Refusal(409),
        Life::Ending => Outcome::Refusal(404),
    }
}

/// A poll that names a token of this life.
fn of_poll(life: Life) -> Outcome
    ensures { result ≡ table.poll_outcome life }
{
    match life {
        Life::Unknown => Outcome::Refusal(404),
        Life::Fresh => Outcome::FirstPoll,
        Life::Socket { lane: _ } => Outcome::Refusal(409),
        Life::Lost => Outcome::Refusal(409),
        Life::Polling => Outcome::NextPoll,
        Life::Ending => Outcome::LastPoll,
    }
}

/// Bytes for a token of this life.
fn of_post(life: Life) -> Outcome
    ensures { result ≡ table.post_outcome life }
{
    match life {
        Life::Unknown => Outcome::Refusal(404),
        Life::Fresh => Outcome::Refusal(409),
        Life::Socket { lane: _ } => Outcome::Refusal(409),
        Life::Lost => Outcome::Refusal(409),
        Life::Polling => Outcome::Posting,
        Life::Ending => Outcome::Refusal(404),
    }
}

/// The deletion of a token of this life.
fn of_delete(life: Life) -> Outcome
    ensures { result ≡ table.delete_outcome life }
{
    match life {
        Life::Unknown => Outcome::Refusal(404),
        Life::Fresh => Outcome::Deletion,
        Life::Socket { lane: _ } => Outcome::Refusal(409),
        Life::Lost => Outcome::Refusal(409),
        Life::Polling => Outcome::Deletion,
        Life::Ending => Outcome::Deletion,
    }
}
