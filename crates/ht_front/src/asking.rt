//! What a front answers.

use crate::words::{drawn, method, token, yes_or_no};
use hd_server::Life;
use hn_server_front::{Front, FrontError, Held, Made, Opened, Route};
use ht_kit::{Stop, as_text, first_word, number};
use hw_lanes::{Request, Text8, Vec8};
use std::alloc::Global;

/// The base of the server's paths.
const BASE: &[u8] = b"/hub";

/// Where the request of these words leads.
pub fn route(alloc: Global, front: &Front, words: &str) -> Result<String, Stop> {
    let request = request_of(alloc, words)?;
    match front.route(alloc, BASE, &request)? {
        Route::Refuse(status) => Ok(format!(in alloc; "refuse {status}")?),
        Route::Negotiate { asked: true } => Ok(format!(in alloc; "negotiate, to be resumed")?),
        Route::Negotiate { asked: false } => Ok(format!(in alloc; "negotiate")?),
        Route::Open => Ok(format!(in alloc; "open")?),
        Route::Socket { token } => Ok(format!(in alloc; "socket {}", as_text(token.bytes()))?),
        Route::Poll { token } => Ok(format!(in alloc; "poll {}", as_text(token.bytes()))?),
        Route::Post { token } => Ok(format!(in alloc; "post {}", as_text(token.bytes()))?),
        Route::Delete { token } => Ok(format!(in alloc; "delete {}", as_text(token.bytes()))?),
    }
}

fn request_of(alloc: Global, words: &str) -> Result<Request, Stop> {
    let (by, rest) = first_word(words);
    let (path, rest) = first_word(rest);
    let (query, kind) = first_word(rest);
    let query = if query == "-" { "" } else { query };
    let upgrade = match kind {
        "socket" => Some(Text8::of(alloc, b"accepted")?),
        "plain" => None,
        _ => return Err(Stop::Refused),
    };
    Ok(Request {
        method: method(by)?,
        path: Text8::of(alloc, path.as_bytes())?,
        query: Text8::of(alloc, query.as_bytes())?,
        bearer: None,
        upgrade,
        shut: false,
        body: Vec8::from_vec(Vec::new(alloc)),
    })
}

/// A connection with a token, which may go over all transports or over sockets alone.
pub fn negotiate(alloc: Global, front: &mut Front, all: bool, words: &str) -> Result<String, Stop> {
    let (asked, rest) = first_word(words);
    let (bytes, now) = first_word(rest);
    let asked = yes_or_no(asked)?;
    let bytes = drawn(bytes)?;
    let now = number(now)?;
    let made = if all {
        front.negotiate(alloc, asked, bytes, now)
    } else {
        front.negotiate_sockets(alloc, asked, bytes, now)
    };
    let Made { conn, body, gone } = made.map_err(stop_of)?;
    match gone {
        Some(gone) => {
            Ok(format!(in alloc; "made {conn} in place of {gone} {}", as_text(body.bytes()))?)
        }
        None => Ok(format!(in alloc; "made {conn} {}", as_text(body.bytes()))?),
    }
}

/// A connection without a token.
pub fn open(alloc: Global, front: &mut Front, words: &str) -> Result<String, Stop> {
    let Opened { conn, gone } = front.open(number(words)?).map_err(stop_of)?;
    match gone {
        Some(gone) => Ok(format!(in alloc; "made {conn} in place of {gone}")?),
        None => Ok(format!(in alloc; "made {conn}")?),
    }
}

fn stop_of(error: FrontError) -> Stop {
    match error {
        FrontError::Busy => Stop::Busy,
        FrontError::NoMemory => Stop::NoMemory,
    }
}

/// So many connections without a token, or as many as can be made: the number of the last, and how many. `used`: each stands on a socket.
pub fn open_many(
    alloc: Global,
    front: &mut Front,
    used: bool,
    words: &str,
) -> Result<String, Stop> {
    let (count, now) = first_word(words);
    let count = number(count)?;
    let now = number(now)?;
    let mut last = 0;
    for opened in 0..count {
        match front.open(now) {
            Ok(made) => {
                last = made.conn;
                if used {
                    front.socket(last, 0, now);
                }
            }
            Err(FrontError::Busy) => {
                return Ok(format!(in alloc; "opened {opened}, the last {last}, then busy")?);
            }
            Err(FrontError::NoMemory) => return Err(Stop::NoMemory),
        }
    }
    Ok(format!(in alloc; "opened {count}, the last {last}")?)
}

/// The life of a token.
pub fn life(alloc: Global, front: &Front, words: &str) -> Result<String, Stop> {
    let (name, now) = first_word(words);
    let token = token(alloc, name)?;
    told(alloc, front.life(&token, number(now)?))
}

/// The life of a connection.
pub fn life_at(alloc: Global, front: &Front, words: &str) -> Result<String, Stop> {
    let (conn, now) = first_word(words);
    told(alloc, front.life_at(number(conn)?, number(now)?))
}

fn told(alloc: Global, life: Life) -> Result<String, Stop> {
    match life {
        Life::Unknown => Ok(format!(in alloc; "unknown")?),
        Life::Fresh => Ok(format!(in alloc; "fresh")?),
        Life::Socket { lane } => Ok(format!(in alloc; "socket {lane}")?),
        Life::Lost => Ok(format!(in alloc; "lost")?),
        Life::Polling => Ok(format!(in alloc; "polling")?),
        Life::Ending => Ok(format!(in alloc; "ending")?),
    }
}

/// The poll that a connection holds.
pub fn held(alloc: Global, front: &Front, words: &str) -> Result<String, Stop> {
    match front.held(number(words)?) {
        Some(Held { lane, since }) => Ok(format!(in alloc; "held {lane} since {since}")?),
        None => Ok(format!(in alloc; "none")?),
    }
}

/// The connection of a token.
pub fn conn(alloc: Global, front: &Front, words: &str) -> Result<String, Stop> {
    let (name, now) = first_word(words);
    let token = token(alloc, name)?;
    match front.conn_of(&token, number(now)?) {
        Some(conn) => Ok(format!(in alloc; "conn {conn}")?),
        None => Ok(format!(in alloc; "none")?),
    }
}

/// Those that are handed out at a moment, so many at most.
pub fn expired(alloc: Global, front: &mut Front, words: &str) -> Result<String, Stop> {
    let now = number(words)?;
    let mut text = String::from_str(alloc, "expired")?;
    for _taken in 0..MOST_EXPIRED {
        let Some(conn) = front.expired(now) else {
            return Ok(text);
        };
        write!(text, " {conn}")?;
    }
    Ok(text)
}

/// More than any script has.
const MOST_EXPIRED: u32 = 100;
