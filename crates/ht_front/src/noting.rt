//! What is noted of a front's connections.

use hn_server_front::Front;
use ht_kit::{Stop, first_word, number};

/// Notes what the word says of the connection that the words name.
pub fn note(front: &mut Front, what: &str, words: &str) -> Result<(), Stop> {
    let (conn, rest) = first_word(words);
    let conn = number(conn)?;
    match what {
        "closed" => front.closed(conn),
        "ending" => front.ending(conn, number(rest)?),
        _ => return note_lane(front, what, conn, rest),
    }
    Ok(())
}

/// The same of what has a lane and a moment.
fn note_lane(front: &mut Front, what: &str, conn: u64, words: &str) -> Result<(), Stop> {
    let (lane, now) = first_word(words);
    let lane = number(lane)?;
    let now = number(now)?;
    match what {
        "socket" => front.socket(conn, lane, now),
        "poll" => front.poll(conn, lane, now),
        "answered" => front.answered(conn, lane, now),
        "lost" => front.lost(conn, lane, now),
        _ => return Err(Stop::Refused),
    }
    Ok(())
}
