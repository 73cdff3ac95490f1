//! The lines of a script, and the room of which they speak.

use crate::notices::notice;
use crate::room::Room;
use crate::rooms::Rooms;
use crate::sending::send;
use crate::words::{codec, conns};
use ht_kit::{Play, Stop, first_word, number};
use std::alloc::{AllocError, Global};

/// A room, and a machine.
#[derive(Drop)]
pub struct Bench {
    alloc: Global,
    room: Room,
    rooms: Rooms,
}

impl Bench {
    /// A room without members, and a machine without connections.
    pub fn start(alloc: Global) -> Result<Bench, AllocError> {
        Ok(Bench {
            alloc,
            room: Room::start(alloc),
            rooms: Rooms::start(alloc, 1, Vec::new(alloc))?,
        })
    }

    fn start_anew(&mut self) -> Result<String, Stop> {
        self.room = Room::start(self.alloc);
        Ok(String::from_str(self.alloc, "a room")?)
    }

    fn enter(&mut self, words: &str) -> Result<String, Stop> {
        let (conn, rest) = first_word(words);
        let (name, room) = first_word(rest);
        let conn = number(conn)?;
        let codec = codec(name)?;
        self.room.enter(self.alloc, conn, codec, number(room)?)?;
        Ok(String::from_str(self.alloc, "a member")?)
    }

    fn spread(&mut self, words: &str) -> Result<String, Stop> {
        let (list, rest) = first_word(words);
        let (target, texts) = first_word(rest);
        let to = conns(self.alloc, list)?;
        let message = notice(self.alloc, target, texts)?;
        let most = send(self.alloc, &mut self.room, &to, &message)?;
        Ok(format!(in self.alloc; "steps {most}")?)
    }

    fn got(&self, words: &str) -> Result<String, Stop> {
        let conn = number(words)?;
        Ok(self.room.told(self.alloc, conn)?)
    }
}

impl Play for Bench {
    fn carry_out(&mut self, line: &str) -> Result<String, Stop> {
        let (word, rest) = first_word(line);
        match word {
            "room" => self.start_anew(),
            "member" => self.enter(rest),
            "spread" => self.spread(rest),
            "got" => self.got(rest),
            verb => self.rooms.act(verb, rest),
        }
    }
}
