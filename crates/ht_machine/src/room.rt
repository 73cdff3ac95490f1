//! Connections in memory.

ghost use Rattle.std.specs.Prelude.{◌≡◌, refl};
ghost use Rattle.std.specs.Result.{result_err};
ghost use Rattle.ht_machine.specs.Deals.{Delivers, Changes, codec_at, kept_in, taken, slowed};

use he_end::{SendError, Spelled};
use hm_message::{Codec, Message};
use ht_kit::Stop;
use hub_machine::Members;
use indexmap::IndexMap;
use std::alloc::{AllocError, Global};

/// A connection that keeps all that it is sent.
#[derive(Drop)]
pub struct Member {
    codec: Option<Codec>,
    /// How many more messages it has room for.
    room: u64,
    bytes: Vec<u8>,
}

/// Connections by their numbers.
#[derive(Drop)]
pub struct Room {
    members: IndexMap<u64, Member>,
}

impl Member {
    /// Takes the bytes of a frame, if there is room for one more. If not, it is as it was.
    fn take(&mut self, frame: &[u8]) -> Result<(), SendError>
        ensures { kept_in self.new ≡ taken (result_err result) (kept_in self.old) }
    {
        if self.room == 0 {
            return Err(SendError::Full {
                held: 0,
                bytes: self.bytes.len(),
                size: frame.len(),
            });
        }
        self.bytes.extend_from_slice(frame)?;
        self.room -= 1;
        Ok(())
    }

    /// What it is, and what it got.
    fn told(&self, alloc: Global) -> Result<String, AllocError> {
        let bytes = hex::encode(alloc, self.bytes.as_slice())?;
        let room = self.room;
        match self.codec {
            Some(codec) => format!(in alloc; "{codec:?} room {room} bytes {bytes}"),
            None => format!(in alloc; "none room {room} bytes {bytes}"),
        }
    }
}

impl Room {
    /// No connections.
    pub fn start(alloc: Global) -> Room {
        Room {
            members: IndexMap::new(alloc),
        }
    }

    /// A connection of this number, which is new.
    pub fn enter(
        &mut self,
        alloc: Global,
        conn: u64,
        codec: Option<Codec>,
        room: u64,
    ) -> Result<(), Stop> {
        if self.members.contains_key(&conn) {
            return Err(Stop::Refused);
        }
        let member = Member {
            codec,
            room,
            bytes: Vec::new(alloc),
        };
        let _ = self.members.insert(conn, member)?;
        Ok(())
    }

    /// What a connection is, and what it got.
    pub fn told(&self, alloc: Global, conn: u64) -> Result<String, AllocError> {
        match self.members.get(&conn) {
            Some(member) => member.told(alloc),
            None => format!(in alloc; "no member"),
        }
    }

    /// A connection takes the bytes of a frame, if it is there and has room.
    fn give(&mut self, conn: u64, frame: &[u8]) -> Result<(), SendError>
        ensures { Changes self.old self.new conn (taken (result_err result)) }
    {
        match self.members.get_mut(&conn) {
            Some(member) => member.take(frame),
            None => Err(SendError::Closed),
        }
    }

    /// A connection isn't spoken to any more.
    fn close(&mut self, conn: u64)
        ensures { Changes self.old self.new conn slowed }
    {
        if let Some(member) = self.members.get_mut(&conn) {
            member.codec = None;
        }
    }
}

impl Members for Room {
    ghost Delivers = { Delivers };

    ghost starts = { λ s k. refl };

    ghost codec_of = { codec_at };

    fn codec(&self, conn: u64) -> Option<Codec> {
        match self.members.get(&conn) {
            Some(member) => member.codec,
            None => None,
        }
    }

    fn send_spelled(
        &mut self,
        conn: u64,
        message: &Message,
        spelled: &Spelled,
    ) -> Result<(), SendError> {
        self.give(conn, spelled.frame().bytes())
    }

    fn slow(&mut self, conn: u64) {
        self.close(conn)
    }
}
