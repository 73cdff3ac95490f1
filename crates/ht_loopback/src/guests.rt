//! The lanes of the door: it does what the target of a request says, and echoes messages.
//!
//! A target is `/yes/NUMBER`, `/no/NUMBER` or `/talk/NUMBER/ECHOES`: the conversation with this number is answered with 200, declined with 404,
//! or becomes a WebSocket, which the door ends after so many echoes, or never if these are 0.

ghost use Rattle.hw_lanes.specs.Replies.{IsReply};

use crate::plan::is_message;
use crate::sockets::stop_of;
use ht_kit::{Stop, as_text, number};
use hw_door::{Door, Event};
use hw_lanes::{BodyKind, Reply, Request, Text8, Vec8};
use std::alloc::Global;

/// A WebSocket of the door.
#[derive(Clone, Copy)]
struct Guest {
    lane: u64,
    number: u64,
    /// How many messages came.
    heard: u64,
    /// After how many the door ends it.
    most: u64,
}

/// The WebSockets of a door.
#[derive(Drop)]
pub struct Guests {
    alloc: Global,
    items: Vec<Guest>,
    /// How often something was heard that isn't next on its lane.
    pub wrong: u64,
}

fn switching(alloc: Global, accept: Text8) -> Reply
    ensures { IsReply result }
{
    Reply {
        status: 101,
        kind: BodyKind::None,
        body: Vec8::from_vec(Vec::new(alloc)),
        accept: Some(accept),
        field: None,
        close: false,
    }
}

fn found(body: Vec8) -> Reply
    ensures { IsReply result }
{
    Reply {
        status: 200,
        kind: BodyKind::Octets,
        body,
        accept: None,
        field: None,
        close: false,
    }
}

fn declined(alloc: Global) -> Reply
    ensures { IsReply result }
{
    Reply {
        status: 404,
        kind: BodyKind::None,
        body: Vec8::from_vec(Vec::new(alloc)),
        accept: None,
        field: None,
        close: false,
    }
}

/// The number of a conversation, and after how many echoes it ends, if the path has two more parts.
fn talk_of(path: &str) -> Result<(u64, u64), Stop> {
    let Some((front, echoes)) = path.rsplit_once('/') else {
        return Err(Stop::Refused);
    };
    let Some(("/talk", word)) = front.rsplit_once('/') else {
        return Err(Stop::Refused);
    };
    Ok((number(word)?, number(echoes)?))
}

impl Guests {
    pub fn start(alloc: Global) -> Guests {
        Guests {
            alloc,
            items: Vec::new(alloc),
            wrong: 0,
        }
    }

    /// What the door does at an event. False if nothing was heard.
    pub fn hear<D: Door>(&mut self, door: &mut D, event: &Event) -> Result<bool, Stop> {
        match event {
            Event::Request { lane, request } => self.answer(door, *lane, request)?,
            Event::Bytes { lane, bytes } => self.echo(door, *lane, bytes.bytes())?,
            Event::Lost { lane } => self.forget(*lane),
            Event::Drained { .. } => {}
            Event::Quiet => return Ok(false),
            _ => self.note_wrong(),
        }
        Ok(true)
    }

    fn note_wrong(&mut self) {
        self.wrong = self.wrong.saturating_add(1);
    }

    fn answer<D: Door>(&mut self, door: &mut D, lane: u64, request: &Request) -> Result<(), Stop> {
        let path = as_text(request.path.bytes());
        if path.starts_with("/talk/") {
            let (number, most) = talk_of(path)?;
            let Some(accept) = &request.upgrade else {
                return Err(Stop::Refused);
            };
            let accept = accept.copy()?;
            self.items.push(Guest {
                lane,
                number,
                heard: 0,
                most,
            })?;
            return door
                .reply(lane, switching(self.alloc, accept))
                .map_err(stop_of);
        }
        if path.starts_with("/no/") {
            return door.reply(lane, declined(self.alloc)).map_err(stop_of);
        }
        let body = Vec8::of(self.alloc, path.as_bytes())?;
        door.reply(lane, found(body)).map_err(stop_of)
    }

    /// Echoes a message, and ends the lane if it was the last.
    fn echo<D: Door>(&mut self, door: &mut D, lane: u64, bytes: &[u8]) -> Result<(), Stop> {
        let Some(guest) = self.items.iter_mut().find(|guest| guest.lane == lane) else {
            self.note_wrong();
            return Ok(());
        };
        let is_next = is_message(bytes, guest.number, guest.heard);
        guest.heard = guest.heard.saturating_add(1);
        let is_last = guest.heard == guest.most;
        if !is_next {
            self.note_wrong();
        }
        door.send(lane, bytes, false).map_err(stop_of)?;
        if is_last {
            door.shut(lane).map_err(stop_of)?;
            self.forget(lane);
        }
        Ok(())
    }

    fn forget(&mut self, lane: u64) {
        self.items.retain(|guest| guest.lane != lane);
    }
}
