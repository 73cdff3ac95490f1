//! What doors and dialers in memory are asked, and what they answer.

ghost use Rattle.std.specs.Prelude.{IfOk};
ghost use Rattle.hw_lanes.specs.Replies.{IsReply};

use ht_forms::{method, never_falls, refusal_of, refusal_told};
use ht_kit::{Stop, as_text, first_word, number, numbers};
use hw_door::{Dialer, Door, DoorError, Event, Given, Heard, MemoryDialer, MemoryDoor, Upgrade};
use hw_lanes::{BodyKind, Reply, Vec8};
use std::alloc::{AllocError, Global};

/// How long a call of `next` may wait, which no form in memory does.
const WAIT: u64 = 50;

/// What is heard at a moment, as words say it.
pub fn heard_of(alloc: Global, words: &str) -> Result<Heard, Stop> {
    let (moment, rest) = first_word(words);
    let (kind, rest) = first_word(rest);
    let (lane, rest) = first_word(rest);
    let now = number(moment)?;
    let lane = number(lane)?;
    let event = event_of(alloc, kind, lane, rest)?;
    Ok(Heard { now, event })
}

fn event_of(alloc: Global, kind: &str, lane: u64, rest: &str) -> Result<Event, Stop> {
    match kind {
        "bytes" => {
            let bytes = Vec8::of(alloc, rest.as_bytes())?;
            Ok(Event::Bytes { lane, bytes })
        }
        "response" => {
            let status = rest.parse::<u16>().ok().ok_or(Stop::Refused)?;
            let body = Vec8::of(alloc, b"{}")?;
            Ok(Event::Response { lane, status, body })
        }
        "refused" => {
            let refusal = refusal_of(rest)?;
            Ok(Event::Refused { lane, refusal })
        }
        "lost" => Ok(Event::Lost { lane }),
        "drained" => Ok(Event::Drained { lane }),
        _ => Err(Stop::Refused),
    }
}

/// A door at which this is heard, that fails at the calls and is full after the messages that the words number.
pub fn start_door(alloc: Global, heard: Vec<Heard>, words: &str) -> Result<MemoryDoor, Stop> {
    let (failing, filling) = first_word(words);
    let failing = numbers(alloc, failing)?;
    let filling = numbers(alloc, filling)?;
    if !never_falls(&heard) {
        return Err(Stop::Refused);
    }
    Ok(MemoryDoor::start(heard, failing, filling))
}

/// The same of a dialer.
pub fn start_dialer(alloc: Global, heard: Vec<Heard>, words: &str) -> Result<MemoryDialer, Stop> {
    let (failing, filling) = first_word(words);
    let failing = numbers(alloc, failing)?;
    let filling = numbers(alloc, filling)?;
    if !never_falls(&heard) {
        return Err(Stop::Refused);
    }
    Ok(MemoryDialer::start(heard, failing, filling))
}

/// What the door answers to the words.
pub fn ask_door(alloc: Global, door: &mut MemoryDoor, words: &str) -> Result<String, Stop> {
    let (word, rest) = first_word(words);
    match word {
        "next" => told(alloc, door.next(WAIT)),
        "given" => all_given(alloc, door.given()),
        "reply" => {
            let (lane, reply) = (number(rest)?, accepted(alloc)?);
            done(alloc, door.reply(lane, reply))
        }
        "send" => {
            let sent = sent_of(rest)?;
            sent_told(alloc, door.send(sent.lane, sent.bytes, sent.is_text))
        }
        "shut" => {
            let lane = number(rest)?;
            done(alloc, door.shut(lane))
        }
        _ => Err(Stop::Refused),
    }
}

/// What the dialer answers to the words.
pub fn ask_dialer(alloc: Global, dialer: &mut MemoryDialer, words: &str) -> Result<String, Stop> {
    let (word, rest) = first_word(words);
    match word {
        "next" => told(alloc, dialer.next(WAIT)),
        "given" => all_given(alloc, dialer.given()),
        "ask" => ask(alloc, dialer, rest, None),
        "upgrade" => ask(alloc, dialer, rest, Some(upgrade())),
        "send" => {
            let sent = sent_of(rest)?;
            sent_told(alloc, dialer.send(sent.lane, sent.bytes, sent.is_text))
        }
        "shut" => {
            let lane = number(rest)?;
            done(alloc, dialer.shut(lane))
        }
        _ => Err(Stop::Refused),
    }
}

fn done(alloc: Global, answer: Result<(), DoorError>) -> Result<String, Stop> {
    match answer {
        Ok(()) => ht_kit::told(alloc, "done"),
        Err(error) => failed(alloc, error),
    }
}

/// Whether the lane is full after a message.
fn sent_told(alloc: Global, answer: Result<bool, DoorError>) -> Result<String, Stop> {
    match answer {
        Ok(true) => ht_kit::told(alloc, "sent, full"),
        Ok(false) => ht_kit::told(alloc, "sent"),
        Err(error) => failed(alloc, error),
    }
}

/// Why a call failed.
fn failed(alloc: Global, error: DoorError) -> Result<String, Stop> {
    match error {
        DoorError::Failed => Ok(format!(in alloc; "{error}")?),
        DoorError::NoMemory => Err(Stop::NoMemory),
    }
}

fn ask(
    alloc: Global,
    dialer: &mut MemoryDialer,
    words: &str,
    upgrade: Option<Upgrade>,
) -> Result<String, Stop> {
    let (place, words) = first_word(words);
    let place = number(place)?;
    let (word, target) = first_word(words);
    let Some(method) = method(word) else {
        return Err(Stop::Refused);
    };
    match dialer.ask(place, method, target, upgrade) {
        Ok(lane) => Ok(format!(in alloc; "lane {lane}")?),
        Err(error) => failed(alloc, error),
    }
}

fn upgrade() -> Upgrade {
    Upgrade {
        key: [7; 16],
        seed: [9; 16],
    }
}

/// A message to send.
#[derive(Clone, Copy)]
struct Sent<'a> {
    lane: u64,
    is_text: bool,
    bytes: &'a [u8],
}

fn sent_of(words: &str) -> Result<Sent<'_>, Stop> {
    let (lane, rest) = first_word(words);
    let (kind, text) = first_word(rest);
    Ok(Sent {
        lane: number(lane)?,
        is_text: kind == "text",
        bytes: text.as_bytes(),
    })
}

/// The reply that a request was accepted.
fn accepted(alloc: Global) -> Result<Reply, Stop>
    ensures { IfOk result (λ reply. IsReply reply) }
{
    Ok(Reply {
        status: 202,
        kind: BodyKind::None,
        body: Vec8::from_vec(Vec::new(alloc)),
        accept: None,
        field: None,
        close: false,
    })
}

/// What was heard.
fn told(alloc: Global, heard: Result<Heard, DoorError>) -> Result<String, Stop> {
    match heard {
        Ok(Heard { now, event }) => {
            let event = event_told(alloc, &event)?;
            Ok(format!(in alloc; "{now} {event}")?)
        }
        Err(error) => failed(alloc, error),
    }
}

fn event_told(alloc: Global, event: &Event) -> Result<String, AllocError> {
    match event {
        Event::Bytes { lane, bytes } => {
            let text = as_text(bytes.bytes());
            format!(in alloc; "bytes {lane} {text}")
        }
        Event::Response { lane, status, .. } => format!(in alloc; "response {lane} {status}"),
        Event::Lost { lane } => format!(in alloc; "lost {lane}"),
        Event::Drained { lane } => format!(in alloc; "drained {lane}"),
        Event::Quiet => String::from_str(alloc, "quiet"),
        Event::Request { lane, .. } => format!(in alloc; "request {lane}"),
        Event::Refused { lane, refusal } => {
            let refusal = refusal_told(alloc, *refusal)?;
            format!(in alloc; "refused {lane} {refusal}")
        }
        Event::Upgraded { lane } => format!(in alloc; "upgraded {lane}"),
    }
}

/// What was given to be said, with a bar between two.
fn all_given(alloc: Global, given: &[Given]) -> Result<String, Stop> {
    let mut text = String::from_str(alloc, "given")?;
    for one in given.iter() {
        let one = given_told(alloc, one)?;
        write!(text, " | {one}")?;
    }
    Ok(text)
}

fn given_told(alloc: Global, given: &Given) -> Result<String, AllocError> {
    match given {
        Given::Reply { lane, reply } => {
            let status = reply.status;
            format!(in alloc; "reply {lane} {status}")
        }
        Given::Bytes { lane, bytes, text } => {
            let kind = if *text { "text" } else { "octets" };
            let words = as_text(bytes.bytes());
            format!(in alloc; "bytes {lane} {kind} {words}")
        }
        Given::Shut { lane } => format!(in alloc; "shut {lane}"),
        Given::Ask {
            lane,
            place,
            target,
            upgrade,
            ..
        } => {
            let kind = if upgrade.is_some() { "upgrade" } else { "ask" };
            let target = as_text(target.bytes());
            format!(in alloc; "{kind} {lane} {place} {target}")
        }
    }
}
