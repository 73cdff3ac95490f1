//! The lines of a script, and the lane that they speak to.

use ht_kit::{Play, Stop, first_word};
use hw_socket::{Ending, SocketLane, SocketRead, SocketSide};
use std::alloc::{AllocError, Global};

/// How many bytes of a long answer are shown.
const SHOWN: usize = 24;

/// The lane that was started last.
#[derive(Drop)]
pub struct Bench {
    alloc: Global,
    lane: SocketLane,
}

impl Bench {
    /// A server's lane.
    pub fn start(alloc: Global) -> Bench {
        Bench {
            alloc,
            lane: SocketLane::start(alloc, SocketSide::Server),
        }
    }
}

impl Play for Bench {
    fn carry_out(&mut self, line: &str) -> Result<String, Stop> {
        let (order, word) = first_word(line);
        if let Some(side) = side_of(order, word) {
            self.lane = SocketLane::start(self.alloc, side);
        }
        Ok(answer(self.alloc, &mut self.lane, order, word)?)
    }
}

/// The bytes that a word of hex digits stands for, and none if it is no such word.
fn bytes_of(alloc: Global, word: &str) -> Vec<u8> {
    match hex::decode(alloc, word) {
        Ok(bytes) => bytes,
        Err(_) => Vec::new(alloc),
    }
}

/// As many bytes 0 as the word says.
fn zeros(alloc: Global, word: &str) -> Result<Vec<u8>, AllocError> {
    let count = word.parse::<usize>().unwrap_or(0);
    let mut bytes = Vec::new(alloc);
    bytes.resize(count, 0)?;
    Ok(bytes)
}

/// How many bytes there are, and the first of them.
fn shown(alloc: Global, name: &str, bytes: &[u8]) -> Result<String, AllocError> {
    let some = &bytes[..bytes.len().min(SHOWN)];
    let digits = hex::encode(alloc, some)?;
    format!(in alloc; "{name} {} {digits}", bytes.len())
}

fn name_of(ending: Option<Ending>) -> &'static str {
    match ending {
        None => "open",
        Some(Ending::Shut) => "shut",
        Some(Ending::Answered) => "answered",
        Some(Ending::TooLong) => "too long",
        Some(Ending::NotText) => "not text",
        Some(Ending::Breach) => "breach",
        Some(Ending::BadText) => "bad text",
        Some(Ending::NoMemory) => "no memory",
    }
}

fn read(alloc: Global, lane: &mut SocketLane) -> Result<String, AllocError> {
    match lane.read()? {
        SocketRead::Payload(payload) => shown(alloc, "payload", payload.bytes()),
        SocketRead::NotYet => format!(in alloc; "not yet"),
        SocketRead::Gone => format!(in alloc; "gone: {}", name_of(lane.ending())),
    }
}

fn send(
    alloc: Global,
    lane: &mut SocketLane,
    bytes: &[u8],
    text: bool,
) -> Result<String, AllocError> {
    if lane.send(bytes, text)? {
        format!(in alloc; "sent")
    } else {
        format!(in alloc; "not sent: {}", name_of(lane.ending()))
    }
}

/// What is to be written, which is dropped then.
fn written(alloc: Global, lane: &mut SocketLane) -> Result<String, AllocError> {
    let text = shown(alloc, "out", lane.out())?;
    let count = lane.out().len();
    lane.drop_out(count);
    Ok(text)
}

/// What the lane answers to one line.
fn answer(
    alloc: Global,
    lane: &mut SocketLane,
    order: &str,
    word: &str,
) -> Result<String, AllocError> {
    match order {
        "feed" => {
            lane.feed(bytes_of(alloc, word).as_slice())?;
            read(alloc, lane)
        }
        "fill" => {
            lane.feed(zeros(alloc, word)?.as_slice())?;
            read(alloc, lane)
        }
        "read" => read(alloc, lane),
        "text" => send(alloc, lane, bytes_of(alloc, word).as_slice(), true),
        "binary" => send(alloc, lane, bytes_of(alloc, word).as_slice(), false),
        "zeros" => send(alloc, lane, zeros(alloc, word)?.as_slice(), false),
        "out" => written(alloc, lane),
        "shut" => {
            lane.shut()?;
            written(alloc, lane)
        }
        _ => format!(in alloc; "{order} {word}"),
    }
}

/// The side that a lane is started on by this line, if it starts one.
fn side_of(order: &str, word: &str) -> Option<SocketSide> {
    match order {
        "server" => Some(SocketSide::Server),
        "client" => match <[u8; 16] as hex::FromHex>::from_hex(word) {
            Ok(seed) => Some(SocketSide::Client { seed }),
            Err(_) => None,
        },
        _ => None,
    }
}
