//! What a slot of the table is, and the calls on the socket there.

ghost use Rattle.std.specs.Prelude.{◌≤◌, length, IfOk};
ghost use Rattle.hw_door.specs.Traffic.{CountsWithin};

use crate::limits::{MOST_DROPPED, MOST_UNMADE, PIECE};
use crate::refusal::{was_interrupted, would_wait};
use hw_door::WireRead;
use mio::event::Event;
use mio::net::TcpStream;
use std::io;
use std::io::{Read, Write};
use std::net::Shutdown;

/// A wire that is up.
#[derive(Drop)]
pub struct Live {
    number: u64,
    stream: TcpStream,
    // A read may give something: from an event until a read that would wait, or gave less than there was room for.
    is_readable: bool,
    // A write may take something: from an event until a write that would wait.
    is_writable: bool,
    // How many writes in a row weren't made, as they would have waited.
    unmade: u32,
    // An event told that the wire is over, so a read may meet its end.
    is_closing: bool,
    // The peer's end was read.
    has_ended: bool,
    // Its connection was begun here, and no call on the socket has shown yet whether it was made.
    is_connecting: bool,
}

impl Live {
    /// A wire, of which each call may do something at once if it `is_ready`. Else its connection was only begun, and an event comes before.
    pub fn start(number: u64, stream: TcpStream, is_ready: bool) -> Live {
        Live {
            number,
            stream,
            is_readable: is_ready,
            is_writable: is_ready,
            unmade: 0,
            is_closing: false,
            has_ended: false,
            is_connecting: !is_ready,
        }
    }

    /// Marks what the event tells of. An end or an error is both, so that the next call of either kind meets it.
    fn mark_ready(&mut self, event: &Event) {
        let is_over = event.is_error() || event.is_read_closed() || event.is_write_closed();
        if is_over {
            self.is_closing = true;
        }
        if event.is_readable() || is_over {
            self.is_readable = true;
        }
        if event.is_writable() || is_over {
            self.is_writable = true;
        }
    }

    /// Reads from the socket, if that may give something.
    fn read_socket(&mut self, buf: &mut [u8]) -> io::Result<WireRead>
        ensures { IfOk result (λ read. CountsWithin read (length buf.new)) }
    {
        if !self.is_readable || buf.is_empty() {
            return Ok(WireRead::NotYet);
        }
        match self.stream.read(buf) {
            Ok(0) => {
                self.has_ended = true;
                Ok(WireRead::Ended)
            }
            Ok(count) => {
                // Less than there was room for is all that came, and an event tells of more. An end makes no further event.
                if count < buf.len() && !self.is_closing {
                    self.is_readable = false;
                }
                Ok(WireRead::Some(count))
            }
            Err(error) if would_wait(&error) => {
                self.is_readable = false;
                Ok(WireRead::NotYet)
            }
            Err(error) if was_interrupted(&error) => Ok(WireRead::NotYet),
            Err(error) => Err(error),
        }
    }

    /// Writes to the socket, if that may take something.
    fn write_socket(&mut self, bytes: &[u8]) -> io::Result<usize>
        ensures { IfOk result (λ count. count ≤ length bytes.now) }
    {
        // The system tells of room only once much of it is free, which on a slow line may take minutes.
        if !self.is_writable && self.unmade < MOST_UNMADE {
            self.unmade = self.unmade.saturating_add(1);
            return Ok(0);
        }
        self.unmade = 0;
        match self.stream.write(bytes) {
            Ok(count) => Ok(count),
            Err(error) if would_wait(&error) => {
                self.is_writable = false;
                Ok(0)
            }
            Err(error) if was_interrupted(&error) => Ok(0),
            Err(error) => Err(error),
        }
    }

    /// Ends what is written. The answer is what is left to be read and dropped, if the peer may still send.
    fn end_writes(self) -> Option<Ending> {
        if self.has_ended || self.stream.shutdown(Shutdown::Write).is_err() {
            return None;
        }
        let mut ending = Ending {
            number: self.number,
            stream: self.stream,
            left: MOST_DROPPED,
        };
        if ending.drain() { None } else { Some(ending) }
    }
}

/// A wire that was shut, and whose peer may still send. If its socket were closed before what comes is read, the system would reset the
/// connection, and the peer might lose what was written before.
#[derive(Drop)]
pub struct Ending {
    number: u64,
    stream: TcpStream,
    // How many bytes may still be dropped.
    left: usize,
}

impl Ending {
    /// Reads what has come, and drops it. The answer is whether it is over: the peer ended, the wire failed, or too much came.
    fn drain(&mut self) -> bool {
        let mut buf = [0; PIECE];
        while self.left > 0 {
            match self.stream.read(&mut buf) {
                Ok(count) if count > 0 => self.left = self.left.saturating_sub(count),
                Ok(_) => return true,
                Err(error) => return !would_wait(&error) && !was_interrupted(&error),
            }
        }
        true
    }
}

/// What a slot of the table is.
#[derive(Drop)]
pub enum Slot {
    /// No wire has it. The free slots are a list, and this is the next of them.
    Free(Option<usize>),
    Live(Live),
    Ending(Ending),
}

fn absent() -> io::Error {
    io::Error::from(io::ErrorKind::NotConnected)
}

impl Slot {
    /// Marks what an event tells of the socket here, or drops what came if its wire was shut. The answer is whether the wire is over and
    /// the socket is to be closed.
    pub fn apply_event(&mut self, event: &Event) -> bool {
        match self {
            Slot::Free(_) => false,
            Slot::Live(live) => {
                live.mark_ready(event);
                false
            }
            Slot::Ending(ending) => ending.drain(),
        }
    }

    /// Reads on the wire of this number. It fails if that isn't here.
    pub fn read_numbered(&mut self, wire: u64, buf: &mut [u8]) -> io::Result<WireRead>
        ensures { IfOk result (λ read. CountsWithin read (length buf.new)) }
    {
        match self {
            Slot::Live(live) if live.number == wire => {
                let read = live.read_socket(buf);
                if !matches!(read, Ok(WireRead::NotYet)) {
                    live.is_connecting = false;
                }
                read
            }
            _ => Err(absent()),
        }
    }

    /// Writes on the wire of this number. It fails if that isn't here.
    pub fn write_numbered(&mut self, wire: u64, bytes: &[u8]) -> io::Result<usize>
        ensures { IfOk result (λ count. count ≤ length bytes.now) }
    {
        match self {
            Slot::Live(live) if live.number == wire => {
                let written = live.write_socket(bytes);
                if !matches!(written, Ok(0)) {
                    live.is_connecting = false;
                }
                written
            }
            _ => Err(absent()),
        }
    }

    /// The number of the wire that is up here.
    pub fn number(&self) -> Option<u64> {
        match self {
            Slot::Live(live) => Some(live.number),
            _ => None,
        }
    }

    /// Whether a read of the wire here may give something.
    pub fn is_readable(&self) -> bool {
        match self {
            Slot::Live(live) => live.is_readable,
            _ => false,
        }
    }

    /// Whether the connection on the wire of this number was begun here, and no call on it has shown yet whether it was made.
    pub fn is_connecting(&self, wire: u64) -> bool {
        match self {
            Slot::Live(live) => live.number == wire && live.is_connecting,
            _ => false,
        }
    }

    pub fn is_live(&self, wire: u64) -> bool {
        match self {
            Slot::Live(live) => live.number == wire,
            _ => false,
        }
    }

    pub fn is_ending(&self, wire: u64) -> bool {
        match self {
            Slot::Ending(ending) => ending.number == wire,
            _ => false,
        }
    }

    /// What the slot is after its wire, if it is live, was shut: that wire while it ends, or free.
    pub fn after_shut(self) -> Slot {
        match self {
            Slot::Live(live) => match live.end_writes() {
                Some(ending) => Slot::Ending(ending),
                None => Slot::Free(None),
            },
            other => other,
        }
    }
}
