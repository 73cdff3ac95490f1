//! What plain sockets are asked, and what they answer:
//!
//! ```text
//! connect                  one more connects to the far wires: `peer PLACE`
//! write PEER TEXT          writes the text: `written`
//! fill PEER                writes 50,000 bytes: `written`
//! read PEER                what one read gives, which waits for it: `read TEXT`, or `ended`
//! end PEER                 writes no more: `ended`
//! ```

use ht_kit::{Stop, as_text, count, first_word, told};
use std::alloc::Global;
use std::io::{Read, Write};
use std::net::{IpAddr, Ipv4Addr, Shutdown, TcpStream};

const HERE: IpAddr = IpAddr::V4(Ipv4Addr::LOCALHOST);

const FILLING: [u8; 50_000] = [7; 50_000];

/// The peers.
#[derive(Drop)]
pub struct Peers {
    streams: Vec<TcpStream>,
}

impl Peers {
    /// None is there.
    pub fn start(alloc: Global) -> Peers {
        Peers {
            streams: Vec::new(alloc),
        }
    }

    /// What they answer to the words.
    pub fn ask(
        &mut self,
        rt: &HostRuntime,
        alloc: Global,
        port: u16,
        words: &str,
    ) -> Result<String, Stop> {
        let (word, rest) = first_word(words);
        if word == "connect" {
            return self.connect(rt, alloc, port);
        }
        let (place, rest) = first_word(rest);
        let stream = self.streams.get_mut(count(place)?).ok_or(Stop::Refused)?;
        ask_stream(alloc, stream, word, rest)
    }

    fn connect(&mut self, rt: &HostRuntime, alloc: Global, port: u16) -> Result<String, Stop> {
        let Ok(stream) = TcpStream::connect(rt, (HERE, port)) else {
            return Err(Stop::Failed);
        };
        let place = self.streams.len();
        self.streams.push(stream)?;
        Ok(format!(in alloc; "peer {place}")?)
    }
}

fn ask_stream(
    alloc: Global,
    stream: &mut TcpStream,
    word: &str,
    text: &str,
) -> Result<String, Stop> {
    match word {
        "write" => write(alloc, stream, text.as_bytes()),
        "fill" => write(alloc, stream, &FILLING),
        "read" => read(alloc, stream),
        "end" => match stream.shutdown(Shutdown::Write) {
            Ok(()) => told(alloc, "ended"),
            Err(_) => Err(Stop::Failed),
        },
        _ => Err(Stop::Refused),
    }
}

fn write(alloc: Global, stream: &mut TcpStream, bytes: &[u8]) -> Result<String, Stop> {
    match stream.write_all(bytes) {
        Ok(()) => told(alloc, "written"),
        Err(_) => Err(Stop::Failed),
    }
}

fn read(alloc: Global, stream: &mut TcpStream) -> Result<String, Stop> {
    let mut buf = [0; 8];
    match stream.read(&mut buf) {
        Ok(0) => told(alloc, "ended"),
        Ok(count) => Ok(format!(in alloc; "read {}", as_text(&buf[..count.min(8)]))?),
        Err(_) => Err(Stop::Failed),
    }
}
