//! Sends messages of 100 bytes from a client's lane to a server's lane: a measure of `hw_socket`. `bench/sockets/peer.py` does the same with
//! Python's `websockets`.

use hw_socket::{SocketLane, SocketRead, SocketSide};
use std::alloc::{AllocError, Global};

/// How many messages are sent before their bytes are handed over.
const BATCH: u32 = 100;

const MESSAGE: [u8; 100] = [0x61; 100];

/// How many bytes of messages the server's lane reads until it has no more.
fn read_all(server: &mut SocketLane) -> Result<u64, AllocError> {
    let mut sum: u64 = 0;
    for _ in 0..BATCH {
        match server.read()? {
            SocketRead::Payload(payload) => sum = sum.wrapping_add(payload.bytes().len() as u64),
            SocketRead::NotYet | SocketRead::Gone => return Ok(sum),
        }
    }
    Ok(sum)
}

/// Sends a batch, hands its bytes over, and answers how many bytes of messages came.
fn send_batch(client: &mut SocketLane, server: &mut SocketLane) -> Result<u64, AllocError> {
    for _ in 0..BATCH {
        client.send(&MESSAGE, true)?;
    }
    server.feed(client.out())?;
    let count = client.out().len();
    client.drop_out(count);
    read_all(server)
}

fn run(alloc: Global, batches: u32) -> Result<u64, AllocError> {
    let mut client = SocketLane::start(alloc, SocketSide::Client { seed: [7; 16] });
    let mut server = SocketLane::start(alloc, SocketSide::Server);
    let mut sum: u64 = 0;
    for _ in 0..batches {
        sum = sum.wrapping_add(send_batch(&mut client, &mut server)?);
    }
    Ok(sum)
}

/// How many bytes of messages came in so many batches.
pub fn measured(alloc: Global, batches: u32) -> Option<String> {
    let sum = run(alloc, batches).ok()?;
    format!(in alloc; "bytes {sum}").ok()
}
