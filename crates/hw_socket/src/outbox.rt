//! The frames that a lane has written and that aren't dropped yet. It knows masks, and no messages.

ghost use Rattle.std.specs.Prelude.{◌≡◌, ◌≤◌, ◌++◌, List, ℕ, Option, [], length, take, drop, IfOk, IfErr, OnOk, OnErr, is_some};
ghost use Rattle.websocket.specs.Connection.{Connection, Outgoing, read_step, closing_state, check_close, failed_connection, Sends};
ghost use Rattle.websocket.specs.CloseCode.{close_code_number};
ghost use Rattle.websocket.specs.Content.{IsReceivedInside};
ghost use Rattle.websocket.specs.FrameHeader.{IsMask};
ghost use Rattle.websocket.specs.Mask.{apply_mask};
ghost use Rattle.websocket.specs.View.{Returns, KeepsRest, IfMessage, GivesError};
ghost use Rattle.hw_socket.specs.Masks.{key_of, mask_of, after_frame, after_reply, with_mask, IsShort};
ghost use Rattle.hw_socket.specs.Buffers.{IsLean};
ghost use Rattle.hw_socket.specs.Closing.{closed, after_close};
ghost use Rattle.hw_socket.specs.Messages.{role_of};
ghost use Rattle.hw_socket.specs.Reading.{Leaves};

use crate::front::{drop_first, trim};
use crate::vocabulary::SocketSide;
use sha1::Sha1;
use std::alloc::{AllocError, Global};
use std::marker::Model;
use websocket::error::Error;
use websocket::protocol::frame::coding::OpCode;
use websocket::protocol::frame::{FrameHeader, apply_mask, write_frame};
use websocket::protocol::{CloseCode, CloseFrame, FrameStatus, NoMask, Step, WebSocketContext};

// Where the mask of a short frame begins, and its payload (RFC 6455, 5.2).
const MASK_AT: usize = 2;

const PAYLOAD_AT: usize = 6;

/// The frames that were written, and how many there were, modulo 2^64.
#[derive(Drop)]
pub struct Outbox {
    pub side: SocketSide,
    frames: u64,
    bytes: Vec<u8>,
}

impl Model for Outbox {
    ghost use Rattle.std.specs.Prelude.{vec_capacity};
    ghost use Rattle.hw_socket.specs.Buffers.{IsLean};
    ghost use Rattle.hw_socket.specs.Masks.{Written, written_code};

    ghost Value = { Written };

    ghost coded = { written_code };

    ghost view = { λ o. record { side = o.side; frames = o.frames; bytes = o.bytes.items } };

    ghost invariant = { λ o. IsLean o.bytes.items (vec_capacity o.bytes) };
}

impl Outbox {
    pub fn new(alloc: Global, side: SocketSide) -> Outbox
        ensures { result ≡ record { side = side; frames = 0; bytes = [] } }
    {
        Outbox {
            side,
            frames: 0,
            bytes: Vec::new(alloc),
        }
    }

    pub fn bytes(&self) -> &[u8]
        ensures { result.now ≡ self.now.bytes }
    {
        &self.bytes
    }

    /// Drops the first `count` bytes. Once none is left, what long messages made it reserve is given back.
    pub fn drop_front(&mut self, count: usize)
        requires { count ≤ length self.old.bytes }
        ensures { self.new ≡ record self.old { bytes = drop count self.old.bytes } }
    {
        drop_first(&mut self.bytes, count);
    }

    /// How many bytes it reserves.
    pub fn reserved(&self) -> usize
        ensures { IsLean self.now.bytes result }
    {
        self.bytes.capacity()
    }

    /// Appends a frame that is a whole message.
    pub fn put(&mut self, opcode: OpCode, payload: &[u8]) -> Result<(), AllocError>
        ensures put { OnOk result (self.new ≡ after_frame self.old
            (record { opcode = opcode; payload = payload.now })) }
        ensures unchanged { OnErr result (self.new ≡ self.old) }
    {
        let header = FrameHeader::new(opcode, mask(self.side, self.frames));
        let written = write_frame(&header, payload, &mut self.bytes);
        trim(&mut self.bytes);
        written?;
        self.frames = self.frames.wrapping_add(1);
        Ok(())
    }

    /// Lets the protocol read one frame of `input`, and appends what it replies.
    pub fn read(
        &mut self,
        context: &mut WebSocketContext,
        input: &mut [u8],
    ) -> Result<FrameStatus<Step>, Error>
        requires { context.old.role ≡ role_of self.old.side }
        ensures returns { IfOk result (Returns (read_step context.old input.old) input.new) }
        ensures leaves { OnOk result (Leaves (read_step context.old input.old) context.old
            context.new self.old self.new) }
        ensures rest { IfOk result (λ status. KeepsRest status input.old input.new) }
        ensures inside { IfOk result (λ status. IfMessage status (IsReceivedInside input.new)) }
        ensures refused { IfErr result (GivesError (read_step context.old input.old)) }
        ensures failed { OnErr result (context.new ≡ failed_connection context.old) }
        ensures unchanged { OnErr result (self.new ≡ self.old) }
    {
        let from = self.bytes.len();
        // The library's clauses don't say which key a frame takes, so the frame is given its own here.
        let read = context.read(input, &mut self.bytes, &mut NoMask);
        trim(&mut self.bytes);
        let status = read?;
        self.seal(from);
        Ok(status)
    }

    /// Lets the protocol append a close frame with this status and no reason, unless one was sent. It fails if it is out of memory.
    pub fn close(&mut self, context: &mut WebSocketContext, code: CloseCode) -> Result<(), Error>
        requires role { context.old.role ≡ role_of self.old.side }
        requires may_be_sent { check_close (Some (code, [])) ≡ Ok tt }
        ensures closed { OnOk result (context.new ≡ closed context.old (closing_state context.old.state)) }
        ensures written { OnOk result (self.new ≡ after_close self.old (close_code_number code)
            (closing_state context.old.state)) }
        ensures memory { IfErr result (λ error. error ≡ Error.OutOfMemory) }
        ensures failed { OnErr result (context.new ≡ context.old) }
        ensures unchanged { OnErr result (self.new ≡ self.old) }
    {
        let from = self.bytes.len();
        let frame = CloseFrame { code, reason: "" };
        let closed = context.close(Some(frame), &mut self.bytes, &mut NoMask);
        trim(&mut self.bytes);
        closed?;
        self.seal(from);
        Ok(())
    }

    // The frame from `from` on, if there is one, gets the mask of its number.
    fn seal(&mut self, from: usize)
        requires { from ≤ length self.old.bytes }
        ensures { (reply : Option Outgoing) (before : List ℕ) → from ≡ length before →
            IsShort reply → Sends (role_of self.old.side) reply before self.old.bytes →
            self.new ≡ after_reply (record self.old { bytes = before }) reply }
    {
        if self.bytes.len() == from {
            return;
        }
        let mask = mask(self.side, self.frames);
        set_mask(&mut self.bytes[from..], mask);
        self.frames = self.frames.wrapping_add(1);
    }
}

/// Gives a short frame another mask, if it has one.
fn set_mask(frame: &mut [u8], mask: Option<[u8; 4]>)
    ensures { (old : Option (List ℕ)) (f : Outgoing) → IsMask old → is_some old ≡ is_some mask →
        length f.payload ≤ 125 → frame.old ≡ with_mask old f → frame.new ≡ with_mask mask f }
{
    let Some(key) = mask else {
        return;
    };
    if frame.len() < PAYLOAD_AT {
        return;
    }
    change_key(frame, key);
}

/// Takes the key out of a masked frame with no extended length, and puts another in.
fn change_key(frame: &mut [u8], key: [u8; 4])
    requires { PAYLOAD_AT ≤ length frame.old }
    ensures { frame.new ≡ take MASK_AT frame.old ++ key ++ apply_mask key
        (apply_mask (take 4 (drop MASK_AT frame.old)) (drop PAYLOAD_AT frame.old)) }
{
    let old = [frame[2], frame[3], frame[4], frame[5]];
    apply_mask(&mut frame[PAYLOAD_AT..], old);
    apply_mask(&mut frame[PAYLOAD_AT..], key);
    frame[MASK_AT..PAYLOAD_AT].copy_from_slice(&key);
}

/// The mask of a side's frame with this number.
fn mask(side: SocketSide, number: u64) -> Option<[u8; 4]>
    ensures { result ≡ mask_of side number }
{
    match side {
        SocketSide::Server => None,
        SocketSide::Client { seed } => Some(key(&seed, number)),
    }
}

#[tactic(auto, unfolding(crate::specs::Masks::key_of))]
fn key(seed: &[u8; 16], number: u64) -> [u8; 4]
    ensures { result ≡ key_of seed.now number }
{
    let mut hasher = Sha1::new();
    hasher.update(seed);
    hasher.update(&number.to_be_bytes());
    let digest = hasher.finalize();
    [digest[0], digest[1], digest[2], digest[3]]
}
