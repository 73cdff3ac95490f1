//! A lane while it is a WebSocket. It knows nothing of when it is written.

ghost use Rattle.std.specs.Prelude.{◌≡◌, ◌≤◌, ◌==◌, ◌&&◌, ◌||◌, ◌∷◌, [], ℕ, List, true, false, not, length, take, is_some, option_map, IfOk, IfSome, OnOk, OnErr};
ghost use Rattle.hw_door.specs.Traffic.{Answer};
ghost use Rattle.hw_socket.specs.Reading.{Feeds, Loses};
ghost use Rattle.hw_socket.specs.Sending as sending;
ghost use Rattle.hw_socket.specs.Sending.{after_shut};
ghost use Rattle.hw_net.specs.declared.limits.TheConstants.{PIECE};
ghost use Rattle.hw_net.specs.Halting.{HaltsSocket};
ghost use Rattle.hw_net.specs.Saying.{Writes};
ghost use Rattle.hw_net.specs.WebSocketState.{HearsWebSocket, ReadsInto, Finds, IsCalm, IsWebSocketState, started};
ghost use Rattle.hw_net.specs.Trace.{Tells, Reads};
ghost use Rattle.hw_net.specs.Turn.{IsRightInput};

use crate::input::Input;
use crate::protocol::Protocol;
use crate::reading::read_piece;
use crate::writing::write_frames;
use hw_door::Wires;
use hw_socket::{SocketLane, SocketRead, SocketSide};
use std::alloc::{AllocError, Global};
use std::marker::Model;

/// The messages of one lane.
#[derive(Drop)]
pub struct WebSocketState {
    lane: SocketLane,
    // All messages that came were heard, so more bytes are read. A wire that is read sooner may end, and they would be lost.
    wants_read: bool,
    // The last read filled the room that it had, or there was none.
    last_read_was_full: bool,
    // Bytes that were read are lost, as memory was out.
    lost_bytes: bool,
}

impl Model for WebSocketState {
    ghost use Rattle.hw_net.specs.WebSocketState.{WebSocketState as State, websocket_state_code, IsWebSocketState};

    ghost Value = { State };

    ghost coded = { websocket_state_code };

    ghost view = { λ t. record { lane = t.lane; wants_read = t.wants_read; last_read_was_full = t.last_read_was_full; lost_bytes = t.lost_bytes } };

    ghost invariant = { λ t. IsWebSocketState t.lane t.wants_read t.lost_bytes };
}

impl WebSocketState {
    /// A WebSocket of this side, of whose bytes these came with what opened it. It hears what is whole in them first, and then reads its wire.
    pub fn start(alloc: Global, side: SocketSide, came: &[u8]) -> Result<WebSocketState, AllocError>
        ensures { IfOk result (λ websocket_state. websocket_state ≡ started side came.now) }
    {
        let mut lane = SocketLane::start(alloc, side);
        lane.feed(came)?;
        Ok(WebSocketState {
            lane,
            wants_read: came.is_empty(),
            last_read_was_full: true,
            lost_bytes: false,
        })
    }

    /// Reads what has come, unless messages may be left that came before, and hears one message.
    pub fn hear<W: Wires>(
        &mut self,
        wires: &mut W,
        wire: u64,
        buf: &mut [u8],
    ) -> Result<Input, AllocError>
        requires { length buf.old ≡ PIECE }
        ensures heard { IfOk result (λ input. (answers : List Answer) × Tells (W.trace wires.old) (W.trace wires.new) answers
            × HearsWebSocket wire self.old self.new answers input) }
        ensures halts { OnErr result ((answers : List Answer) × Tells (W.trace wires.old) (W.trace wires.new) answers
            × HaltsSocket wire self.old self.new answers) }
        ensures wires { W.wires wires.new ≡ W.wires wires.old }
    {
        if self.lost_bytes || !self.read(wires, wire, buf)? {
            return Ok(Input::Broken);
        }
        self.look()
    }

    /// Reads what has come, if there is room. The answer is false if the wire broke.
    fn read<W: Wires>(
        &mut self,
        wires: &mut W,
        wire: u64,
        buf: &mut [u8],
    ) -> Result<bool, AllocError>
        requires { length buf.old ≡ PIECE }
        ensures read { IfOk result (λ is_whole. (answers : List Answer) × Tells (W.trace wires.old) (W.trace wires.new) answers
            × ReadsInto wire self.old self.new answers is_whole) }
        ensures halts { OnErr result ((answers : List Answer) × Tells (W.trace wires.old) (W.trace wires.new) answers
            × HaltsSocket wire self.old self.new answers) }
        ensures wires { W.wires wires.new ≡ W.wires wires.old }
    {
        if !self.wants_read {
            return Ok(true);
        }
        let Some(count) = read_piece(wires, wire, buf) else {
            return Ok(false);
        };
        self.take(buf, count)?;
        Ok(true)
    }

    /// Hears one message after a read that gave this: so many bytes, in front of the buffer, or `None` if the wire broke.
    pub fn hear_after(&mut self, read: Option<usize>, buf: &[u8]) -> Result<Input, AllocError>
        requires buffer { length buf.now ≡ PIECE }
        requires count { IfSome read (λ count. count ≤ PIECE) }
        ensures heard { IfOk result (λ input. (wire : ℕ) (answer : Answer) → IsCalm self.old → Reads wire PIECE answer (option_map (λ count. take count buf.now) read)
            → HearsWebSocket wire self.old self.new (answer ∷ []) input) }
        ensures halts { OnErr result ((wire : ℕ) (answer : Answer) → IsCalm self.old → Reads wire PIECE answer (option_map (λ count. take count buf.now) read)
            → HaltsSocket wire self.old self.new (answer ∷ [])) }
        ensures right { IfOk result (IsRightInput (Protocol.Socket self.new)) }
    {
        let Some(count) = read else {
            return Ok(Input::Broken);
        };
        self.take(buf, count)?;
        self.look()
    }

    /// Whether this is known: nothing is to be heard before more bytes come, and nothing to be written.
    pub fn is_idle(&self) -> bool
        ensures { result ≡ true → IsCalm self.now }
    {
        !self.is_awake() && self.only_waits() && self.lane.out().is_empty()
    }

    /// Whether a turn may hear nothing but what comes: bytes weren't lost, and the WebSocket isn't gone.
    pub fn only_waits(&self) -> bool
        ensures { result ≡ (not self.now.lost_bytes && not (is_some self.now.lane.ending)) }
    {
        !self.lost_bytes && self.lane.ending().is_none()
    }

    /// What holds of every WebSocket here holds of this one. It does nothing.
    pub fn is_sound(&self)
        ensures { IsWebSocketState self.now.lane self.now.wants_read self.now.lost_bytes }
    {
        let _lane = &self.lane;
    }

    /// Adds a message to what is to be written. The answer is whether it was.
    pub fn send(&mut self, bytes: &[u8], text: bool) -> Result<bool, AllocError>
        ensures said { IfOk result (sending.Says self.old.lane self.new.lane bytes.now text) }
        ensures unchanged { OnErr result (self.new ≡ self.old) }
        ensures others_unchanged { self.new ≡ record self.old { lane = self.new.lane } }
    {
        self.lane.send(bytes, text)
    }

    /// Says that the WebSocket ends.
    pub fn shut(&mut self) -> Result<(), AllocError>
        ensures shut { OnOk result (self.new ≡ record self.old { lane = after_shut self.old.lane }) }
        ensures unchanged { OnErr result (self.new ≡ self.old) }
    {
        self.lane.shut()
    }

    /// What is to be written.
    pub fn out(&self) -> &[u8]
        ensures { result.now ≡ self.now.lane.out.bytes }
    {
        self.lane.out()
    }

    /// Writes what is to be written, as far as the wire takes it. The answer is false if the wire failed.
    pub fn write<W: Wires>(&mut self, wires: &mut W, wire: u64) -> bool
        ensures writes { (answers : List Answer) × Tells (W.trace wires.old) (W.trace wires.new) answers
            × Writes wire self.old.lane.out.bytes answers self.new.lane.out.bytes result }
        ensures others_unchanged { self.new ≡ record self.old { lane = record self.old.lane { out = record self.old.lane.out { bytes = self.new.lane.out.bytes } } } }
        ensures wires { W.wires wires.new ≡ W.wires wires.old }
        ensures faults { W.faults wires.old ≤ W.faults wires.new }
    {
        write_frames(wires, wire, &mut self.lane)
    }

    /// Takes what was read: so many bytes, in front of the buffer.
    fn take(&mut self, buf: &[u8], count: usize) -> Result<(), AllocError>
        requires { count ≤ length buf.now }
        ensures fed { OnOk result (Feeds self.old.lane (take count buf.now) self.new.lane) }
        ensures whole { OnOk result (self.new.lost_bytes ≡ self.old.lost_bytes) }
        ensures full { OnOk result (self.new.last_read_was_full ≡ (count == length buf.now)) }
        ensures lost { OnErr result (self.new ≡ record self.old { last_read_was_full = true; lost_bytes = true }) }
    {
        let piece = &buf[..count];
        if !piece.is_empty() && self.lane.feed(piece).is_err() {
            self.lost_bytes = true;
            self.last_read_was_full = true;
            return Err(AllocError);
        }
        self.last_read_was_full = count == buf.len();
        self.wants_read = false;
        Ok(())
    }

    /// Hears one message.
    fn look(&mut self) -> Result<Input, AllocError>
        ensures found { IfOk result (Finds self.old self.new) }
        ensures lost { OnErr result (Loses self.old.lane self.new.lane) }
        ensures whole { self.new.lost_bytes ≡ self.old.lost_bytes }
    {
        self.wants_read = false;
        match self.lane.read()? {
            SocketRead::Payload(bytes) => Ok(Input::Message(bytes)),
            SocketRead::NotYet => {
                self.wants_read = true;
                Ok(Input::Nothing)
            }
            SocketRead::Gone => Ok(Input::Gone),
        }
    }

    /// Whether something may be heard at once: there may be a message, or more bytes to read.
    pub fn is_awake(&self) -> bool
        ensures { result ≡ (not self.now.wants_read || self.now.last_read_was_full) }
    {
        !self.wants_read || self.last_read_was_full
    }
}
