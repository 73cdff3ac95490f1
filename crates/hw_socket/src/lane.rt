//! The lane: what is fed to it, read from it, sent by it and to be written for it.

ghost use Rattle.std.specs.Prelude.{◌≡◌, ◌≤◌, ◌≢◌, ◌*◌, [], if◌then◌else◌, None, Some, Ok, true, false, take, drop, length, IfOk, IfSome, OnOk, OnErr, option_map, IsUtf8};
ghost use Rattle.websocket.specs.Connection.{closing_state, check_close, IsDoneSending};
ghost use Rattle.websocket.specs.CloseCode.{close_code_number};
ghost use Rattle.websocket.specs.Content.{received_content, IsReceivedInside, IsWithinLimit};
ghost use Rattle.hw_socket.specs.Buffers.{most_reserved};
ghost use Rattle.hw_socket.specs.Closing.{status_of, ending_of};
ghost use Rattle.hw_socket.specs.Lane.{Lane, fresh_lane, limits};
ghost use Rattle.hw_socket.specs.Messages.{role_of, AreWithin, IsData};
ghost use Rattle.hw_socket.specs.Reading.{Feeds, Takes, Loses, LosesHere, Steps, Shows, IsWithin, HasLittleLeft, ending_after};
ghost use Rattle.hw_socket.specs.Sending.{Says, Drops, after_shut, shut_ending};

use crate::inbox::Inbox;
use crate::outbox::Outbox;
use crate::vocabulary::{Ending, MOST_MESSAGE, SocketRead, SocketSide};
use hw_lanes::Vec8;
use std::alloc::{AllocError, Global};
use std::marker::Model;
use std::str;
use websocket::error::Error;
use websocket::protocol::frame::coding::{Data, OpCode};
use websocket::protocol::{
    CloseCode, FrameStatus, Received, Role, Step, WebSocketConfig, WebSocketContext,
};

/// A WebSocket whose opening handshake is done, over bytes that are handed in. Nothing is read or written by the lane itself.
#[derive(Drop)]
pub struct SocketLane {
    alloc: Global,
    context: WebSocketContext,
    inbox: Inbox,
    outbox: Outbox,
    ending: Option<Ending>,
}

impl Model for SocketLane {
    ghost use Rattle.hw_socket.specs.Lane.{Lane, lane_code, IsSound};

    ghost Value = { Lane };

    ghost coded = { lane_code };

    ghost view = { λ a. record { conn = a.context; unread = a.inbox; out = a.outbox; ending = a.ending } };

    ghost invariant = { λ a. IsSound a.context a.outbox.side a.ending };
}

impl SocketLane {
    /// A lane of this side of a WebSocket. It takes no memory yet.
    pub fn start(alloc: Global, side: SocketSide) -> SocketLane
        ensures { result ≡ fresh_lane side }
    {
        let limits = WebSocketConfig {
            max_message_size: Some(MOST_MESSAGE),
            max_frame_size: Some(MOST_MESSAGE),
            accept_unmasked_frames: false,
        };
        SocketLane {
            alloc,
            context: WebSocketContext::new(alloc, role(side), limits),
            inbox: Inbox::new(alloc),
            outbox: Outbox::new(alloc, side),
            ending: None,
        }
    }

    /// Adds bytes that came. They are kept until a frame takes them, so the caller bounds them: by the length of a piece, and by reading
    /// until `NotYet` after each. A lane that is gone keeps them and reads none of them, so a caller feeds it no more. If this is out of
    /// memory, the lane is as before.
    pub fn feed(&mut self, piece: &[u8]) -> Result<(), AllocError>
        ensures fed { OnOk result (Feeds self.old piece.now self.new) }
        ensures unchanged { OnErr result (self.new ≡ self.old) }
    {
        self.inbox.feed(piece)
    }

    /// The bytes to be written, the oldest first.
    pub fn out(&self) -> &[u8]
        ensures { result.now ≡ self.now.out.bytes }
    {
        self.outbox.bytes()
    }

    /// Drops the first `count` bytes of `out`, which were written.
    pub fn drop_out(&mut self, count: usize)
        requires { count ≤ length self.old.out.bytes }
        ensures dropped { self.new ≡ record self.old { out = record self.old.out { bytes = drop count self.old.out.bytes } } }
        ensures left { Drops self.old (take count self.old.out.bytes) self.new }
    {
        self.outbox.drop_front(count);
    }

    /// How many bytes its buffers reserve. A lane that holds none and has none to write gives back what long messages made it reserve.
    pub fn reserved(&self) -> usize
        ensures { self.now.unread ≡ [] → self.now.out.bytes ≡ [] → result ≤ 2 * most_reserved }
    {
        self.inbox.reserved().saturating_add(self.outbox.reserved())
    }

    /// Why the lane is gone, if it is.
    pub fn ending(&self) -> Option<Ending>
        ensures { result ≡ self.now.ending }
    {
        self.ending
    }

    /// Sends a message as one frame (RFC 6455, 5.6), which is appended to `out`. The answer is whether it was: `false` if the lane is
    /// gone, and if a text isn't UTF-8, which makes the lane gone. If this is out of memory, the lane is as before.
    pub fn send(&mut self, bytes: &[u8], text: bool) -> Result<bool, AllocError>
        ensures said { IfOk result (Says self.old self.new bytes.now text) }
        ensures unchanged { OnErr result (self.new ≡ self.old) }
    {
        if self.ending.is_some() {
            return Ok(false);
        }
        if !may_be_sent(bytes, text) {
            self.ending = Some(Ending::BadText);
            return Ok(false);
        }
        self.outbox.put(OpCode::Data(kind(text)), bytes)?;
        Ok(true)
    }

    /// Appends the close frame to `out`, unless one was written, and the lane is gone (RFC 6455, 7.1.2). Its status says why the lane
    /// ends. If this is out of memory, the lane is as before.
    pub fn shut(&mut self) -> Result<(), AllocError>
        ensures shut { OnOk result (self.new ≡ after_shut self.old) }
        ensures done { OnOk result (IsDoneSending self.new.conn.state) }
        ensures once { IsDoneSending self.old.conn.state → self.new.out ≡ self.old.out }
        ensures unchanged { OnErr result (self.new ≡ self.old) }
    {
        if self
            .outbox
            .close(&mut self.context, status(self.ending))
            .is_err()
        {
            return Err(AllocError);
        }
        self.ending = Some(ending_if_shut(self.ending));
        Ok(())
    }

    /// Reads one message, in however many frames it comes (RFC 6455, 5.4). Pings that come before it are answered into `out`, and so is a
    /// close frame. Once the answer is `Gone`, it stays so. If this is out of memory, the lane is gone, and what it read is lost.
    ///
    /// A payload has at most [`MOST_MESSAGE`] bytes, and so has what is kept of a message whose last frame is still to come. After `NotYet`
    /// less than [`crate::MOST_FRAME`] bytes are unread.
    pub fn read(&mut self) -> Result<SocketRead, AllocError>
        ensures took { IfOk result (Takes self.old self.new) }
        ensures within { IfOk result IsWithin }
        ensures waits { IfOk result (HasLittleLeft self.new) }
        ensures unfinished { AreWithin MOST_MESSAGE self.new.conn.fragments }
        ensures answered { self.new.ending ≡ Some Ending.Answered → IsDoneSending self.new.conn.state }
        ensures lost { OnErr result (Loses self.old self.new) }
    {
        if self.ending.is_some() {
            return Ok(SocketRead::Gone);
        }
        loop {
            if let Some(answer) = self.step()? {
                return Ok(answer);
            }
        }
    }

    // Reads one frame.
    fn step(&mut self) -> Result<Option<SocketRead>, AllocError>
        requires { self.old.ending ≡ None }
        ensures stepped { IfOk result (Steps self.old self.new) }
        ensures within { IfOk result (λ answer. IfSome answer IsWithin) }
        ensures waits { IfOk result (λ answer. IfSome answer (HasLittleLeft self.new)) }
        ensures unfinished { AreWithin MOST_MESSAGE self.new.conn.fragments }
        ensures answered { self.new.ending ≡ Some Ending.Answered → IsDoneSending self.new.conn.state }
        ensures lost { OnErr result (LosesHere self.old self.new) }
    {
        match self.inbox.read(&mut self.context, &mut self.outbox) {
            Ok(FrameStatus::Partial(_)) => Ok(Some(SocketRead::NotYet)),
            Ok(FrameStatus::Complete(Step { consumed, message })) => {
                let answer = answer(self.alloc, self.inbox.unread(), message);
                self.inbox.take(consumed);
                self.ending = ending_with(&answer);
                answer
            }
            Err(error) => {
                self.inbox.clear();
                self.ending = Some(ending_by(error));
                refusal(error)
            }
        }
    }
}

fn role(side: SocketSide) -> Role
    ensures { result ≡ role_of side }
{
    match side {
        SocketSide::Server => Role::Server,
        SocketSide::Client { .. } => Role::Client,
    }
}

fn may_be_sent(bytes: &[u8], text: bool) -> bool
    ensures sendable { result ≡ true → text ≡ true → IsUtf8 bytes.now }
    ensures refused { result ≡ false → (text ≡ true) × ¬ (IsUtf8 bytes.now) }
{
    !text || str::from_utf8(bytes).is_ok()
}

fn kind(text: bool) -> Data
    ensures { result ≡ (if text then Data.Text else Data.Binary) }
{
    if text { Data::Text } else { Data::Binary }
}

/// The status of the close frame of a lane with this ending.
fn status(ending: Option<Ending>) -> CloseCode
    ensures status { close_code_number result ≡ status_of ending }
    ensures may_be_sent { check_close (Some (result, [])) ≡ Ok tt }
{
    match ending {
        Some(Ending::TooLong) => CloseCode::Size,
        Some(Ending::NotText) => CloseCode::Invalid,
        Some(Ending::Breach) => CloseCode::Protocol,
        _ => CloseCode::Normal,
    }
}

fn ending_if_shut(ending: Option<Ending>) -> Ending
    ensures { result ≡ shut_ending ending }
{
    ending.unwrap_or(Ending::Shut)
}

/// What a frame with this message gives, from the bytes that it was read from.
fn answer(
    alloc: Global,
    unread: &[u8],
    message: Option<Received>,
) -> Result<Option<SocketRead>, AllocError>
    requires { IfSome message (IsReceivedInside unread.now) }
    ensures shown { IfOk result (Shows (option_map (received_content unread.now) message)) }
    ensures lost { OnErr result (IsData (option_map (received_content unread.now) message)) }
{
    match message {
        Some(Received::Text(payload) | Received::Binary(payload)) => {
            let bytes = Vec8::of(alloc, payload.of(unread))?;
            Ok(Some(SocketRead::Payload(bytes)))
        }
        Some(Received::Close(_)) => Ok(Some(SocketRead::Gone)),
        Some(Received::Ping(_) | Received::Pong(_)) | None => Ok(None),
    }
}

/// Why a lane is gone whose frame gave this.
fn ending_with(answer: &Result<Option<SocketRead>, AllocError>) -> Option<Ending>
    ensures { result ≡ ending_after answer.now }
{
    match answer {
        Ok(Some(SocketRead::Gone)) => Some(Ending::Answered),
        Ok(_) => None,
        Err(_) => Some(Ending::NoMemory),
    }
}

/// Why a lane is gone whose protocol gave this error.
fn ending_by(error: Error) -> Ending
    ensures { result ≡ ending_of error }
{
    match error {
        Error::Capacity(_) => Ending::TooLong,
        Error::Utf8 => Ending::NotText,
        Error::OutOfMemory => Ending::NoMemory,
        Error::Protocol(_) | Error::ConnectionClosed | Error::AlreadyClosed => Ending::Breach,
    }
}

/// What a read answers after this error.
fn refusal(error: Error) -> Result<Option<SocketRead>, AllocError>
    ensures gone { IfOk result (λ answer. (answer ≡ Some SocketRead.Gone) × (error ≢ Error.OutOfMemory)) }
    ensures lost { OnErr result (error ≡ Error.OutOfMemory) }
{
    if error == Error::OutOfMemory {
        Err(AllocError)
    } else {
        Ok(Some(SocketRead::Gone))
    }
}
