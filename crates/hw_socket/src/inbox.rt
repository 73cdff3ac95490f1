//! The bytes that were fed to a lane and that no frame has taken. It knows where a frame ends from the protocol alone.

ghost use Rattle.std.specs.Prelude.{◌≡◌, ◌≤◌, ◌++◌, [], length, drop, IfOk, IfErr, OnOk, OnErr};
ghost use Rattle.websocket.specs.Connection.{read_step, failed_connection};
ghost use Rattle.websocket.specs.Content.{IsReceivedInside};
ghost use Rattle.websocket.specs.View.{Returns, KeepsRest, IfMessage, GivesError};
ghost use Rattle.hw_socket.specs.Buffers.{IsLean};
ghost use Rattle.hw_socket.specs.Messages.{role_of};
ghost use Rattle.hw_socket.specs.Reading.{Leaves};

use crate::front::{drop_first, empty, trim};
use crate::outbox::Outbox;
use std::alloc::{AllocError, Global};
use std::marker::Model;
use websocket::error::Error;
use websocket::protocol::{FrameStatus, Step, WebSocketContext};

/// The bytes that no frame has taken.
#[derive(Drop)]
pub struct Inbox {
    fed: Vec<u8>,
    // What stands before this was taken.
    start: usize,
}

impl Model for Inbox {
    ghost use Rattle.std.specs.Prelude.{◌≤◌, ℕ, List, drop, length, vec_capacity};
    ghost use Rattle.hw_socket.specs.Buffers.{IsLean};

    ghost Value = { List ℕ };

    ghost view = { λ i. drop i.start i.fed.items };

    ghost invariant = { λ i. (i.start ≤ length i.fed.items) × IsLean (drop i.start i.fed.items) (vec_capacity i.fed) };
}

impl Inbox {
    pub fn new(alloc: Global) -> Inbox
        ensures { result ≡ [] }
    {
        Inbox {
            fed: Vec::new(alloc),
            start: 0,
        }
    }

    pub fn unread(&self) -> &[u8]
        ensures { result.now ≡ self.now }
    {
        &self.fed[self.start..]
    }

    /// Adds bytes that came.
    pub fn feed(&mut self, piece: &[u8]) -> Result<(), AllocError>
        ensures fed { OnOk result (self.new ≡ self.old ++ piece.now) }
        ensures unchanged { OnErr result (self.new ≡ self.old) }
    {
        // Forgets what was taken.
        drop_first(&mut self.fed, self.start);
        self.start = 0;
        let fed = self.fed.extend_from_slice(piece);
        trim(&mut self.fed);
        fed
    }

    /// Takes the first `count` bytes out. Once all are taken, what a long message made it reserve is given back.
    pub fn take(&mut self, count: usize)
        requires { count ≤ length self.old }
        ensures { self.new ≡ drop count self.old }
    {
        self.start += count;
        if self.start == self.fed.len() {
            empty(&mut self.fed);
            self.start = 0;
        }
    }

    pub fn clear(&mut self)
        ensures { self.new ≡ [] }
    {
        empty(&mut self.fed);
        self.start = 0;
    }

    /// How many bytes it reserves.
    pub fn reserved(&self) -> usize
        ensures { IsLean self.now result }
    {
        self.fed.capacity()
    }

    /// Lets the protocol read one frame, which is unmasked in place and stays until it is taken.
    pub fn read(
        &mut self,
        context: &mut WebSocketContext,
        outbox: &mut Outbox,
    ) -> Result<FrameStatus<Step>, Error>
        requires { context.old.role ≡ role_of outbox.old.side }
        ensures returns { IfOk result (Returns (read_step context.old self.old) self.new) }
        ensures leaves { OnOk result (Leaves (read_step context.old self.old) context.old
            context.new outbox.old outbox.new) }
        ensures rest { IfOk result (λ status. KeepsRest status self.old self.new) }
        ensures len { length self.new ≡ length self.old }
        ensures inside { IfOk result (λ status. IfMessage status (IsReceivedInside self.new)) }
        ensures refused { IfErr result (GivesError (read_step context.old self.old)) }
        ensures failed { OnErr result (context.new ≡ failed_connection context.old) }
        ensures unchanged { OnErr result (outbox.new ≡ outbox.old) }
    {
        outbox.read(context, &mut self.fed[self.start..])
    }
}
