//! What is opened at the start.

ghost use Rattle.std.specs.Prelude.{◌≡◌, IfOk, IfSome, Ok, Some};

use crate::limits::SLOTS;
use mio::net::TcpListener;
use mio::{Interest, Poll, Registry, Token};
use std::io;
use std::net::{Net, SocketAddr};
use std::rt::Clock;
use std::time::Instant;

/// The token of the listener. That of a wire is its slot, which is below it.
pub const LISTENER: Token = Token(SLOTS);

/// The sockets that are waited for, the listener if there is one, and the instant that is moment 0, once there is one.
#[derive(Drop)]
pub struct Opened {
    pub poll: Poll,
    pub listener: Option<TcpListener>,
    // A descriptor in reserve: a second one of the poll, since no other costs the system less. Nothing is done with it.
    reserve: Option<Registry>,
    start: Option<Instant>,
}

impl Opened {
    /// Listens at this address.
    pub fn listening<R: Net>(rt: &R, address: SocketAddr) -> io::Result<Opened> {
        let mut opened = Opened::dialing(rt)?;
        let mut listener = TcpListener::bind(rt, address)?;
        opened
            .poll
            .registry()
            .register(&mut listener, LISTENER, Interest::READABLE)?;
        opened.listener = Some(listener);
        Ok(opened)
    }

    /// Listens nowhere.
    pub fn dialing<R: Net>(rt: &R) -> io::Result<Opened> {
        let poll = Poll::new(rt)?;
        let reserve = poll.registry().try_clone().ok();
        Ok(Opened {
            poll,
            listener: None,
            reserve,
            start: None,
        })
    }

    /// The instant that is moment 0: that of the first call which could read the clock.
    pub fn start_instant<R: Clock>(&mut self, rt: &R) -> io::Result<Instant>
        ensures taken { IfOk result (λ start. self.new.start ≡ Some start) }
        ensures kept { IfSome self.old.start (λ start. result ≡ Ok start) }
    {
        if let Some(start) = self.start {
            return Ok(start);
        }
        let start = Instant::now(rt)?;
        self.start = Some(start);
        Ok(start)
    }

    /// Accepts the connection that waits longest and shuts it at once, by the descriptor in reserve, so that its peer isn't left
    /// without a word where the system has no descriptor for it. The answer is whether it did.
    pub fn turn_away(&mut self) -> bool {
        self.reserve = None;
        let is_away = match &self.listener {
            Some(listener) => listener.accept().is_ok(),
            None => false,
        };
        self.reserve = self.poll.registry().try_clone().ok();
        is_away
    }
}
