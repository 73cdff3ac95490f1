//! Wires over sockets.

ghost use Rattle.std.specs.Prelude.{◌≡◌, ◌≤◌, ◌⊎◌, IfOk, IsSome, MatchResult, OnErr, Some, length, option_copied};
ghost use Rattle.hd_facts.specs.Counts.{HasCause, Rose};
ghost use Rattle.hw_door.specs.Traffic.{CountsWithin, IsNewWire, connected_wire};
ghost use Rattle.hw_mio.specs.Standard.{start_error, connect_error, wires_bound, wires_moment, wires_faults, Finds, IsAtStart, IsStill};

use crate::endings::Endings;
use crate::incoming::Incoming;
use crate::limits::{EAGER_POLLS, EVENTS, MOST_UNASKED};
use crate::opened::{LISTENER, Opened};
use crate::refusal::{Refusal, refusal_of};
use crate::table::{Shut, Table};
use hw_door::{WireRead, Wires};
use hw_io::Failed;
use mio::Events;
use mio::net::TcpStream;
use std::alloc::{AllocError, Global};
use std::io;
use std::net::{IpAddr, Net, SocketAddr, ToSocketAddrs};
use std::rt::Clock;
use std::time::{Duration, Instant};

/// Wires over the TCP sockets of the system. All memory is taken when they are made: no call takes more.
///
/// A wire's number is below 2^62. At most [`SLOTS`](crate::SLOTS) wires are up at once, and 2^48 are made in all. Past either,
/// `accept` answers `None`, as it does if the system has no descriptor or memory for one more, and `connect` fails. A connection for
/// which the system has no descriptor is accepted and shut at once, by a descriptor that is kept in reserve for this.
///
/// `poll` waits for an event of a socket. What an event told stays known until a call on that wire would wait, or a read gives less than
/// its buffer has room for, and `poll` doesn't tell it again: a caller that leaves bytes unread hands in a `wait` of 0. A wire of which an
/// end or an error was told stays readable until that is read. `poll` doesn't wait while a connection may be there to be accepted, if there
/// is room for it. Nor do two polls in a row that might, while some wire is readable, after an event was told, bytes were read, a wire was
/// shut, or `accept` failed, as the caller may have left that wire unread for this. Of polls that don't wait only each 33rd asks the system
/// for events.
///
/// The wires that are named are those of which a read may give something, or of which the last read did, in the order of their slots. None of them
/// has anything to give (`none_ready`) if no read would ask the system. That is known without looking at any.
///
/// `shut` ends what is written, but not the connection: what still comes is read and dropped, until the peer ends too, for at most 2 s
/// and 1 MiB. So the peer gets all that was written before, though it had sent bytes that were never read. The wire's number is gone
/// at once, but its slot is taken meanwhile.
#[derive(Drop)]
pub struct MioWires<'a, R> {
    rt: &'a R,
    opened: io::Result<Opened>,
    events: Events,
    table: Table,
    endings: Endings,
    incoming: Incoming,
    // In how many polls the caller may still have left wires unread for something that there was.
    eager_polls: u8,
    // How many polls in a row left the system unasked.
    unasked: u64,
    moment: u64,
    connect_error: Option<io::Error>,
    faults: u64,
}

/// Hands each event to the wire or the listener that it tells of. The answer is whether the listener may give a connection then.
fn dispatch(events: &Events, table: &mut Table, incoming: Incoming) -> Incoming
    ensures { table.new ≡ table.old }
{
    let mut incoming = incoming;
    for event in events.iter() {
        let token = event.token();
        if token == LISTENER {
            incoming = Incoming::Waiting;
        } else if table.note_event(token.0, event) {
            incoming = incoming.after_close();
        }
    }
    incoming
}

fn no_room() -> io::Error {
    io::Error::new(io::ErrorKind::QuotaExceeded, "no room for a connection")
}

fn no_address() -> io::Error {
    io::Error::new(io::ErrorKind::NotFound, "the name has no address")
}

impl<'a, R: Net + Clock> MioWires<'a, R> {
    /// Listens at this address and port. If that can't be, `start_error` tells why.
    pub fn listen(
        rt: &'a R,
        alloc: Global,
        address: IpAddr,
        port: u16,
    ) -> Result<MioWires<'a, R>, AllocError>
        ensures { IfOk result IsAtStart }
    {
        let opened = Opened::listening(rt, SocketAddr::new(address, port));
        MioWires::start(rt, alloc, opened)
    }

    /// Listens nowhere: `accept` answers `None`.
    pub fn dialing(rt: &'a R, alloc: Global) -> Result<MioWires<'a, R>, AllocError>
        ensures { IfOk result IsAtStart }
    {
        let opened = Opened::dialing(rt);
        MioWires::start(rt, alloc, opened)
    }

    fn start(
        rt: &'a R,
        alloc: Global,
        opened: io::Result<Opened>,
    ) -> Result<MioWires<'a, R>, AllocError>
        ensures { IfOk result IsAtStart }
    {
        Ok(MioWires {
            rt,
            opened,
            events: Events::with_capacity(alloc, EVENTS)?,
            table: Table::start(alloc)?,
            endings: Endings::start(alloc)?,
            incoming: Incoming::Quiet,
            eager_polls: 0,
            unasked: 0,
            moment: 0,
            connect_error: None,
            faults: 0,
        })
    }

    /// Why the port can't be had, or why the system has no poll. Each `poll`, `accept` and `connect` fails then.
    pub fn start_error(&self) -> Option<&io::Error>
        ensures { option_copied result ≡ start_error self.now }
    {
        match &self.opened {
            Ok(_) => None,
            Err(error) => Some(error),
        }
    }

    /// Why the last connection failed that is known to have failed: the error of its `connect`, or of the read or write on its wire that
    /// was the first to give, take or fail. `None` if none failed yet, or one that was begun by `connect` is known to be made since: a read
    /// gave bytes or an end there, or a write took some.
    pub fn connect_error(&self) -> Option<&io::Error>
        ensures { option_copied result ≡ connect_error self.now }
    {
        self.connect_error.as_ref()
    }

    /// Where it listens: with the port that the system gave, if it was asked for any. `None` if it listens nowhere.
    pub fn address(&self) -> Option<SocketAddr> {
        let listener = self.opened.as_ref().ok()?.listener.as_ref()?;
        listener.local_addr().ok()
    }

    /// Fails this call.
    fn fail(&mut self) -> Failed
        ensures others_unchanged { self.new ≡ record self.old { faults = self.new.faults } }
        ensures never_falls { wires_faults self.old ≤ wires_faults self.new }
        ensures rises { Rose (wires_faults self.old) (wires_faults self.new) }
    {
        self.faults = self.faults.saturating_add(1);
        Failed
    }

    /// How many of `wait` milliseconds may be waited for an event.
    fn wait_for(&self, wait: u64) -> u64
        ensures { result ≤ wait }
    {
        if self.eager_polls > 0 && self.table.has_readable() {
            return 0;
        }
        let wait = self.endings.wait_for(wait, self.moment);
        if self.table.has_room() {
            self.incoming.wait_for(wait, self.moment)
        } else {
            wait
        }
    }

    /// Whether the system is asked for events: not in a poll that doesn't wait, but for each so many.
    fn must_ask(&mut self, wait: u64) -> bool
        ensures { self.new ≡ record self.old { unasked = self.new.unasked } }
    {
        if wait == 0 && self.unasked < MOST_UNASKED {
            self.unasked += 1;
            return false;
        }
        self.unasked = 0;
        true
    }

    /// Waits for events, and takes them. The answer is whether there were any.
    fn take_events(&mut self, wait: u64) -> io::Result<bool>
        ensures others_unchanged { IsStill self.old self.new }
        ensures wires { wires_bound self.new ≡ wires_bound self.old }
    {
        let opened = match &mut self.opened {
            Ok(opened) => opened,
            Err(error) => return Err(*error),
        };
        opened
            .poll
            .poll(&mut self.events, Some(Duration::from_millis(wait)))?;
        self.incoming = dispatch(&self.events, &mut self.table, self.incoming);
        Ok(self.events.iter().next().is_some())
    }

    /// The instant that is moment 0: that of the first poll.
    fn start_instant(&mut self) -> io::Result<Instant>
        ensures others_unchanged { IsStill self.old self.new }
        ensures wires { wires_bound self.new ≡ wires_bound self.old }
    {
        match &mut self.opened {
            Ok(opened) => opened.start_instant(self.rt),
            Err(error) => Err(*error),
        }
    }

    /// The milliseconds since the start, which never fall.
    fn read_clock(&self, start: Instant) -> io::Result<u64>
        ensures { IfOk result (λ now. wires_moment self.now ≤ now) }
    {
        let elapsed = Instant::now(self.rt)?.duration_since(start);
        let millis = u64::try_from(elapsed.as_millis()).unwrap_or(u64::MAX);
        Ok(millis.max(self.moment))
    }

    /// Closes the wires that were shut and whose moment has come.
    fn close_due(&mut self)
        ensures others_unchanged { IsStill self.old self.new }
        ensures wires { wires_bound self.new ≡ wires_bound self.old }
    {
        if self.endings.close_due(self.moment, &mut self.table) {
            self.incoming = self.incoming.after_close();
        }
        self.incoming = self.incoming.at(self.moment);
    }

    /// Takes a connection that waits, if one does and there is room for it.
    fn take_connection(&mut self) -> io::Result<Option<u64>>
        ensures fresh { IfOk result (IsNewWire (wires_bound self.old) (wires_bound self.new)) }
        ensures err { OnErr result (wires_bound self.new ≡ wires_bound self.old) }
        ensures others_unchanged { IsStill self.old self.new }
    {
        let opened = self.opened.as_ref().map_err(|error| *error)?;
        let Some(listener) = &opened.listener else {
            return Ok(None);
        };
        if self.incoming != Incoming::Waiting || !self.table.has_room() {
            return Ok(None);
        }
        match listener.accept() {
            Ok((stream, _)) => {
                let _ = stream.set_nodelay(true);
                Ok(self.table.add(opened.poll.registry(), stream, true))
            }
            Err(error) => {
                let refusal = refusal_of(&error);
                if refusal == Refusal::NoRoom && self.turn_away() {
                    return Ok(None);
                }
                self.incoming = self.incoming.after_refusal(refusal, self.moment);
                if refusal == Refusal::Broken {
                    return Err(error);
                }
                Ok(None)
            }
        }
    }

    /// Shuts the connection that waits longest, for which the system has no descriptor. The answer is whether it could.
    fn turn_away(&mut self) -> bool
        ensures others_unchanged { IsStill self.old self.new }
        ensures wires { wires_bound self.new ≡ wires_bound self.old }
    {
        match &mut self.opened {
            Ok(opened) => opened.turn_away(),
            Err(_) => false,
        }
    }

    /// Begins a connection.
    fn dial(&mut self, host: &str, port: u16) -> io::Result<u64>
        ensures fresh { IfOk result (λ wire. IsNewWire (wires_bound self.old) (wires_bound self.new) (Some wire)) }
        ensures err { OnErr result (wires_bound self.new ≡ wires_bound self.old) }
        ensures others_unchanged { IsStill self.old self.new }
    {
        let opened = self.opened.as_ref().map_err(|error| *error)?;
        if !self.table.has_room() {
            return Err(no_room());
        }
        let Some(address) = (host, port).to_socket_addrs(self.rt)?.next() else {
            return Err(no_address());
        };
        let stream = TcpStream::connect(self.rt, address)?;
        let _ = stream.set_nodelay(true);
        match self.table.add(opened.poll.registry(), stream, false) {
            Some(wire) => Ok(wire),
            None => Err(no_room()),
        }
    }

    /// Notes what a call on this wire found of the connection there, if it was connecting before and isn't any more.
    fn note_connection(&mut self, wire: u64, was_connecting: bool, error: Option<io::Error>)
        ensures others_unchanged { self.new ≡ record self.old { connect_error = self.new.connect_error } }
        ensures noted { (connect_error self.new ≡ connect_error self.old) ⊎ (connect_error self.new ≡ error) }
    {
        if was_connecting && !self.table.is_connecting(wire) {
            self.connect_error = error;
        }
    }
}

impl<'a, R: Net + Clock> Wires for MioWires<'a, R> {
    ghost moment = { λ w. w.moment };

    ghost wires = { λ w. w.table };

    ghost faults = { λ w. w.faults };

    /// Moment 0 is when the first poll begins, so what is done before it, such as the reading of a script, takes no time.
    fn poll(&mut self, wait: u64) -> Result<u64, Failed> {
        let Ok(start) = self.start_instant() else {
            return Err(self.fail());
        };
        self.close_due();
        let eager_polls = if wait > 0 {
            self.eager_polls.saturating_sub(1)
        } else {
            self.eager_polls
        };
        let wait = self.wait_for(wait);
        let mut is_told = false;
        if self.must_ask(wait) {
            // Events that are taken before this fails aren't told again.
            self.eager_polls = EAGER_POLLS;
            match self.take_events(wait) {
                Ok(told) => is_told = told,
                Err(_) => return Err(self.fail()),
            }
        }
        let Ok(now) = self.read_clock(start) else {
            return Err(self.fail());
        };
        if !is_told {
            self.eager_polls = eager_polls;
        }
        self.moment = now;
        self.close_due();
        Ok(now)
    }

    fn accept(&mut self) -> Result<Option<u64>, Failed> {
        match self.take_connection() {
            Ok(wire) => Ok(wire),
            Err(_) => {
                self.eager_polls = EAGER_POLLS;
                Err(self.fail())
            }
        }
    }

    /// Looks the name up, which may wait for the system's resolver, and begins to connect to its first address.
    fn connect(&mut self, host: &str, port: u16) -> Result<u64, Failed>
        ensures fresh { IsNewWire (wires_bound self.old) (wires_bound self.new) (connected_wire result) }
        ensures others_unchanged { wires_moment self.new ≡ wires_moment self.old }
        ensures cause { HasCause (wires_faults self.old) (wires_faults self.new) result }
        ensures why { MatchResult result (λ _. connect_error self.new ≡ connect_error self.old) (λ _. IsSome (connect_error self.new)) }
    {
        match self.dial(host, port) {
            Ok(wire) => Ok(wire),
            Err(error) => {
                self.connect_error = Some(error);
                Err(self.fail())
            }
        }
    }

    fn read(&mut self, wire: u64, buf: &mut [u8]) -> Result<WireRead, Failed>
        ensures count { IfOk result (λ read. CountsWithin read (length buf.new)) }
        ensures wires { wires_bound self.new ≡ wires_bound self.old }
        ensures others_unchanged { wires_moment self.new ≡ wires_moment self.old }
        ensures cause { HasCause (wires_faults self.old) (wires_faults self.new) result }
        ensures why { Finds result self.old self.new }
    {
        let was_connecting = self.table.is_connecting(wire);
        let read = self.table.read_wire(wire, buf);
        self.note_connection(wire, was_connecting, read.err());
        match read {
            Ok(WireRead::Some(count)) => {
                self.eager_polls = EAGER_POLLS;
                Ok(WireRead::Some(count))
            }
            Ok(WireRead::NotYet) => Ok(WireRead::NotYet),
            Ok(WireRead::Ended) => Ok(WireRead::Ended),
            Err(_) => Err(self.fail()),
        }
    }

    fn write(&mut self, wire: u64, bytes: &[u8]) -> Result<usize, Failed>
        ensures count { IfOk result (λ count. count ≤ length bytes.now) }
        ensures wires { wires_bound self.new ≡ wires_bound self.old }
        ensures others_unchanged { wires_moment self.new ≡ wires_moment self.old }
        ensures cause { HasCause (wires_faults self.old) (wires_faults self.new) result }
        ensures why { Finds result self.old self.new }
    {
        let was_connecting = self.table.is_connecting(wire);
        let written = self.table.write_wire(wire, bytes);
        self.note_connection(wire, was_connecting, written.err());
        match written {
            Ok(count) => Ok(count),
            Err(_) => Err(self.fail()),
        }
    }

    fn shut(&mut self, wire: u64) {
        match self.table.shut_wire(wire) {
            Shut::Absent => return,
            Shut::Closed => self.incoming = self.incoming.after_close(),
            Shut::Ending => self.endings.add(wire, self.moment, &mut self.table),
        }
        self.eager_polls = EAGER_POLLS;
    }

    /// A wire on which no event told of anything that is still to be read answers a read with `NotYet`, without asking the system. After true no
    /// wire is named for what its last read gave.
    fn none_ready(&mut self) -> bool {
        if self.table.has_readable() {
            return false;
        }
        self.table.forget_ready();
        true
    }

    fn ready_after(&self, wire: u64) -> Option<u64> {
        self.table.next_ready(wire)
    }
}
