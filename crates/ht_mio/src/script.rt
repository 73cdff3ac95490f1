//! What a line says, and what it is answered:
//!
//! ```text
//! listen                   the far wires listen anew, at a port that is free, and the near ones dial; there are no peers then: `listens`
//! taken                    whether each call of wires fails that listen at that port too
//! leave                    the far wires are no more: `left`
//! return                   other far wires listen where those did: `listens`
//! near dial                a near wire begins to connect to the far ones: `wire PLACE`
//! near dial-all            a near wire is to connect to all hosts at once, which no connection can: `failed`
//! near why                 why a connection couldn't be made: `refused`, `unreachable`, `another reason` or `none`
//! far ..                   asks the far wires (`sides` has what), and `near ..` the near ones
//! peer ..                  asks a plain socket (`peers` has what)
//! ```
//!
//! A wire goes by its place among those of its side, from 0, and a peer by its place among the peers.

use crate::peers::Peers;
use crate::sides::Side;
use ht_kit::{Play, Stop, told};
use hw_door::Wires;
use hw_mio::MioWires;
use std::alloc::{AllocError, Global};
use std::io::ErrorKind;
use std::net::{IpAddr, Ipv4Addr};

const HERE: IpAddr = IpAddr::V4(Ipv4Addr::LOCALHOST);

const HERE_TEXT: &str = "127.0.0.1";

/// The address of a broadcast (RFC 919), where nobody has a connection.
const ALL_HOSTS: &str = "255.255.255.255";

/// The first of the ports that are tried.
const FIRST_PORT: u16 = 47_800;

/// How many ports are tried.
const PORTS: u16 = 100;

/// Wires that listen, those that dial, and the peers of either.
#[derive(Drop)]
pub struct Bench<'a> {
    rt: &'a HostRuntime,
    alloc: Global,
    port: u16,
    far: Side<MioWires<'a, HostRuntime>>,
    near: Side<MioWires<'a, HostRuntime>>,
    peers: Peers,
}

impl<'a> Bench<'a> {
    /// Nothing listens yet.
    pub fn start(rt: &'a HostRuntime, alloc: Global) -> Result<Bench<'a>, AllocError> {
        Ok(Bench {
            rt,
            alloc,
            port: 0,
            far: dialing(rt, alloc)?,
            near: dialing(rt, alloc)?,
            peers: Peers::start(alloc),
        })
    }

    fn listen(&mut self) -> Result<String, Stop> {
        self.near = dialing(self.rt, self.alloc)?;
        self.peers = Peers::start(self.alloc);
        for place in 0..PORTS {
            if self.listen_at(FIRST_PORT.saturating_add(place))? {
                return told(self.alloc, "listens");
            }
        }
        Err(Stop::Busy)
    }

    /// Whether the far wires can listen at this port.
    fn listen_at(&mut self, port: u16) -> Result<bool, Stop> {
        self.far = listening(self.rt, self.alloc, port)?;
        self.port = port;
        Ok(self.far.wires.start_error().is_none())
    }

    fn leave(&mut self) -> Result<String, Stop> {
        self.far = dialing(self.rt, self.alloc)?;
        told(self.alloc, "left")
    }

    fn come_back(&mut self) -> Result<String, Stop> {
        if self.listen_at(self.port)? {
            return told(self.alloc, "listens");
        }
        Err(Stop::Busy)
    }

    /// Whether wires that listen at the port of the far ones fail.
    fn listen_again(&self) -> Result<String, Stop> {
        let mut again = listening(self.rt, self.alloc, self.port)?;
        let outcome = outcome(&mut again.wires);
        told(self.alloc, outcome)
    }

    fn ask_near(&mut self, words: &str) -> Result<String, Stop> {
        match words {
            "dial" => self.near.dial(self.alloc, HERE_TEXT, self.port),
            "dial-all" => self.near.dial(self.alloc, ALL_HOSTS, self.port),
            "why" => told(self.alloc, why(&self.near.wires)),
            _ => self.near.ask(self.alloc, words),
        }
    }
}

/// Wires that only dial.
fn dialing(rt: &HostRuntime, alloc: Global) -> Result<Side<MioWires<'_, HostRuntime>>, AllocError> {
    Ok(Side::start(alloc, MioWires::dialing(rt, alloc)?))
}

/// Wires that listen at this port.
fn listening(
    rt: &HostRuntime,
    alloc: Global,
    port: u16,
) -> Result<Side<MioWires<'_, HostRuntime>>, AllocError> {
    Ok(Side::start(alloc, MioWires::listen(rt, alloc, HERE, port)?))
}

/// Whether each call of wires fails that couldn't be started.
fn outcome(wires: &mut MioWires<'_, HostRuntime>) -> &'static str {
    if wires.start_error().is_none() {
        return "no error at the start";
    }
    match (wires.poll(0), wires.accept()) {
        (Err(_), Err(_)) => "start, poll and accept fail",
        _ => "a call goes on",
    }
}

/// Why a connection couldn't be made, if none was made since.
fn why(wires: &MioWires<'_, HostRuntime>) -> &'static str {
    let Some(error) = wires.connect_error() else {
        return "none";
    };
    match error.kind() {
        ErrorKind::ConnectionRefused => "refused",
        ErrorKind::NetworkUnreachable => "unreachable",
        _ => "another reason",
    }
}

impl<'a> Play for Bench<'a> {
    fn carry_out(&mut self, line: &str) -> Result<String, Stop> {
        match line.split_once(' ') {
            Some(("far", words)) => self.far.ask(self.alloc, words),
            Some(("near", words)) => self.ask_near(words),
            Some(("peer", words)) => self.peers.ask(self.rt, self.alloc, self.port, words),
            None if line == "listen" => self.listen(),
            None if line == "taken" => self.listen_again(),
            None if line == "leave" => self.leave(),
            None if line == "return" => self.come_back(),
            _ => Err(Stop::Refused),
        }
    }
}
