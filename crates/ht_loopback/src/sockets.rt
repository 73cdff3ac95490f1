//! Doors and dialers over the sockets of the loopback address.

use ht_kit::Stop;
use hv_value::Text;
use hw_door::{Address, DoorError};
use hw_mio::MioWires;
use hw_net::{NetDialer, NetDoor};
use std::alloc::{AllocError, Global};
use std::net::{IpAddr, Ipv4Addr};

const HERE: IpAddr = IpAddr::V4(Ipv4Addr::LOCALHOST);

/// The path of the hub.
pub const BASE: &str = "/hub";

/// A door at a port that is free, and the port.
pub fn door_at<'a>(
    rt: &'a HostRuntime,
    alloc: Global,
) -> Result<(NetDoor<MioWires<'a, HostRuntime>>, u16), Stop> {
    let wires = MioWires::listen(rt, alloc, HERE, 0)?;
    let Some(address) = wires.address() else {
        return Err(Stop::Failed);
    };
    Ok((NetDoor::start(alloc, wires), address.port()))
}

/// A dialer of this port alone.
pub fn dialer_of<'a>(
    rt: &'a HostRuntime,
    alloc: Global,
    port: u16,
) -> Result<NetDialer<MioWires<'a, HostRuntime>>, Stop> {
    let mut addresses = Vec::new(alloc);
    addresses.push(address_of(alloc, port)?)?;
    let wires = MioWires::dialing(rt, alloc)?;
    Ok(NetDialer::start(alloc, wires, addresses))
}

/// The hub at this port.
pub fn address_of(alloc: Global, port: u16) -> Result<Address, AllocError> {
    Ok(Address {
        host: Text::of(alloc, "127.0.0.1")?,
        port,
        base: Text::of(alloc, BASE)?,
        token: None,
    })
}

pub fn stop_of(error: DoorError) -> Stop {
    match error {
        DoorError::Failed => Stop::Failed,
        DoorError::NoMemory => Stop::NoMemory,
    }
}
