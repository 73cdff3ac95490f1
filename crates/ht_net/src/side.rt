//! The side that lines speak to: a door or a dialer, over the same wires. Here is what both are asked.

use crate::named::NamedWires;
use hw_door::{Dialer, Door, DoorError, Heard};
use hw_net::{NetDialer, NetDoor};

#[derive(Drop)]
pub enum Side {
    Door(NetDoor<NamedWires>),
    Dialer(NetDialer<NamedWires>),
}

impl Side {
    pub fn wires(&self) -> &NamedWires {
        match self {
            Side::Door(door) => door.wires(),
            Side::Dialer(dialer) => dialer.wires(),
        }
    }

    pub fn next(&mut self, wait: u64) -> Result<Heard, DoorError> {
        match self {
            Side::Door(door) => door.next(wait),
            Side::Dialer(dialer) => dialer.next(wait),
        }
    }

    pub fn send(&mut self, lane: u64, bytes: &[u8], is_text: bool) -> Result<bool, DoorError> {
        match self {
            Side::Door(door) => door.send(lane, bytes, is_text),
            Side::Dialer(dialer) => dialer.send(lane, bytes, is_text),
        }
    }

    pub fn shut(&mut self, lane: u64) -> Result<(), DoorError> {
        match self {
            Side::Door(door) => door.shut(lane),
            Side::Dialer(dialer) => dialer.shut(lane),
        }
    }

    pub fn flush(&mut self) {
        match self {
            Side::Door(door) => door.flush(),
            Side::Dialer(dialer) => dialer.flush(),
        }
    }
}
