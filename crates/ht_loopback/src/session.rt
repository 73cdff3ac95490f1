//! A server and a client of hubs over sockets, whose turns alternate.

use crate::sockets::{BASE, address_of, dialer_of, door_at};
use hd_server::LiveLimit;
use hk_keeper::MemoryKeeper;
use hm_message::Codec;
use ht_kit::{Stop, as_text};
use hub_demo::ServeHub;
use hub_server::{ResendLimits, ServeFault, Server, serve};
use hv_value::Text;
use hw_door::{Dialer, RandLots};
use hw_io::MemorySink;
use hw_mio::MioWires;
use hw_net::NetDoor;
use sr_client::{Client, ClientError, ClientScript, ScriptError, parse};
use std::alloc::Global;

/// How many bytes a client may print.
const ROOM: usize = 100_000;

/// A server, and what it stands on.
#[derive(Drop)]
struct Served<'a> {
    alloc: Global,
    server: Server<ServeHub>,
    hub: ServeHub,
    keeper: MemoryKeeper,
    lots: RandLots<'a, HostRuntime>,
    door: NetDoor<MioWires<'a, HostRuntime>>,
}

impl<'a> Served<'a> {
    fn start(
        rt: &'a HostRuntime,
        alloc: Global,
        door: NetDoor<MioWires<'a, HostRuntime>>,
    ) -> Result<Served<'a>, Stop> {
        let base = Text::of(alloc, BASE)?;
        Ok(Served {
            alloc,
            server: Server::start(alloc, base, ResendLimits::usual(), LiveLimit::usual())?,
            hub: ServeHub::new(),
            keeper: MemoryKeeper::start(alloc, Vec::new(alloc), Vec::new(alloc))?,
            lots: RandLots::new(rt),
            door,
        })
    }

    /// One event.
    fn turn(&mut self) -> Result<(), Stop> {
        let served = serve(
            self.alloc,
            &mut self.server,
            &self.hub,
            &mut self.door,
            &mut self.keeper,
            &mut self.lots,
            1,
        );
        match served {
            Ok(()) => Ok(()),
            Err(ServeFault::Door) => Err(Stop::Failed),
            Err(ServeFault::NoMemory) => Err(Stop::NoMemory),
        }
    }
}

fn script_of(alloc: Global, orders: &[u8]) -> Result<ClientScript, Stop> {
    match parse(alloc, orders) {
        Ok(script) => Ok(script),
        Err(ScriptError::Line(_)) => Err(Stop::Refused),
        Err(ScriptError::NoMemory) => Err(Stop::NoMemory),
    }
}

/// The lines that a client of this script prints in so many turns at most, and how it ends.
pub fn session(
    rt: &HostRuntime,
    alloc: Global,
    orders: &[u8],
    codec: Codec,
    turns: u64,
) -> Result<String, Stop> {
    let script = script_of(alloc, orders)?;
    let (door, port) = door_at(rt, alloc)?;
    let mut served = Served::start(rt, alloc, door)?;
    let address = address_of(alloc, port)?;
    let limits = ResendLimits::usual().limits();
    let mut client = Client::start(alloc, script, &address, codec, limits)?;
    let mut dialer = dialer_of(rt, alloc, port)?;
    let mut lots = RandLots::new(rt);
    let mut out = MemorySink::start(alloc, ROOM, Vec::new(alloc))?;
    for _turn in 0..turns {
        served.turn()?;
        let turned = client.turn(alloc, &mut dialer, &mut lots, &mut out);
        // What was said goes out before the server waits.
        dialer.flush();
        match turned {
            Ok(false) => {}
            Ok(true) => return ended(alloc, out.bytes(), "done"),
            Err(ClientError::NoMemory) => return Err(Stop::NoMemory),
            Err(why) => {
                let why = format!(in alloc; "{why}")?;
                return ended(alloc, out.bytes(), &why);
            }
        }
    }
    ended(alloc, out.bytes(), "the turns were done first")
}

fn ended(alloc: Global, printed: &[u8], how: &str) -> Result<String, Stop> {
    let printed = as_text(printed);
    Ok(format!(in alloc; "{printed}end {how}")?)
}
