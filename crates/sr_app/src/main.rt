//! The program `sr`: it replays scripts over two ends, records them and judges traces, checks and converts frames of messages, serves hubs, is a
//! client of them, and adds users to a store.
#![tactic(auto)]

mod run;
mod store;

use crate::run::{Status, run};
use hd_server::LiveLimit;
use hk_keeper::{Keeper, MemoryKeeper};
use hk_latest::LatestKeeper;
use hv_value::Text;
use hw_door::{Address, Dialer, Door, MemoryDialer, MemoryDoor, RandLots, Wires};
use hw_io::{StdSink, StdSource};
use hw_mio::MioWires;
use hw_net::{NetDialer, NetDoor};
use libc::types::rlimit;
use libc::{RLIMIT_NOFILE, getrlimit};
use sr_words::{Settings, WordsError, complaint, settings};
use std::alloc::{AllocError, Global};
use std::net::{IpAddr, SocketAddr};
use std::process::ExitCode;
use std::{env, io};

/// How many descriptors a server has beside those of its live connections: of its input and output, its listener, and lanes that begin
/// or end.
const OTHER_DESCRIPTORS: u64 = 64;

/// How long what a client said last may take to be written, in milliseconds.
const LAST_WRITES: u64 = 2_000;

/// Where a server listens, the path of its hub, and how many connections live there at most.
#[derive(Drop)]
struct Place {
    address: SocketAddr,
    base: Text,
    live: LiveLimit,
}

/// The words of the command line, without the program's name. Where one of them isn't UTF-8 they are no command, as
/// if there were none.
fn words(rt: &HostRuntime) -> Result<Vec<String>, AllocError> {
    match env::args(rt) {
        Ok(args) => args.skip(1).collect(rt.alloc()),
        Err(e) if e.kind() == io::ErrorKind::OutOfMemory => Err(AllocError),
        Err(_) => Ok(Vec::new(rt.alloc())),
    }
}

/// Says on standard error if the system lets the program have fewer descriptors than so many live connections take.
fn warn_of_descriptors(rt: &HostRuntime, live: u64) {
    let mut limit = rlimit {
        rlim_cur: 0,
        rlim_max: 0,
    };
    if getrlimit(RLIMIT_NOFILE, &mut limit) != 0 {
        return;
    }
    let count = limit.rlim_cur;
    if count.saturating_sub(OTHER_DESCRIPTORS) < live {
        let _ = eprintln!(rt;
            "sr: {count} descriptors are few for {live} live connections: raise the limit (ulimit -n)"
        );
    }
}

/// Runs `serve` over the sockets of this place and this keeper. Where it listens is written on standard error or, if the port can't be had,
/// the reason.
fn run_at<R: Keeper>(
    rt: &HostRuntime,
    words: &[String],
    place: &Place,
    keeper: &mut R,
) -> Result<u8, AllocError> {
    let alloc = rt.alloc();
    let wires = MioWires::listen(rt, alloc, place.address.ip(), place.address.port())?;
    if let Some(address) = wires.address() {
        let _ = eprintln!(rt; "sr: listening on http://{address}{}", place.base.as_str());
        warn_of_descriptors(rt, place.live.most());
    }
    let mut door = NetDoor::start(alloc, wires);
    let status = run_over(rt, words, &mut door, &mut undialed(alloc), keeper);
    if status == Status::DoorFault.code()
        && let Some(why) = door.wires().start_error()
    {
        let _ = eprintln!(rt; "sr: {}: {why}", place.address);
    }
    Ok(status)
}

/// The URL of this address, without its token.
fn url_of(alloc: Global, address: &Address) -> Result<String, AllocError> {
    let (host, port, base) = (address.host.as_str(), address.port, address.base.as_str());
    // An IPv6 address alone has colons.
    if host.contains(':') {
        return format!(in alloc; "http://[{host}]:{port}{base}");
    }
    format!(in alloc; "http://{host}:{port}{base}")
}

/// Runs `client` over sockets that dial this address, and lets what it said last be written. If the system has no sockets for it, or the last
/// connection couldn't be made, the reason is written on standard error.
fn run_dialing(rt: &HostRuntime, words: &[String], address: Address) -> Result<u8, AllocError> {
    let alloc = rt.alloc();
    let url = url_of(alloc, &address)?;
    let mut addresses = Vec::new(alloc);
    addresses.push(address)?;
    let mut dialer = NetDialer::start(alloc, MioWires::dialing(rt, alloc)?, addresses);
    let mut keeper = LatestKeeper::start(alloc);
    let status = run_over(rt, words, &mut unheard(alloc), &mut dialer, &mut keeper);
    if status == Status::DoorFault.code()
        && let Some(why) = dialer.wires().start_error()
    {
        let _ = eprintln!(rt; "sr: {why}");
    }
    if status == Status::ConnectionRefused.code()
        && let Some(why) = dialer.wires().connect_error()
    {
        let _ = eprintln!(rt; "sr: {url}: {why}");
    }
    write_rest(&mut dialer);
    Ok(status)
}

/// Hears until all that was said is written, for at most 2,000 ms. Nobody is told what is heard.
fn write_rest<W: Wires + Drop>(dialer: &mut NetDialer<W>) {
    let Ok(first) = dialer.next(0) else {
        return;
    };
    let end = first.now.saturating_add(LAST_WRITES);
    let mut left = LAST_WRITES;
    for _heard in 0..u64::MAX {
        if left == 0 || !dialer.has_unwritten() {
            return;
        }
        match dialer.next(left) {
            Ok(heard) => left = end.saturating_sub(heard.now),
            Err(_) => return,
        }
    }
}

/// A door at which nothing is heard.
fn unheard(alloc: Global) -> MemoryDoor {
    MemoryDoor::start(Vec::new(alloc), Vec::new(alloc), Vec::new(alloc))
}

/// A dialer at which nothing is heard.
fn undialed(alloc: Global) -> MemoryDialer {
    MemoryDialer::start(Vec::new(alloc), Vec::new(alloc), Vec::new(alloc))
}

/// A keeper whose first call fails.
fn failing(alloc: Global) -> Result<MemoryKeeper, AllocError> {
    MemoryKeeper::start(alloc, Vec::new(alloc), vec![in alloc; 0]?)
}

/// Runs a command over this door, this dialer, this keeper, and the input, the output and the lots of the system.
fn run_over<D: Door, C: Dialer, R: Keeper>(
    rt: &HostRuntime,
    words: &[String],
    door: &mut D,
    dialer: &mut C,
    keeper: &mut R,
) -> u8 {
    let mut input = StdSource::new(rt.stdin());
    let mut out = StdSink::new(rt.stdout());
    let mut lots = RandLots::new(rt);
    run(
        rt.alloc(),
        words,
        &mut input,
        &mut out,
        door,
        dialer,
        keeper,
        &mut lots,
    )
}

/// Writes on standard error what is wrong with the words, which are no command.
fn complain(rt: &HostRuntime, words: &[String]) -> Result<(), AllocError> {
    let complaint = complaint(rt.alloc(), words)?;
    let _ = eprintln!(rt; "sr: {complaint}");
    Ok(())
}

/// Makes what the words ask for: sockets for `serve` and for `client`, a store where one is named, and else what hears nothing and keeps
/// the latest rows alone.
fn run_words(rt: &HostRuntime) -> Result<u8, AllocError> {
    let alloc = rt.alloc();
    let words = words(rt)?;
    match settings(alloc, &words) {
        Ok(settings) => run_settings(rt, &words, settings),
        Err(WordsError::NoCommand) => {
            complain(rt, &words)?;
            Ok(run_unheard(rt, &words, &mut LatestKeeper::start(alloc)))
        }
        Err(WordsError::NoMemory) => Err(AllocError),
    }
}

/// Runs a command with these settings: `client` has an address, `serve` all the others, `user` a store alone, and every other command none.
fn run_settings(rt: &HostRuntime, words: &[String], settings: Settings) -> Result<u8, AllocError> {
    let Settings {
        port,
        base,
        listen,
        live,
        address,
        store,
    } = settings;
    if let Some(address) = address {
        return run_dialing(rt, words, address);
    }
    let place = place_of(port, base, listen, live);
    match store {
        Some(path) => run_stored(rt, words, place, path.as_str()),
        None => run_kept(rt, words, place, &mut LatestKeeper::start(rt.alloc())),
    }
}

/// The place of `serve`, which has all of these settings.
fn place_of(
    port: Option<u16>,
    base: Option<Text>,
    listen: Option<IpAddr>,
    live: Option<LiveLimit>,
) -> Option<Place> {
    let address = SocketAddr::new(listen?, port?);
    Some(Place {
        address,
        base: base?,
        live: live?,
    })
}

/// Runs a command over the users and rows in the file at this path, and closes it, however the command ended. If it can't be opened, nothing
/// is heard, and the keeper fails.
fn run_stored(
    rt: &HostRuntime,
    words: &[String],
    place: Option<Place>,
    path: &str,
) -> Result<u8, AllocError> {
    let Some(mut keeper) = store::open(rt, path)? else {
        return Ok(run_unheard(rt, words, &mut failing(rt.alloc())?));
    };
    let status = run_kept(rt, words, place, &mut keeper);
    store::close(rt, path, keeper);
    status
}

/// Runs a command over this keeper and, if it has a place, over the sockets of that.
fn run_kept<R: Keeper>(
    rt: &HostRuntime,
    words: &[String],
    place: Option<Place>,
    keeper: &mut R,
) -> Result<u8, AllocError> {
    match place {
        Some(place) => run_at(rt, words, &place, keeper),
        None => Ok(run_unheard(rt, words, keeper)),
    }
}

/// Runs a command over this keeper, and a door and a dialer at which nothing is heard.
fn run_unheard<R: Keeper>(rt: &HostRuntime, words: &[String], keeper: &mut R) -> u8 {
    let alloc = rt.alloc();
    run_over(rt, words, &mut unheard(alloc), &mut undialed(alloc), keeper)
}

fn main(rt: HostRuntime) -> ExitCode {
    match run_words(&rt) {
        Ok(status) => ExitCode::from(status),
        Err(AllocError) => ExitCode::from(Status::NoMemory.code()),
    }
}
