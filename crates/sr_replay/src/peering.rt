//! A script with peers, replayed over two real peers: its run, and the report of it.

ghost use Rattle.std.specs.Prelude.{◌≡◌, IfOk, OnOk};
ghost use Rattle.hs_shake.specs.Requests.{IsVersion};
ghost use Rattle.sr_script.specs.Script.{Program, Parses, opened};
ghost use Rattle.sr_peers.specs.Report.{IsReport};
ghost use Rattle.sr_replay.specs.Replays.{Begins};
ghost use Rattle.sr_replay.specs.WithPeers.{IsWithPeers, IsForPeers, PeersObey, PeersActAll, AreBegun};

use crate::told::Told;
use he_end::Config;
use he_wire::has_wire;
use sr_peers::Peers;
use sr_script::{Asked, Reader, Script, settings_come_first};
use std::alloc::{AllocError, Global};

/// Does what a line asks for, once the options are known, and reports it.
fn obey(
    alloc: Global,
    asked: Asked,
    peers: &mut Peers,
    report: &mut Vec<u8>,
) -> Result<(), AllocError>
    requires { IsForPeers asked }
    ensures { OnOk result (PeersObey peers.old asked peers.new report.old.items report.new.items) }
{
    match asked {
        Asked::Setting(_) => Ok(()),
        Asked::Action(action) => peers.act(alloc, action, report),
    }
}

/// Does the actions of a script with peers, with two peers that did nothing yet, and reports them.
fn act_all(
    alloc: Global,
    script: &Script,
    peers: &mut Peers,
    report: &mut Vec<u8>,
) -> Result<(), AllocError>
    requires { IsWithPeers script.now }
    ensures { OnOk result ((p : Program) → Parses script.now p → PeersActAll peers.old p.actions peers.new report.old.items report.new.items) }
{
    settings_come_first();
    // The text of a script is one.
    let _ = script.text();
    let mut reader = Reader::start(alloc);
    loop {
        match reader.next_in(alloc, script)? {
            Some(asked) => obey(alloc, asked, peers, report)?,
            None => return Ok(()),
        }
    }
}

/// What is told of a script with peers, by two peers that did nothing yet.
fn tell_by(alloc: Global, script: &Script, peers: &mut Peers) -> Result<Told, AllocError>
    requires { IsWithPeers script.now }
    ensures { IfOk result (λ told. (p : Program) → Parses script.now p → AreBegun p peers.old → IsReport p told.report.items × (told.links ≡ opened p.actions)) }
{
    has_wire();
    let mut report = Vec::new(alloc);
    act_all(alloc, script, peers, &mut report)?;
    let links = peers.links();
    peers.finish(alloc, &mut report)?;
    Ok(Told { report, links })
}

/// What is told of a script with peers that are begun so.
pub(crate) fn tell(alloc: Global, config: Config, script: &Script) -> Result<Told, AllocError>
    requires spoken { IsVersion config.version }
    requires peers { IsWithPeers script.now }
    ensures { IfOk result (λ told. (p : Program) → Parses script.now p → Begins p.settings config →
        IsReport p told.report.items × (told.links ≡ opened p.actions)) }
{
    let mut peers = Peers::start(alloc, config)?;
    tell_by(alloc, script, &mut peers)
}
