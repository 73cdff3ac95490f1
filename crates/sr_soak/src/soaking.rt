//! A soak: two peers that do what the numbers of a seed say, and the line of what that came to.

ghost use Rattle.std.specs.Prelude.{◌≡◌, ◌≢◌, ℕ, List, [], ◌∷◌, suc, IfOk, OnOk, Err, take};
ghost use Rattle.std.specs.Io.KnownBytes.{Appends};
ghost use Rattle.hd_facts.specs.Counts.{one_more};
ghost use Rattle.hd_calls.specs.PeerWorlds.{Pair};
ghost use Rattle.sr_script.specs.declared.action.Action.{Action};
ghost use Rattle.sr_script.specs.Script.{opened};
ghost use Rattle.sr_peers.specs.Runs.{Run, world_of};
ghost use Rattle.sr_peers.specs.Follows.{Follows, IsOfPeers};
ghost use Rattle.sr_soak.specs.Recipe.{drawn_script, most_turns, opening, whole_script};
ghost use Rattle.sr_soak.specs.Counts.{AreTotals, HaveNoUploads};
ghost use Rattle.sr_soak.specs.Soaks.{IsSoak, soak_line};
ghost use Rattle.sr_soak.specs.Steps.{AreOfPeers, actions_of};
ghost use Rattle.sr_soak.specs.Plays.{Adds, HasDrawn, HasTurn, HasTurned, IsOver, Reaches};

use crate::draws::Draws;
use crate::recipe::{Step, drawn_step, new_link};
use crate::totals::Totals;
use hd_delivery::Side;
use hw_io::{Failed, Sink};
use sr_peers::Peers;
use sr_replay::{ReplayError, usual};
use sr_script::{Action, Count};
use std::alloc::{AllocError, Global};

/// How many bytes are read at a time in a turn of the closing.
const PIECE: u64 = 1_024;

/// So many turns are done at most, and more for each step.
const MOST_TURNS: u64 = 64;

const TURNS_A_STEP: u64 = 16;

/// Does an action. Nobody reads its lines.
fn act(
    alloc: Global,
    action: Action,
    peers: &mut Peers,
    report: &mut Vec<u8>,
) -> Result<(), AllocError>
    requires { IsOfPeers action }
    ensures { OnOk result (Adds (action ∷ []) peers.old peers.new) }
{
    report.clear();
    peers.act(alloc, action, report)
}

/// Does one or two actions.
fn take_step(
    alloc: Global,
    step: Step,
    peers: &mut Peers,
    report: &mut Vec<u8>,
) -> Result<(), AllocError>
    requires { AreOfPeers step }
    ensures { OnOk result (Adds (actions_of step) peers.old peers.new) }
{
    let Step { first, second } = step;
    act(alloc, first, peers, report)?;
    match second {
        Some(action) => act(alloc, action, peers, report),
        None => Ok(()),
    }
}

/// Opens the first link, and shakes hands on it.
fn open(alloc: Global, peers: &mut Peers, report: &mut Vec<u8>) -> Result<(), AllocError>
    ensures { OnOk result (Reaches [] peers.old → Reaches opening peers.new) }
{
    take_step(alloc, new_link(0), peers, report)?;
    let all = Count::Everything;
    act(alloc, Action::Write(Side::Client, all), peers, report)?;
    act(alloc, Action::Read(Side::Server, all), peers, report)?;
    act(alloc, Action::Write(Side::Server, all), peers, report)?;
    act(alloc, Action::Read(Side::Client, all), peers, report)
}

/// Does what the next two numbers say.
fn draw_one(
    alloc: Global,
    draws: &mut Draws,
    peers: &mut Peers,
    report: &mut Vec<u8>,
) -> Result<(), AllocError>
    ensures { OnOk result ((seed n : ℕ) → HasDrawn seed n draws.old peers.old → HasDrawn seed (suc n) draws.new peers.new) }
{
    let kind = draws.next();
    let number = draws.next();
    let step = drawn_step(alloc, kind, number, peers.links())?;
    take_step(alloc, step, peers, report)
}

/// Does so many steps that the seed draws.
fn draw_all(
    alloc: Global,
    seed: u64,
    steps: u32,
    peers: &mut Peers,
    report: &mut Vec<u8>,
) -> Result<(), AllocError>
    ensures { OnOk result (Reaches opening peers.old → Reaches (drawn_script seed steps) peers.new) }
{
    let mut draws = Draws::of(seed);
    for _drawn in 0..steps {
        draw_one(alloc, &mut draws, peers, report)?;
    }
    Ok(())
}

/// Does a turn of the closing. True exactly if it wrote, read or stepped anything.
fn turn(alloc: Global, peers: &mut Peers, report: &mut Vec<u8>) -> Result<bool, AllocError>
    ensures { IfOk result (HasTurn peers.old peers.new) }
{
    let piece = Count::UpTo(PIECE);
    report.clear();
    let wrote = peers.write(Side::Client, Count::Everything)?;
    let has_read = peers.read(alloc, Side::Server, piece, report)?;
    let stepped = peers.round(alloc, Side::Server)?;
    let wrote_back = peers.write(Side::Server, Count::Everything)?;
    let has_read_back = peers.read(alloc, Side::Client, piece, report)?;
    let stepped_back = peers.round(alloc, Side::Client)?;
    Ok(wrote | has_read | stepped | wrote_back | has_read_back | stepped_back)
}

/// Does turns until one does nothing, so many at most.
fn close(
    alloc: Global,
    most: u64,
    peers: &mut Peers,
    report: &mut Vec<u8>,
) -> Result<(), AllocError>
    ensures { OnOk result ((actions : List Action) → Reaches actions peers.old → IsOver actions most peers.new) }
{
    for _turned in 0..most {
        if !turn(alloc, peers, report)? {
            return Ok(());
        }
    }
    Ok(())
}

/// What the two peers came to, whose calls have no uploads.
fn totals(peers: &Peers) -> Totals
    ensures { (p : Pair) (actions : List Action) (r : Run) → Follows p actions r peers.entry.now → HaveNoUploads actions →
        AreTotals (world_of r) (opened actions) result }
{
    let calls = peers.drawn();
    let live = peers.live();
    Totals {
        calls,
        endings: calls.saturating_sub(live),
        live,
        links: peers.links(),
    }
}

/// What a soak comes to, by two peers that did nothing yet.
fn play(alloc: Global, seed: u64, steps: u32, peers: &mut Peers) -> Result<Totals, AllocError>
    ensures { IfOk result (λ totals. Reaches [] peers.old → IsSoak seed steps totals) }
{
    let mut report = Vec::new(alloc);
    open(alloc, peers, &mut report)?;
    draw_all(alloc, seed, steps, peers, &mut report)?;
    take_step(alloc, new_link(peers.links()), peers, &mut report)?;
    let most = MOST_TURNS + TURNS_A_STEP * u64::from(steps);
    close(alloc, most, peers, &mut report)?;
    peers.calls_once();
    Ok(totals(peers))
}

/// What a soak comes to.
fn run(alloc: Global, seed: u64, steps: u32) -> Result<Totals, AllocError>
    ensures { IfOk result (IsSoak seed steps) }
{
    let mut peers = Peers::start(alloc, usual())?;
    play(alloc, seed, steps, &mut peers)
}

/// Lets two peers do what the numbers drawn from a seed say, in so many steps, and then turns until one does nothing, so many at most. Puts
/// one line of what that came to, in one call, so nothing was written when memory runs out.
pub fn soak<K: Sink>(
    alloc: Global,
    seed: u64,
    steps: u32,
    out: &mut K,
) -> Result<Totals, ReplayError>
    ensures ok { IfOk result (λ totals. IsSoak seed steps totals × Appends (K.holds out.old) (K.holds out.new) (soak_line seed steps totals)) }
    ensures write { result ≡ Err ReplayError.Write → (K.faults out.new ≡ one_more (K.faults out.old))
        × ((totals : Totals) × (IsSoak seed steps totals × ((n : ℕ) × Appends (K.holds out.old) (K.holds out.new) (take n (soak_line seed steps totals))))) }
    ensures no_memory { result ≡ Err ReplayError.NoMemory → out.new ≡ out.old }
    ensures unfailed { result ≢ Err ReplayError.Write → K.faults out.new ≡ K.faults out.old }
{
    let totals = run(alloc, seed, steps)?;
    let Totals {
        calls,
        endings,
        live,
        links,
    } = totals;
    let line = format!(in alloc;
        "seed {seed} actions {steps} calls {calls} endings {endings} live {live} links {links}\n"
    )?;
    match out.put(line.as_bytes()) {
        Ok(()) => Ok(totals),
        Err(Failed) => Err(ReplayError::Write),
    }
}
