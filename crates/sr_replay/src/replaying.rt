//! A script, replayed: over two real ends here, or over two peers, and the report of it put.

ghost use Rattle.std.specs.Prelude.{◌≡◌, ◌≢◌, ℕ, List, [], ◌∷◌, IfOk, OnOk, Err, take};
ghost use Rattle.std.specs.Io.KnownBytes.{Appends};
ghost use Rattle.hd_facts.specs.Counts.{one_more};
ghost use Rattle.hd_facts.specs.Unique.{IsTheOne};
ghost use Rattle.sr_notation.specs.declared.setting.Setting.{Setting};
ghost use Rattle.sr_notation.specs.Settings.{IsSetting};
ghost use Rattle.sr_script.specs.Script.{Program, Parses, opened};
ghost use Rattle.sr_notation.specs.Terms.{peers_in};
ghost use Rattle.sr_replay.specs.declared.text_kind.TextKind.TheVariants as kinds;
ghost use Rattle.sr_replay.specs.Report.{IsReport, IsReportOf};
ghost use Rattle.sr_replay.specs.Replays.{Begins, IsBegun, IsWithoutPeers, IsForEnds, Obeys, ActsAll, Reaches};
ghost use Rattle.hs_shake.specs.Requests.{IsVersion};

use crate::laws::reports_once;
use crate::pair::Pair;
use crate::peering;
use crate::text_kind::TextKind;
use crate::told::Told;
use he_end::Config;
use he_wire::has_wire;
use hm_message::Codec;
use hq_resend::Limits;
use hw_io::{Failed, Sink};
use sr_notation::Setting;
use sr_script::{Asked, Reader, Script, settings_come_first};
use std::alloc::{AllocError, Global};
use std::error::Error;
use std::fmt;

/// The version for which the client asks if no line says so.
const USUAL_VERSION: u8 = 2;

/// The limits of each end if no line says so: the most bytes of a frame, and the most messages and framed bytes held.
const USUAL_FRAME: usize = 32_768;

const USUAL_COUNT: usize = 1_024;

const USUAL_BYTES: usize = 100_000;

/// What a replay came to.
#[derive(Clone, Copy, Debug, PartialEq, Eq)]
pub struct Totals {
    /// How many links the script opened, refused ones among them.
    pub links: u64,
}

/// Why no report was written whole.
#[derive(Clone, Copy, Debug, PartialEq, Eq)]
pub enum ReplayError {
    /// The output failed in the one call. It may have taken a first part of the report.
    Write,
    /// Out of memory: nothing was written.
    NoMemory,
}

impl fmt::Display for ReplayError {
    ghost use Rattle.std.specs.Prelude.{Some};
    ghost use Rattle.sr_replay.specs.Words.{replay_error_words};

    ghost output = { λ error. Some (replay_error_words error) };

    fn fmt<W: fmt::Write>(&self, f: &mut fmt::Formatter<W>) -> fmt::Result {
        match self {
            ReplayError::Write => f.write_str("the output failed"),
            ReplayError::NoMemory => f.write_str("out of memory"),
        }
    }
}

impl Error for ReplayError {}

impl From<AllocError> for ReplayError {
    ghost use Rattle.std.specs.Prelude.{◌≡◌};
    ghost use Rattle.sr_replay.specs.declared.replaying.ReplayError.TheVariants.{NoMemory};

    ghost from_gives = { λ _ e. e ≡ NoMemory };

    fn from(_e: AllocError) -> ReplayError {
        ReplayError::NoMemory
    }
}

/// How both ends are begun if no line says otherwise.
pub fn usual() -> Config
    ensures { Begins [] result }
{
    let Some(limits) = Limits::of(USUAL_FRAME, USUAL_COUNT, USUAL_BYTES) else {
        unreachable!()
    };
    Config {
        codec: Codec::Json,
        version: USUAL_VERSION,
        reconnect: true,
        limits,
    }
}

/// Takes a further option.
fn set(config: &mut Config, setting: Setting)
    requires { IsSetting setting }
    ensures { (settings : List Setting) → Begins settings config.old → Begins (setting ∷ settings) config.new }
{
    match setting {
        Setting::Codec(codec) => config.codec = codec,
        Setting::Version(version) => config.version = version,
        Setting::Reconnect(reconnect) => config.reconnect = reconnect,
        Setting::Buffer(limits) => config.limits = limits,
        Setting::Peers => {}
    }
}

/// How both ends of a script are begun. Its options come before its first action.
pub(crate) fn options(alloc: Global, script: &Script) -> Result<Config, AllocError>
    ensures spoken { IfOk result (λ config. IsVersion config.version) }
    ensures begins { IfOk result (λ config. (p : Program) → Parses script.now p → Begins p.settings config) }
{
    settings_come_first();
    let mut reader = Reader::start(alloc);
    let mut config = usual();
    loop {
        match reader.next_in(alloc, script)? {
            Some(Asked::Setting(setting)) => set(&mut config, setting),
            Some(Asked::Action(action)) => {
                drop(action);
                return Ok(config);
            }
            None => return Ok(config),
        }
    }
}

/// Does what a line asks for, once the options are known.
pub(crate) fn obey(alloc: Global, asked: Asked, pair: &mut Pair) -> Result<(), AllocError>
    requires { IsForEnds asked }
    ensures { OnOk result (Obeys pair.old asked pair.new) }
{
    match asked {
        Asked::Setting(_) => Ok(()),
        Asked::Action(action) => pair.act(alloc, &action),
    }
}

/// Does the actions of a script without peers, with two ends that did nothing yet.
fn act_all(alloc: Global, script: &Script, pair: &mut Pair) -> Result<(), AllocError>
    requires { IsWithoutPeers script.now }
    ensures { OnOk result ((p : Program) → Parses script.now p → ActsAll pair.old p.actions [] pair.new) }
{
    settings_come_first();
    // The text of a script is one.
    let _ = script.text();
    let mut reader = Reader::start(alloc);
    loop {
        match reader.next_in(alloc, script)? {
            Some(asked) => obey(alloc, asked, pair)?,
            None => return Ok(()),
        }
    }
}

/// The two ends of a script, which did nothing yet.
pub(crate) fn begin(alloc: Global, kind: TextKind, script: &Script) -> Result<Pair, AllocError>
    ensures { IfOk result (λ pair. (p : Program) → Parses script.now p → IsBegun kind p pair) }
{
    let config = options(alloc, script)?;
    let pair = Pair::start(alloc, kind, config)?;
    Ok(pair)
}

/// The two ends after all actions of a script without peers, of which they told as a report.
fn run(alloc: Global, script: &Script) -> Result<Pair, AllocError>
    requires { IsWithoutPeers script.now }
    ensures { IfOk result (λ pair. (p : Program) → Parses script.now p → Reaches kinds.Report p pair) }
{
    let mut pair = begin(alloc, TextKind::Report, script)?;
    act_all(alloc, script, &mut pair)?;
    Ok(pair)
}

/// What is told of a script without peers.
fn tell_ends(alloc: Global, script: &Script) -> Result<Told, AllocError>
    requires { IsWithoutPeers script.now }
    ensures { IfOk result (λ told. (p : Program) → Parses script.now p → IsTheOne (IsReport p) told.report.items × (told.links ≡ opened p.actions)) }
{
    reports_once();
    has_wire();
    let pair = run(alloc, script)?;
    pair.reports();
    let links = pair.links();
    let report = pair.finish(alloc)?;
    Ok(Told { report, links })
}

/// Whether there are peers, if a further option is this.
fn has_peers_with(has: bool, setting: Setting) -> bool
    ensures { (settings : List Setting) → has ≡ peers_in settings → result ≡ peers_in (setting ∷ settings) }
{
    match setting {
        Setting::Codec(_) => has,
        Setting::Version(_) => has,
        Setting::Reconnect(_) => has,
        Setting::Buffer(_) => has,
        Setting::Peers => true,
    }
}

/// Whether a script has peers. Its options come before its first action.
pub(crate) fn has_peers(alloc: Global, script: &Script) -> Result<bool, AllocError>
    ensures { IfOk result (λ has. (p : Program) → Parses script.now p → has ≡ peers_in p.settings) }
{
    settings_come_first();
    let mut reader = Reader::start(alloc);
    let mut has = false;
    loop {
        match reader.next_in(alloc, script)? {
            Some(Asked::Setting(setting)) => has = has_peers_with(has, setting),
            Some(Asked::Action(action)) => {
                drop(action);
                return Ok(has);
            }
            None => return Ok(has),
        }
    }
}

/// What is told of a script, with peers or without.
fn tell(alloc: Global, script: &Script) -> Result<Told, AllocError>
    ensures { IfOk result (λ told. (p : Program) → Parses script.now p → IsReportOf p told.report.items × (told.links ≡ opened p.actions)) }
{
    let has = has_peers(alloc, script)?;
    if has {
        let config = options(alloc, script)?;
        let told = peering::tell(alloc, config, script)?;
        return Ok(told);
    }
    let told = tell_ends(alloc, script)?;
    Ok(told)
}

/// Replays a script: runs a client's and a server's end, or two peers, as its actions say, and puts the report. It is made whole first and
/// put in one call, so nothing was written when memory runs out.
pub fn replay<K: Sink>(alloc: Global, script: &Script, out: &mut K) -> Result<Totals, ReplayError>
    ensures ok { IfOk result (λ totals. (p : Program) → Parses script.now p → (text : List ℕ) × (IsReportOf p text
        × Appends (K.holds out.old) (K.holds out.new) text × (totals.links ≡ opened p.actions))) }
    ensures write { result ≡ Err ReplayError.Write → (K.faults out.new ≡ one_more (K.faults out.old)) × ((p : Program) → Parses script.now p →
        (text : List ℕ) × (IsReportOf p text × ((n : ℕ) × Appends (K.holds out.old) (K.holds out.new) (take n text)))) }
    ensures no_memory { result ≡ Err ReplayError.NoMemory → out.new ≡ out.old }
    ensures unfailed { result ≢ Err ReplayError.Write → K.faults out.new ≡ K.faults out.old }
{
    let told = tell(alloc, script)?;
    match out.put(&told.report) {
        Ok(()) => Ok(Totals { links: told.links }),
        Err(Failed) => Err(ReplayError::Write),
    }
}
