//! A script, recorded: two real ends do its actions, and the trace of that is put in pieces as it is made, since it can be far longer than the
//! script.

ghost use Rattle.std.specs.Prelude.{◌≡◌, ◌≢◌, ◌⊎◌, ◌++◌, ℕ, true, false, List, [], IfOk, OnOk, OnErr, Err, string_bytes, take};
ghost use Rattle.std.specs.Io.KnownBytes.{Appends};
ghost use Rattle.hd_facts.specs.Counts.{CountsFailure, one_more};
ghost use Rattle.hd_facts.specs.Unique.{IsTheOne};
ghost use Rattle.sr_notation.specs.Terms.{peers_in};
ghost use Rattle.sr_script.specs.Script.{Program, Parses};
ghost use Rattle.sr_replay.specs.Trace.{IsPart, IsTrace, codec_word, head_of, head_line, switch_word};
ghost use Rattle.sr_replay.specs.Replays.{IsWithoutPeers};
ghost use Rattle.sr_replay.specs.Follows.{HandsOut};
ghost use Rattle.sr_replay.specs.Records.{IsTouchedByBytesAlone, PutsAll, PutsPart};

use crate::laws::{runs_once, traces_once};
use crate::pair::Pair;
use crate::replaying::{begin, has_peers, obey, options};
use crate::text_kind::TextKind;
use he_end::Config;
use he_wire::has_wire;
use hm_message::Codec;
use hw_io::{Failed, Sink};
use sr_script::{Reader, Script, settings_come_first};
use std::alloc::{AllocError, Global};
use std::error::Error;
use std::fmt;

/// What is told is put once it has so many bytes: 64 KiB.
const PIECE: usize = 65_536;

/// Why no trace was written whole.
#[derive(Clone, Copy, Debug, PartialEq, Eq)]
pub enum RecordError {
    /// The script is one of peers, and a trace is one of two ends alone. Nothing was written.
    Peers,
    /// The output failed, and wasn't asked again. It may have taken a first part of the trace.
    Write,
    /// Out of memory, after a first part of the trace may have been written.
    NoMemory,
}

impl fmt::Display for RecordError {
    ghost use Rattle.std.specs.Prelude.{Some};
    ghost use Rattle.sr_replay.specs.Words.{record_error_words};

    ghost output = { λ error. Some (record_error_words error) };

    fn fmt<W: fmt::Write>(&self, f: &mut fmt::Formatter<W>) -> fmt::Result {
        match self {
            RecordError::Peers => f.write_str("the script has peers"),
            RecordError::Write => f.write_str("the output failed"),
            RecordError::NoMemory => f.write_str("out of memory"),
        }
    }
}

impl Error for RecordError {}

impl From<AllocError> for RecordError {
    ghost use Rattle.std.specs.Prelude.{◌≡◌};
    ghost use Rattle.sr_replay.specs.declared.recording.RecordError.TheVariants.{NoMemory};

    ghost from_gives = { λ _ e. e ≡ NoMemory };

    fn from(_e: AllocError) -> RecordError {
        RecordError::NoMemory
    }
}

impl From<Failed> for RecordError {
    ghost use Rattle.std.specs.Prelude.{◌≡◌};
    ghost use Rattle.sr_replay.specs.declared.recording.RecordError.TheVariants.{Write};

    ghost from_gives = { λ _ e. e ≡ Write };

    fn from(_e: Failed) -> RecordError {
        RecordError::Write
    }
}

// ---- the head

fn codec_word(codec: Codec) -> &'static str
    ensures { result.now ≡ codec_word codec }
{
    match codec {
        Codec::Json => "json",
        Codec::Pack => "pack",
    }
}

fn switch_word(on: bool) -> &'static str
    ensures { result.now ≡ switch_word on }
{
    match on {
        true => "on",
        false => "off",
    }
}

/// The first line of a trace whose ends are begun so.
fn head_of(alloc: Global, config: Config) -> Result<String, AllocError>
    ensures { IfOk result (λ text. string_bytes text ≡ head_of config.codec config.version config.reconnect config.limits) }
{
    let codec = codec_word(config.codec);
    let version = config.version;
    let reconnect = switch_word(config.reconnect);
    let count = config.limits.count();
    let bytes = config.limits.bytes();
    let frame = config.limits.frame();
    let line = format!(in alloc; "trace {codec} {version} {reconnect} {count} {bytes} {frame}\n")?;
    Ok(line)
}

/// The first line of a script's trace.
fn head(alloc: Global, script: &Script) -> Result<String, AllocError>
    ensures { IfOk result (λ text. (p : Program) → Parses script.now p → string_bytes text ≡ head_line p.settings) }
{
    let config = options(alloc, script)?;
    let line = head_of(alloc, config)?;
    Ok(line)
}

// ---- what is told as it goes

/// Puts what the two ends told and that wasn't put yet, if it has at least `least` bytes. After a fault the pair is of no use.
fn put<K: Sink>(pair: &mut Pair, least: usize, out: &mut K) -> Result<(), Failed>
    ensures ok { OnOk result ((bytes : List ℕ) × (Appends (K.holds out.old) (K.holds out.new) bytes × HandsOut pair.old bytes pair.new)) }
    ensures all { OnOk result (least ≡ 0 → pair.new.told.items ≡ []) }
    ensures part { OnErr result ((n : ℕ) × Appends (K.holds out.old) (K.holds out.new) (take n pair.old.told.items)) }
    ensures counted { CountsFailure (K.faults out.old) (K.faults out.new) result }
{
    if pair.told().len() < least {
        return Ok(());
    }
    out.put(pair.told())?;
    pair.clear_told();
    Ok(())
}

/// Does the actions of a script without peers, with two ends that did nothing yet, and puts what they tell.
fn act_and_put<K: Sink>(
    alloc: Global,
    script: &Script,
    pair: &mut Pair,
    out: &mut K,
) -> Result<(), RecordError>
    requires { IsWithoutPeers script.now }
    ensures ok { OnOk result ((p : Program) → Parses script.now p → PutsAll pair.old p pair.new (K.holds out.old) (K.holds out.new)) }
    ensures part { OnErr result ((p : Program) → Parses script.now p → PutsPart pair.old p (K.holds out.old) (K.holds out.new)) }
    ensures ends { result ≢ Err RecordError.Peers }
    ensures write { result ≡ Err RecordError.Write → K.faults out.new ≡ one_more (K.faults out.old) }
    ensures unfailed { result ≢ Err RecordError.Write → K.faults out.new ≡ K.faults out.old }
{
    settings_come_first();
    // The text of a script is one.
    let _ = script.text();
    let mut reader = Reader::start(alloc);
    loop {
        match reader.next_in(alloc, script)? {
            Some(asked) => {
                obey(alloc, asked, pair)?;
                put(pair, PIECE, out)?;
            }
            None => {
                put(pair, 0, out)?;
                return Ok(());
            }
        }
    }
}

/// Records a script without peers.
fn record_ends<K: Sink>(alloc: Global, script: &Script, out: &mut K) -> Result<(), RecordError>
    requires { IsWithoutPeers script.now }
    ensures ok { OnOk result ((p : Program) → Parses script.now p → (text : List ℕ) × (IsTheOne (IsTrace p) text
        × Appends (K.holds out.old) (K.holds out.new) text)) }
    ensures part { OnErr result ((p : Program) → Parses script.now p → (bytes : List ℕ) × (IsPart p bytes
        × Appends (K.holds out.old) (K.holds out.new) bytes)) }
    ensures ends { result ≢ Err RecordError.Peers }
    ensures write { result ≡ Err RecordError.Write → K.faults out.new ≡ one_more (K.faults out.old) }
    ensures unfailed { result ≢ Err RecordError.Write → K.faults out.new ≡ K.faults out.old }
    ensures touched { result ≢ Err RecordError.Write → IsTouchedByBytesAlone K.holds out.old out.new }
{
    has_wire();
    runs_once();
    traces_once();
    // The text of a script is one.
    let _ = script.text();
    let head = head(alloc, script)?;
    let mut pair = begin(alloc, TextKind::Trace, script)?;
    out.put(head.as_bytes())?;
    act_and_put(alloc, script, &mut pair, out)?;
    pair.reports();
    Ok(())
}

/// Records a script: two ends do its actions, and a line is put for each step that either makes, after one that says how they are begun. It is
/// put in pieces of some 64 KiB, so after an error a first part of it may have been written. A script of peers isn't recorded, not in part. Nothing is asked of
/// the output before there is a byte to put, nor after it failed.
pub fn record<K: Sink>(alloc: Global, script: &Script, out: &mut K) -> Result<(), RecordError>
    ensures ok { OnOk result ((p : Program) → Parses script.now p → (peers_in p.settings ≡ false) × ((text : List ℕ) × (IsTheOne (IsTrace p) text
        × Appends (K.holds out.old) (K.holds out.new) text))) }
    ensures part { OnErr result ((p : Program) → Parses script.now p → peers_in p.settings ≡ false → (bytes : List ℕ) × (IsPart p bytes
        × Appends (K.holds out.old) (K.holds out.new) bytes)) }
    ensures peers { result ≡ Err RecordError.Peers → (out.new ≡ out.old) × ((p : Program) → Parses script.now p → peers_in p.settings ≡ true) }
    ensures peers_untouched { (p : Program) → Parses script.now p → peers_in p.settings ≡ true →
        (out.new ≡ out.old) × ((result ≡ Err RecordError.Peers) ⊎ (result ≡ Err RecordError.NoMemory)) }
    ensures write { result ≡ Err RecordError.Write → K.faults out.new ≡ one_more (K.faults out.old) }
    ensures unfailed { result ≢ Err RecordError.Write → K.faults out.new ≡ K.faults out.old }
    ensures touched { result ≢ Err RecordError.Write → IsTouchedByBytesAlone K.holds out.old out.new }
{
    let has = has_peers(alloc, script)?;
    if has {
        return Err(RecordError::Peers);
    }
    record_ends(alloc, script, out)?;
    Ok(())
}
