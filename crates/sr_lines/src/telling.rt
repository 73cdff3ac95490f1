//! The lines of what a peer does: its own calls, what it takes, and what it refuses.

ghost use Rattle.std.specs.Prelude.{◌≡◌, ◌++◌, OnOk, codes};
ghost use Rattle.hm_message.specs.declared.message.Ending.TheVariants as ending;
ghost use Rattle.sr_notation.specs.Words.{line_at};
ghost use Rattle.sr_lines.specs.Lines.{ask_words, asked_word, began_words, counted, did_words, ended_words, gone_words, id_words, item_words, peer_words, table_words, CanBeTold};

use crate::report::{push_fault, push_got, push_refused_send};
use hd_delivery::Side;
use hi_calls::CallError;
use hm_message::Ending;
use hp_peer::{AskError, Did, PeerError};
use hv_json::write_value;
use hv_value::{Text, Value};
use sr_notation::letter;
use std::alloc::{AllocError, Global};

/// What a peer's user asks for of an own call that is live.
#[derive(Clone, Copy, Debug, PartialEq, Eq)]
pub enum Asked {
    /// An item of its upload is sent.
    ItemSent,
    /// Its upload ends.
    Done,
    /// The other side is asked to end it early.
    Cancel,
}

impl Asked {
    fn word(self) -> &'static str
        ensures { result.now ≡ asked_word self }
    {
        match self {
            Asked::ItemSent => "item-sent",
            Asked::Done => "done",
            Asked::Cancel => "cancel",
        }
    }
}

/// Appends the line of an own call that was made, with its number.
pub fn push_called(
    alloc: Global,
    report: &mut Vec<u8>,
    side: Side,
    number: u64,
) -> Result<(), AllocError>
    ensures { OnOk result (report.new.items ≡ report.old.items ++ line_at side (counted (codes "call") number)) }
{
    let letter = letter(side);
    let line = format!(in alloc; "{letter} call {number}\n")?;
    report.extend_from_slice(line.as_bytes())
}

/// Appends the line of what was done for the user of the own call with this number.
pub fn push_asked(
    alloc: Global,
    report: &mut Vec<u8>,
    side: Side,
    what: Asked,
    call: u64,
) -> Result<(), AllocError>
    ensures { OnOk result (report.new.items ≡ report.old.items ++ line_at side (counted (asked_word what) call)) }
{
    let letter = letter(side);
    let word = what.word();
    let line = format!(in alloc; "{letter} {word} {call}\n")?;
    report.extend_from_slice(line.as_bytes())
}

/// Appends the line of an own call that is gone with its closed end.
pub fn push_gone(
    alloc: Global,
    report: &mut Vec<u8>,
    side: Side,
    call: u64,
) -> Result<(), AllocError>
    ensures { OnOk result (report.new.items ≡ report.old.items ++ line_at side (gone_words call)) }
{
    let letter = letter(side);
    let line = format!(in alloc; "{letter} ended {call} gone\n")?;
    report.extend_from_slice(line.as_bytes())
}

// ---- what is refused

/// Appends the line of what a peer's user asked for and it didn't do.
pub fn push_refused_ask(
    alloc: Global,
    report: &mut Vec<u8>,
    side: Side,
    why: &AskError,
) -> Result<(), AllocError>
    ensures { OnOk result (report.new.items ≡ report.old.items ++ line_at side (codes "refused " ++ ask_words why.now)) }
{
    match why {
        AskError::Calls(error) => push_worded(alloc, report, side, "refused", table_word(*error)),
        AskError::TooDeep => push_worded(alloc, report, side, "refused", "TooDeep"),
        AskError::Send(error) => push_refused_send(alloc, report, side, error),
        AskError::NoMemory => push_worded(alloc, report, side, "refused", "out of memory"),
    }
}

fn table_word(error: CallError) -> &'static str
    ensures { result.now ≡ table_words error }
{
    match error {
        CallError::TooMany => "TooMany",
        CallError::Spent => "Spent",
        CallError::UnknownId => "UnknownId",
        CallError::NoMemory => "out of memory",
    }
}

/// Appends the line of the fault by which a peer's end was closed.
pub fn push_peer_fault(
    alloc: Global,
    report: &mut Vec<u8>,
    side: Side,
    fault: &PeerError,
) -> Result<(), AllocError>
    ensures { OnOk result (report.new.items ≡ report.old.items ++ line_at side (codes "fault " ++ peer_words fault.now)) }
{
    match fault {
        PeerError::Next(error) => push_fault(alloc, report, side, error),
        PeerError::InUse(id) => push_worded(alloc, report, side, "fault in-use", id.as_str()),
        PeerError::TooMany => push_worded(alloc, report, side, "fault", "too-many"),
        PeerError::Flood => push_worded(alloc, report, side, "fault", "flood"),
        PeerError::NoMemory => push_worded(alloc, report, side, "fault", "out of memory"),
    }
}

/// Appends a line of two words, or two groups of them.
fn push_worded(
    alloc: Global,
    report: &mut Vec<u8>,
    side: Side,
    first: &str,
    second: &str,
) -> Result<(), AllocError>
    ensures { OnOk result (report.new.items ≡ report.old.items ++ line_at side (first.now ++ (codes " " ++ second.now))) }
{
    let letter = letter(side);
    let line = format!(in alloc; "{letter} {first} {second}\n")?;
    report.extend_from_slice(line.as_bytes())
}

// ---- what is taken

/// Appends the line of what a peer took. A message of no call, which the peer hands out by itself, has this number.
pub fn push_did(
    alloc: Global,
    report: &mut Vec<u8>,
    side: Side,
    number: u64,
    did: &Did,
) -> Result<(), AllocError>
    requires { CanBeTold did.now }
    ensures { OnOk result (report.new.items ≡ report.old.items ++ line_at side (did_words number did.now)) }
{
    match did {
        Did::Began { id, target, .. } => push_began(alloc, report, side, id, target),
        Did::Item { call, value } => push_item(alloc, report, side, *call, value),
        Did::Ended { call, ending } => push_ended(alloc, report, side, *call, ending),
        Did::Fed(id) => push_worded(alloc, report, side, "fed", id.as_str()),
        Did::Cancelled(id) => push_worded(alloc, report, side, "cancelled", id.as_str()),
        Did::Unknown(id) => push_worded(alloc, report, side, "skipped unknown-id", id.as_str()),
        Did::Other(got) => push_got(alloc, report, side, number, got),
    }
}

/// Appends the line of a call of the other side that began a job.
fn push_began(
    alloc: Global,
    report: &mut Vec<u8>,
    side: Side,
    id: &Option<Text>,
    target: &Text,
) -> Result<(), AllocError>
    ensures { OnOk result (report.new.items ≡ report.old.items ++ line_at side (began_words id.now target.now)) }
{
    let letter = letter(side);
    let id = id_or_dash(id);
    let target = target.as_str();
    let line = format!(in alloc; "{letter} began {id} {target}\n")?;
    report.extend_from_slice(line.as_bytes())
}

fn id_or_dash(id: &Option<Text>) -> &str
    ensures { result.now ≡ id_words id.now }
{
    match id {
        Some(id) => id.as_str(),
        None => "-",
    }
}

/// Appends the line of an item that came for an own call.
fn push_item(
    alloc: Global,
    report: &mut Vec<u8>,
    side: Side,
    call: u64,
    value: &Value,
) -> Result<(), AllocError>
    ensures { OnOk result (report.new.items ≡ report.old.items ++ line_at side (item_words call value.now)) }
{
    let letter = letter(side);
    let line = format!(in alloc; "{letter} item {call} ")?;
    report.extend_from_slice(line.as_bytes())?;
    write_value(alloc, value, report)?;
    report.push(b'\n')?;
    Ok(())
}

/// Appends the line of an own call that has ended.
fn push_ended(
    alloc: Global,
    report: &mut Vec<u8>,
    side: Side,
    call: u64,
    ending: &Ending,
) -> Result<(), AllocError>
    ensures { OnOk result (report.new.items ≡ report.old.items ++ line_at side (ended_words call ending.now)) }
{
    match ending {
        Ending::Void => push_void(alloc, report, side, call),
        Ending::Result(value) => push_result(alloc, report, side, call, value),
        Ending::Error(why) => push_error(alloc, report, side, call, why),
    }
}

fn push_void(alloc: Global, report: &mut Vec<u8>, side: Side, call: u64) -> Result<(), AllocError>
    ensures { OnOk result (report.new.items ≡ report.old.items ++ line_at side (ended_words call ending.Void)) }
{
    let letter = letter(side);
    let line = format!(in alloc; "{letter} ended {call} void\n")?;
    report.extend_from_slice(line.as_bytes())
}

fn push_result(
    alloc: Global,
    report: &mut Vec<u8>,
    side: Side,
    call: u64,
    value: &Value,
) -> Result<(), AllocError>
    ensures { OnOk result (report.new.items ≡ report.old.items ++ line_at side (ended_words call (ending.Result value.now))) }
{
    let letter = letter(side);
    let line = format!(in alloc; "{letter} ended {call} result ")?;
    report.extend_from_slice(line.as_bytes())?;
    write_value(alloc, value, report)?;
    report.push(b'\n')?;
    Ok(())
}

/// The error stands there as JSON text.
fn push_error(
    alloc: Global,
    report: &mut Vec<u8>,
    side: Side,
    call: u64,
    why: &Text,
) -> Result<(), AllocError>
    ensures { OnOk result (report.new.items ≡ report.old.items ++ line_at side (ended_words call (ending.Error why.now))) }
{
    let letter = letter(side);
    let line = format!(in alloc; "{letter} ended {call} error ")?;
    report.extend_from_slice(line.as_bytes())?;
    write_value(alloc, &Value::Text(why.copy()?), report)?;
    report.push(b'\n')?;
    Ok(())
}
