//! The lines that a client prints of what its peer does. It doesn't know when a line is due.

ghost use Rattle.std.specs.Prelude.{◌≡◌, ◌++◌, codes, false, OnOk, Some as Given};
ghost use Rattle.hd_delivery.specs.declared.vocabulary.Got.TheVariants as gives;
ghost use Rattle.hm_message.specs.declared.message.Ending.TheVariants as ending_of;
ghost use Rattle.hp_peer.specs.declared.did.Did.TheVariants as told_of;
ghost use Rattle.hd_client.specs.Printed.{counted, line};
ghost use Rattle.sr_client.specs.Lines.{json_words, told_line};

use hd_delivery::Got;
use hm_message::Ending;
use hp_peer::Did;
use hv_json::write_value;
use hv_value::{Items, Text, Value};
use std::alloc::{AllocError, Global};

// ---- links

/// A link is lost.
pub(crate) fn push_lost(out: &mut Vec<u8>) -> Result<(), AllocError>
    ensures { OnOk result (out.new.items ≡ out.old.items ++ line (codes "lost")) }
{
    out.extend_from_slice(b"lost\n")
}

/// A later link is up.
pub(crate) fn push_again(out: &mut Vec<u8>) -> Result<(), AllocError>
    ensures { OnOk result (out.new.items ≡ out.old.items ++ line (codes "again")) }
{
    out.extend_from_slice(b"again\n")
}

// ---- own calls

/// An own call was made, with this number.
pub(crate) fn push_called(alloc: Global, out: &mut Vec<u8>, number: u64) -> Result<(), AllocError>
    ensures { OnOk result (out.new.items ≡ out.old.items ++ line (counted (codes "call") number)) }
{
    let line = format!(in alloc; "call {number}\n")?;
    out.extend_from_slice(line.as_bytes())
}

/// An own call is gone with its closed end.
pub(crate) fn push_gone(alloc: Global, out: &mut Vec<u8>, call: u64) -> Result<(), AllocError>
    ensures { OnOk result (out.new.items ≡ out.old.items ++ line (counted (codes "ended") call ++ codes " gone")) }
{
    let line = format!(in alloc; "ended {call} gone\n")?;
    out.extend_from_slice(line.as_bytes())
}

// ---- what is taken

/// What one take told. Most of it has no line.
pub(crate) fn push_told(alloc: Global, out: &mut Vec<u8>, did: Did) -> Result<(), AllocError>
    ensures { OnOk result (out.new.items ≡ out.old.items ++ told_line json_words did) }
{
    match did {
        Did::Began {
            job: _,
            id: _,
            target,
            arguments,
        } => push_call(alloc, out, target, arguments),
        Did::Item { call, value } => push_item(alloc, out, call, &value),
        Did::Ended { call, ending } => push_ended(alloc, out, call, ending),
        Did::Fed(_) => Ok(()),
        Did::Cancelled(_) => Ok(()),
        Did::Unknown(_) => Ok(()),
        Did::Other(got) => push_got(alloc, out, got),
    }
}

/// A call of the other side. One of `Confirm` has no line.
fn push_call(
    alloc: Global,
    out: &mut Vec<u8>,
    target: Text,
    arguments: Items,
) -> Result<(), AllocError>
    ensures { OnOk result (out.new.items ≡ out.old.items ++ told_line json_words (told_of.Began 0 (Given target) target arguments)) }
{
    if target.as_str() == "Confirm" {
        return Ok(());
    }
    let target = target.as_str();
    let front = format!(in alloc; "got {target} ")?;
    out.extend_from_slice(front.as_bytes())?;
    write_value(alloc, &Value::List(arguments), out)?;
    out.push(b'\n')?;
    Ok(())
}

/// An item for an own call.
fn push_item(alloc: Global, out: &mut Vec<u8>, call: u64, value: &Value) -> Result<(), AllocError>
    ensures { OnOk result (out.new.items ≡ out.old.items ++ told_line json_words (told_of.Item call value.now)) }
{
    let front = format!(in alloc; "item {call} ")?;
    out.extend_from_slice(front.as_bytes())?;
    write_value(alloc, value, out)?;
    out.push(b'\n')?;
    Ok(())
}

/// The end of an own call.
fn push_ended(alloc: Global, out: &mut Vec<u8>, call: u64, ending: Ending) -> Result<(), AllocError>
    ensures { OnOk result (out.new.items ≡ out.old.items ++ told_line json_words (told_of.Ended call ending)) }
{
    match ending {
        Ending::Void => push_void(alloc, out, call),
        Ending::Result(value) => push_result(alloc, out, call, &value),
        Ending::Error(why) => push_error(alloc, out, call, why),
    }
}

fn push_void(alloc: Global, out: &mut Vec<u8>, call: u64) -> Result<(), AllocError>
    ensures { OnOk result (out.new.items ≡ out.old.items ++ told_line json_words (told_of.Ended call ending_of.Void)) }
{
    let line = format!(in alloc; "ended {call} void\n")?;
    out.extend_from_slice(line.as_bytes())
}

fn push_result(alloc: Global, out: &mut Vec<u8>, call: u64, value: &Value) -> Result<(), AllocError>
    ensures { OnOk result (out.new.items ≡ out.old.items ++ told_line json_words (told_of.Ended call (ending_of.Result value.now))) }
{
    let front = format!(in alloc; "ended {call} result ")?;
    out.extend_from_slice(front.as_bytes())?;
    write_value(alloc, value, out)?;
    out.push(b'\n')?;
    Ok(())
}

/// The error stands there as JSON text.
fn push_error(alloc: Global, out: &mut Vec<u8>, call: u64, why: Text) -> Result<(), AllocError>
    ensures { OnOk result (out.new.items ≡ out.old.items ++ told_line json_words (told_of.Ended call (ending_of.Error why))) }
{
    let front = format!(in alloc; "ended {call} error ")?;
    out.extend_from_slice(front.as_bytes())?;
    write_value(alloc, &Value::Text(why), out)?;
    out.push(b'\n')?;
    Ok(())
}

/// What is no message: the end of the handshake and a Close have lines.
fn push_got(alloc: Global, out: &mut Vec<u8>, got: Got) -> Result<(), AllocError>
    ensures { OnOk result (out.new.items ≡ out.old.items ++ told_line json_words (told_of.Other got)) }
{
    match got {
        Got::Shaken { .. } => out.extend_from_slice(b"shaken\n"),
        Got::Closed { error, allow: _ } => push_closed(alloc, out, error),
        Got::Message(_) => Ok(()),
        Got::Skipped(_) => Ok(()),
        Got::Acked(_) => Ok(()),
        Got::Sequenced(_) => Ok(()),
        Got::Resumed { .. } => Ok(()),
        Got::Ping => Ok(()),
    }
}

/// A Close, with its error as JSON text, or a dash without one.
fn push_closed(alloc: Global, out: &mut Vec<u8>, error: Option<Text>) -> Result<(), AllocError>
    ensures { OnOk result (out.new.items ≡ out.old.items ++ told_line json_words (told_of.Other (gives.Closed error false))) }
{
    let Some(error) = error else {
        return out.extend_from_slice(b"closed -\n");
    };
    out.extend_from_slice(b"closed ")?;
    write_value(alloc, &Value::Text(error), out)?;
    out.push(b'\n')?;
    Ok(())
}
