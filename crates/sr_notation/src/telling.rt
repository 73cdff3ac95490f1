//! What an end took, told in words. It doesn't know lines, nor whose end it is.

ghost use Rattle.std.specs.Prelude.{◌≡◌, ◌++◌, ℕ, Bool, OnOk};
ghost use Rattle.hm_message.specs.Message.{Fits};
ghost use Rattle.hd_delivery.specs.declared.vocabulary.Got.TheVariants as gives;
ghost use Rattle.hd_delivery.specs.Histories.{HasFit};
ghost use Rattle.sr_notation.specs.Words.{got_words, letter};

use hd_delivery::{Got, Side, Why};
use hm_json::write_message;
use hm_message::Message;
use hv_json::write_value;
use hv_value::{Text, Value};
use std::alloc::{AllocError, Global};

/// The letter of a side, with which the lines about its end begin: `c` or `s`.
pub fn letter(side: Side) -> &'static str
    ensures { result.now ≡ letter side }
{
    match side {
        Side::Client => "c",
        Side::Server => "s",
    }
}

/// Appends what a frame gave, in words: without a letter of a side, and without LF. A message has this number, and is written as its JSON
/// frame. Fails if memory runs out, after a part of the words may have been appended.
pub fn push_got_words(
    alloc: Global,
    out: &mut Vec<u8>,
    number: u64,
    got: &Got,
) -> Result<(), AllocError>
    requires { HasFit got.now }
    ensures { OnOk result (out.new.items ≡ out.old.items ++ got_words number got.now) }
{
    match got {
        Got::Message(message) => push_message(alloc, out, number, message),
        Got::Closed { error, .. } => push_closed(alloc, out, error),
        Got::Skipped(why) => push_skipped(alloc, out, *why),
        Got::Shaken { .. } => out.extend_from_slice(b"shaken"),
        Got::Acked(upto) => {
            let words = format!(in alloc; "acked {upto}")?;
            out.extend_from_slice(words.as_bytes())
        }
        Got::Sequenced(first) => {
            let words = format!(in alloc; "sequence {first}")?;
            out.extend_from_slice(words.as_bytes())
        }
        Got::Resumed { first, received } => {
            let words = format!(in alloc; "resumed {first} {received}")?;
            out.extend_from_slice(words.as_bytes())
        }
        Got::Ping => out.extend_from_slice(b"ping"),
    }
}

/// Appends the words of a message that was handed out with this number, in JSON.
fn push_message(
    alloc: Global,
    out: &mut Vec<u8>,
    number: u64,
    message: &Message,
) -> Result<(), AllocError>
    requires { Fits message.now }
    ensures { OnOk result (out.new.items ≡ out.old.items ++ got_words number (gives.Message message.now)) }
{
    let front = format!(in alloc; "got {number} ")?;
    out.extend_from_slice(front.as_bytes())?;
    write_message(alloc, message, out)?;
    Ok(())
}

/// Appends the words of a frame that was passed over.
fn push_skipped(alloc: Global, out: &mut Vec<u8>, why: Why) -> Result<(), AllocError>
    ensures { OnOk result ((number : ℕ) → out.new.items ≡ out.old.items ++ got_words number (gives.Skipped why)) }
{
    match why {
        Why::Duplicate(number) => {
            let words = format!(in alloc; "skipped duplicate {number}")?;
            out.extend_from_slice(words.as_bytes())
        }
        Why::Unknown(number) => {
            let words = format!(in alloc; "skipped unknown {number}")?;
            out.extend_from_slice(words.as_bytes())
        }
        Why::BeforeSequence => out.extend_from_slice(b"skipped before-sequence"),
        Why::NotUsed => out.extend_from_slice(b"skipped not-used"),
    }
}

/// Appends the words of a Close that was read, with its error as JSON text.
fn push_closed(alloc: Global, out: &mut Vec<u8>, error: &Option<Text>) -> Result<(), AllocError>
    ensures { OnOk result ((number : ℕ) (allow : Bool) → out.new.items ≡ out.old.items ++ got_words number (gives.Closed error.now allow)) }
{
    out.extend_from_slice(b"closed ")?;
    match error {
        Some(error) => write_value(alloc, &Value::Text(error.copy()?), out)?,
        None => out.push(b'-')?,
    }
    Ok(())
}
