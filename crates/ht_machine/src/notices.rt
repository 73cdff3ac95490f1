//! The messages that are sent.

ghost use Rattle.std.specs.Prelude.{IfOk};
ghost use Rattle.hm_message.specs.Message.{Fits};
ghost use Rattle.hd_calls.specs.Hubs.{Invoked};
ghost use Rattle.hp_peer.specs.Calling.{IsNotice};

use hm_message::{Headers, Message};
use ht_kit::Stop;
use hv_value::{Items, Text, Texts, Value};
use std::alloc::Global;

/// A Notify of this target, with these words as its arguments. What is sent is a copy of it, so that scripts see what copies are.
pub fn notice(alloc: Global, target: &str, words: &str) -> Result<Message, Stop>
    ensures notice { IfOk result (λ m. (c : Invoked) × IsNotice m c) }
    ensures fits { IfOk result (λ m. Fits m) }
{
    let message = message(alloc, target, words)?;
    if !message.fits() {
        return Err(Stop::Refused);
    }
    Ok(message.copy()?)
}

fn message(alloc: Global, target: &str, words: &str) -> Result<Message, Stop>
    ensures { IfOk result (λ m. (c : Invoked) × IsNotice m c) }
{
    Ok(Message::Invocation {
        headers: Headers::none(alloc),
        id: None,
        target: Text::of(alloc, target)?,
        arguments: arguments(alloc, words)?,
        streams: Texts::of(Vec::new(alloc)),
    })
}

/// Words with a space between two, as texts.
fn arguments(alloc: Global, words: &str) -> Result<Items, Stop> {
    let mut values = Vec::new(alloc);
    if !words.is_empty() {
        for word in words.split(' ') {
            values.push(Value::Text(Text::of(alloc, word)?))?;
        }
    }
    Items::of(values).ok().ok_or(Stop::Refused)
}
