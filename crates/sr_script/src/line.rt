//! The grammar of one line of a script: the option or the action that it asks for, if any. It doesn't know other lines.

ghost use Rattle.std.specs.Prelude.{◌≡◌, ◌↔◌, ℕ, true, List, IsTrue, Ok, IfOk, IfSome, IfNone};
ghost use Rattle.std.specs.Str.{IsUtf8};
ghost use Rattle.hm_message.specs.declared.message.Message.{Message};
ghost use Rattle.hm_message.specs.Message.{Fits, is_sequenced};
ghost use Rattle.hm_json.specs.Says.{Says};
ghost use Rattle.hd_facts.specs.Unique.{IsTheOne};
ghost use Rattle.sr_script.specs.declared.action.Count.{Count};
ghost use Rattle.sr_script.specs.declared.action.Action.{Action};
ghost use Rattle.sr_script.specs.declared.action.Asking.{Asking};
ghost use Rattle.hd_calls.specs.declared.vocabulary.CallKind.{CallKind};
ghost use Rattle.hv_value.specs.Tree.{Tree, list, trees};
ghost use Rattle.hv_value.specs.View.{tree};
ghost use Rattle.hv_value.specs.declared.value.Value.{Value};
ghost use Rattle.hv_json.specs.Reading.{reading};
ghost use Rattle.sr_script.specs.declared.line.Asked.{Asked};
ghost use Rattle.sr_script.specs.Script.{IsCount, count_text, IsCallWord, NamesCall, WantsCall, NamesItem, Asks, IsPassedOver};
ghost use Rattle.sr_script.specs.Asking.{OfLink, OfPeer, OfEnd, Wants, HasFit, IsReadable};

use crate::action::{Action, Asking, Count};
use hd_calls::CallKind;
use hd_delivery::Side;
use hm_json::{Refusal, one_meaning, read_message};
use hm_message::{Message, Read, values_are_trees};
use hv_json::{JsonError, read_value};
use hv_value::{Items, Text, Value};
use sr_notation::{Setting, parse_number, parse_setting, split_at_space, words_are_cut_once};
use std::alloc::{AllocError, Global};

/// What a line asks for.
#[derive(Drop)]
pub enum Asked {
    /// An option.
    Setting(Setting),
    /// An action.
    Action(Action),
}

/// The count that these bytes say.
fn parse_count(alloc: Global, bytes: &[u8]) -> Result<Option<Count>, AllocError>
    ensures found { IfOk result (λ r. IfSome r (λ count. (bytes.now ≡ count_text count) × IsCount count)) }
    ensures none { IfOk result (λ r. IfNone r ((count : Count) → IsCount count → bytes.now ≡ count_text count → ⊥)) }
{
    if bytes == b"*".as_slice() {
        return Ok(Some(Count::Everything));
    }
    Ok(parse_number(alloc, bytes)?.map(Count::UpTo))
}

/// The message that this frame says, if it is one that is sent.
fn parse_message(alloc: Global, frame: &[u8]) -> Result<Option<Message>, AllocError>
    ensures found { IfOk result (λ r. IfSome r (λ m. IsTheOne (Says frame.now) m × (is_sequenced m ≡ true) × Fits m)) }
    ensures none { IfOk result (λ r. IfNone r ((m : Message) → Says frame.now m → is_sequenced m ≡ true → ⊥)) }
{
    one_meaning();
    match read_message(alloc, frame) {
        Ok(Read::Message(message)) => {
            if message.is_sequenced() {
                Ok(Some(message))
            } else {
                Ok(None)
            }
        }
        Ok(Read::Unknown(_)) => Ok(None),
        Err(Refusal::NoMemory) => Err(AllocError),
        Err(_) => Ok(None),
    }
}

/// The action of an end for which these words ask after its letter.
fn parse_link_words(alloc: Global, side: Side, words: &[u8]) -> Result<Option<Action>, AllocError>
    ensures found { IfOk result (λ r. IfSome r (λ a. IsTheOne (OfLink side words.now) a × HasFit a)) }
    ensures none { IfOk result (λ r. IfNone r ((a : Action) → OfLink side words.now a → ⊥)) }
{
    if words == b"lose".as_slice() {
        return Ok(Some(Action::Lose(side)));
    }
    if words == b"close".as_slice() {
        return Ok(Some(Action::Close(side)));
    }
    if let Some(count) = words.strip_prefix(b"write ") {
        return match parse_count(alloc, count)? {
            Some(count) => Ok(Some(Action::Write(side, count))),
            None => Ok(None),
        };
    }
    if let Some(count) = words.strip_prefix(b"read ") {
        return match parse_count(alloc, count)? {
            Some(count) => Ok(Some(Action::Read(side, count))),
            None => Ok(None),
        };
    }
    if let Some(frame) = words.strip_prefix(b"send ") {
        return match parse_message(alloc, frame)? {
            Some(message) => Ok(Some(Action::Send(side, message))),
            None => Ok(None),
        };
    }
    Ok(None)
}

/// The value that this JSON text says.
fn parse_value(alloc: Global, text: &[u8]) -> Result<Option<Value>, AllocError>
    ensures found { IfOk result (λ r. IfSome r (λ value. reading text.now ≡ Ok (tree value))) }
    ensures none { IfOk result (λ r. IfNone r ((t : Tree) → reading text.now ≡ Ok t → ⊥)) }
{
    match read_value(alloc, text) {
        Ok(value) => Ok(Some(value)),
        Err(JsonError::NoMemory) => Err(AllocError),
        Err(JsonError::NotJson) => Ok(None),
        Err(JsonError::Fraction) => Ok(None),
        Err(JsonError::TooDeep) => Ok(None),
    }
}

/// The values of a list.
fn items_of(value: Value) -> Option<Items>
    ensures found { IfSome result (λ items. tree value ≡ list (trees items)) }
    ensures none { IfNone result ((items : List Tree) → tree value ≡ list (trees items) → ⊥) }
{
    match value {
        Value::List(items) => Some(items),
        _ => None,
    }
}

/// How a call is called by this word, and how many uploads come with it.
fn call_kind(word: &[u8]) -> Option<(CallKind, u32)>
    ensures found { IfSome result (λ called. IsCallWord word.now called.0 called.1) }
    ensures none { IfNone result ((kind : CallKind) (uploads : ℕ) → IsCallWord word.now kind uploads → ⊥) }
{
    if word == b"call".as_slice() {
        return Some((CallKind::Call, 0));
    }
    if word == b"upload".as_slice() {
        return Some((CallKind::Call, 1));
    }
    if word == b"stream".as_slice() {
        return Some((CallKind::Stream, 0));
    }
    if word == b"notify".as_slice() {
        return Some((CallKind::Notify, 0));
    }
    None
}

/// The call that these words name, where it is called so.
fn parse_call(
    alloc: Global,
    kind: CallKind,
    uploads: u32,
    words: &[u8],
) -> Result<Option<Asking>, AllocError>
    ensures found { IfOk result (λ r. IfSome r (λ a. NamesCall words.now a × (a.kind ≡ kind) × (a.uploads ≡ uploads))) }
    ensures none { IfOk result (λ r. IfNone r ((a : Asking) → NamesCall words.now a → ⊥)) }
{
    words_are_cut_once();
    let Some((target, text)) = split_at_space(words) else {
        return Ok(None);
    };
    if target.is_empty() {
        return Ok(None);
    }
    let Ok(target) = str::from_utf8(target) else {
        return Ok(None);
    };
    let Some(value) = parse_value(alloc, text)? else {
        return Ok(None);
    };
    let Some(arguments) = items_of(value) else {
        return Ok(None);
    };
    let target = Text::of(alloc, target)?;
    Ok(Some(Asking {
        kind,
        uploads,
        target,
        arguments,
    }))
}

/// The call for which these words ask.
fn parse_call_words(alloc: Global, words: &[u8]) -> Result<Option<Asking>, AllocError>
    ensures found { IfOk result (λ r. IfSome r (λ a. IsTheOne (WantsCall words.now) a)) }
    ensures none { IfOk result (λ r. IfNone r ((a : Asking) → WantsCall words.now a → ⊥)) }
{
    values_are_trees();
    words_are_cut_once();
    let Some((word, rest)) = split_at_space(words) else {
        return Ok(None);
    };
    let Some((kind, uploads)) = call_kind(word) else {
        return Ok(None);
    };
    match parse_call(alloc, kind, uploads, rest)? {
        Some(asking) => Ok(Some(asking)),
        None => Ok(None),
    }
}

/// The number of a call and the value that these words say.
fn parse_item(alloc: Global, words: &[u8]) -> Result<Option<(u64, Value)>, AllocError>
    ensures found { IfOk result (λ r. IfSome r (λ item. NamesItem words.now item.0 item.1)) }
    ensures none { IfOk result (λ r. IfNone r ((call : ℕ) (value : Value) → NamesItem words.now call value → ⊥)) }
{
    words_are_cut_once();
    let Some((call, text)) = split_at_space(words) else {
        return Ok(None);
    };
    let Some(call) = parse_number(alloc, call)? else {
        return Ok(None);
    };
    match parse_value(alloc, text)? {
        Some(value) => Ok(Some((call, value))),
        None => Ok(None),
    }
}

/// The action of a peer for which these words ask, which stand after the letter of its end.
pub fn parse_peer_words(
    alloc: Global,
    side: Side,
    words: &[u8],
) -> Result<Option<Action>, AllocError>
    ensures found { IfOk result (λ r. IfSome r (λ a. IsTheOne (OfPeer side words.now) a × HasFit a)) }
    ensures none { IfOk result (λ r. IfNone r ((a : Action) → OfPeer side words.now a → ⊥)) }
{
    values_are_trees();
    words_are_cut_once();
    if words == b"round".as_slice() {
        return Ok(Some(Action::Round(side)));
    }
    if let Some(call) = words.strip_prefix(b"done ") {
        return match parse_number(alloc, call)? {
            Some(call) => Ok(Some(Action::Done(side, call))),
            None => Ok(None),
        };
    }
    if let Some(call) = words.strip_prefix(b"cancel ") {
        return match parse_number(alloc, call)? {
            Some(call) => Ok(Some(Action::Cancel(side, call))),
            None => Ok(None),
        };
    }
    if let Some(rest) = words.strip_prefix(b"item ") {
        return match parse_item(alloc, rest)? {
            Some((call, value)) => Ok(Some(Action::Item(side, call, value))),
            None => Ok(None),
        };
    }
    match parse_call_words(alloc, words)? {
        Some(asking) => Ok(Some(Action::Call(side, asking))),
        None => Ok(None),
    }
}

/// The action for which these words ask after the letter of this end.
fn parse_words(alloc: Global, side: Side, words: &[u8]) -> Result<Option<Action>, AllocError>
    ensures found { IfOk result (λ r. IfSome r (λ a. IsTheOne (OfEnd side words.now) a × HasFit a)) }
    ensures none { IfOk result (λ r. IfNone r ((a : Action) → OfEnd side words.now a → ⊥)) }
{
    if let Some(action) = parse_link_words(alloc, side, words)? {
        return Ok(Some(action));
    }
    match parse_peer_words(alloc, side, words)? {
        Some(action) => Ok(Some(action)),
        None => Ok(None),
    }
}

/// The action of a line.
fn parse_action(alloc: Global, line: &[u8]) -> Result<Option<Action>, AllocError>
    ensures found { IfOk result (λ r. IfSome r (λ a. IsTheOne (Asks line.now) a × HasFit a)) }
    ensures none { IfOk result (λ r. IfNone r ((a : Action) → Asks line.now a → ⊥)) }
{
    if line == b"open".as_slice() {
        return Ok(Some(Action::Open));
    }
    if let Some(words) = line.strip_prefix(b"c ") {
        return parse_words(alloc, Side::Client, words);
    }
    if let Some(words) = line.strip_prefix(b"s ") {
        return parse_words(alloc, Side::Server, words);
    }
    if let Some(link) = line.strip_prefix(b"accept ") {
        return match parse_number(alloc, link)? {
            Some(link) => Ok(Some(Action::Accept(link))),
            None => Ok(None),
        };
    }
    if let Some(now) = line.strip_prefix(b"tick ") {
        return match parse_number(alloc, now)? {
            Some(now) => Ok(Some(Action::Tick(now))),
            None => Ok(None),
        };
    }
    Ok(None)
}

/// What a line asks for, if it is one of the grammar. A message that is sent fits.
pub(crate) fn parse_line(alloc: Global, line: &[u8]) -> Result<Option<Asked>, AllocError>
    ensures found { IfOk result (λ r. IfSome r (λ x. IsTheOne (Wants line.now) x × IsReadable x)) }
    ensures none { IfOk result (λ r. IfNone r ((x : Asked) → Wants line.now x → ⊥)) }
{
    if let Some(setting) = parse_setting(alloc, line)? {
        return Ok(Some(Asked::Setting(setting)));
    }
    match parse_action(alloc, line)? {
        Some(action) => Ok(Some(Asked::Action(action))),
        None => Ok(None),
    }
}

/// Whether the line is passed over: an empty one, or a comment, in UTF-8.
pub fn is_passed_over(line: &[u8]) -> bool
    ensures { IsTrue result ↔ (IsUtf8 line.now × IsPassedOver line.now) }
{
    match line.first() {
        None => true,
        Some(byte) => *byte == b'#' && str::from_utf8(line).is_ok(),
    }
}
