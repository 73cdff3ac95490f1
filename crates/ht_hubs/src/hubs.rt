//! The jobs of hubs: what each does at its turns.

use crate::report::push_act;
use crate::words::{call_kind, ending, text, value};
use hd_calls::{Act, Call, CallKind, Input};
use hj_jobs::Hub;
use ht_kit::{Stop, count_of_32_bits, first_word, number};
use hub_calc::{
    CalcHub, ClientHub, clients_answer, methods_do_their_work, nothing_is_handed_up, only_ask_asks,
    refusals_have_an_order, sums_add_up,
};
use hub_counter::{CounterHub, next_counts};
use hub_rooms::RoomsHub;
use hv_value::{Items, Text, Texts, Value};
use std::alloc::Global;

/// The moment at which jobs begin, and that of their turns. No hub looks at it.
const BEGUN: u64 = 1;

const TURN: u64 = 2;

/// The laws of the hubs, each of which a crate may cite. They do nothing.
pub fn laws() {
    methods_do_their_work();
    sums_add_up();
    refusals_have_an_order();
    clients_answer();
    nothing_is_handed_up();
    only_ask_asks();
    next_counts();
}

/// What a job of the hub that the word names does at its turns.
pub fn play(alloc: Global, hub: &str, words: &str) -> Result<String, Stop> {
    match hub {
        "calc" => play_on(alloc, &CalcHub, words),
        "client" => play_on(alloc, &ClientHub, words),
        "counter" => play_on(alloc, &CounterHub, words),
        "rooms" => play_on(alloc, &RoomsHub, words),
        _ => Err(Stop::Refused),
    }
}

/// How many numbers a job gives of the hub that the first word names.
pub fn count_numbers(alloc: Global, words: &str) -> Result<String, Stop> {
    let (hub, rest) = first_word(words);
    match hub {
        "calc" => count_on(alloc, &CalcHub, rest),
        "counter" => count_on(alloc, &CounterHub, rest),
        _ => Err(Stop::Refused),
    }
}

fn play_on<H: Hub>(alloc: Global, hub: &H, words: &str) -> Result<String, Stop> {
    let (called, turns) = words.split_once(" : ").ok_or(Stop::Refused)?;
    let mut job = begun(alloc, hub, called)?;
    let mut acts = String::new(alloc);
    for (place, given) in turns.split(" / ").enumerate() {
        if place > 0 {
            acts.push_str(" / ")?;
        }
        push_turn(&mut acts, alloc, hub, &mut job, given)?;
    }
    Ok(acts)
}

fn begun<H: Hub>(alloc: Global, hub: &H, called: &str) -> Result<H::Job, Stop> {
    let call = call(alloc, called)?;
    Ok(hub.begin(alloc, &call, BEGUN)?)
}

/// Gives the job a turn, and appends its act.
fn push_turn<H: Hub>(
    acts: &mut String,
    alloc: Global,
    hub: &H,
    job: &mut H::Job,
    words: &str,
) -> Result<(), Stop> {
    let given = input(alloc, words)?;
    let act = hub.step(alloc, job, &given, TURN)?;
    push_act(acts, &act)?;
    Ok(())
}

fn count_on<H: Hub>(alloc: Global, hub: &H, words: &str) -> Result<String, Stop> {
    let (most, called) = first_word(words);
    let most = number(most)?;
    let mut job = begun(alloc, hub, called)?;
    for given in 0..most {
        let act = hub.step(alloc, &mut job, &Input::Go, TURN)?;
        if !is_item(&act, given.saturating_add(1)) {
            return counted(alloc, given, &act);
        }
    }
    Ok(format!(in alloc; "{most} numbers")?)
}

fn counted(alloc: Global, given: u64, act: &Act) -> Result<String, Stop> {
    let mut answer = format!(in alloc; "{given} numbers, then ")?;
    push_act(&mut answer, act)?;
    Ok(answer)
}

/// Whether the act is to give this number.
fn is_item(act: &Act, number: u64) -> bool {
    match act {
        Act::Item(Value::Int(whole)) => whole.get() == i128::from(number),
        _ => false,
    }
}

/// This many ids of uploads.
fn ids(alloc: Global, word: &str) -> Result<Texts, Stop> {
    let mut ids = Vec::new(alloc);
    for _ in 0..count_of_32_bits(word)? {
        ids.push(text(alloc, "7")?)?;
    }
    Ok(Texts::of(ids))
}

fn id(alloc: Global, kind: CallKind) -> Result<Option<Text>, Stop> {
    match kind {
        CallKind::Notify => Ok(None),
        CallKind::Call => Ok(Some(text(alloc, "1")?)),
        CallKind::Stream => Ok(Some(text(alloc, "1")?)),
    }
}

fn values(alloc: Global, words: &str) -> Result<Items, Stop> {
    let mut values = Vec::new(alloc);
    if !words.is_empty() {
        for word in words.split(' ') {
            values.push(value(alloc, word)?)?;
        }
    }
    Items::of(values).ok().ok_or(Stop::Refused)
}

fn call(alloc: Global, words: &str) -> Result<Call, Stop> {
    let (word, rest) = first_word(words);
    let (target, rest) = first_word(rest);
    let (uploads, arguments) = first_word(rest);
    let kind = call_kind(word)?;
    Ok(Call {
        id: id(alloc, kind)?,
        kind,
        target: text(alloc, target)?,
        arguments: values(alloc, arguments)?,
        streams: ids(alloc, uploads)?,
        who: text(alloc, "ann")?,
    })
}

fn stream_end(error: Option<Text>) -> Input {
    Input::StreamEnd { which: 0, error }
}

fn input(alloc: Global, words: &str) -> Result<Input, Stop> {
    let (word, rest) = first_word(words);
    match word {
        "go" => Ok(Input::Go),
        "item" => Ok(Input::Item {
            which: 0,
            value: value(alloc, rest)?,
        }),
        "uploaded" => Ok(stream_end(None)),
        "broken" => Ok(stream_end(Some(text(alloc, rest)?))),
        "asked" => Ok(Input::Asked(ending(alloc, rest)?)),
        "done" => Ok(Input::Done(value(alloc, rest)?)),
        "failed" => Ok(Input::Failed),
        _ => Err(Stop::Refused),
    }
}
