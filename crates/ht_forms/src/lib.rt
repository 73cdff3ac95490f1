//! What the scripts of several programs of tests say of doors and wires in memory: a wire to give, a method, how something is refused, and
//! whether moments never fall, which is asked before a form is made of them.
#![tactic(auto)]

ghost use Rattle.std.specs.Prelude.{◌≢◌, IfSome, IsTrue};
ghost use Rattle.hw_door.specs.Memory.{NeverFalls};
ghost use Rattle.hw_door.specs.Wires.{IsRising};

use ht_kit::{Stop, counts, first_word, from_digits, number};
use hw_door::{Heard, MemoryWire, WireGiven};
use hw_lanes::{Method, Refusal, ReplyField, Vec8};
use std::alloc::{AllocError, Global};

/// How the bytes of a wire stand in a script.
#[derive(Clone, Copy)]
pub enum Spelling {
    Text,
    /// Hexadecimal digits.
    Digits,
}

/// A wire to give: `MOMENT READS WRITES`, the moment from which it may be accepted, what its reads give, and how many bytes its writes take.
/// Each has a comma between two, and is `-` if there are none. A read is bytes, `*` for nothing yet or `!` for the end.
pub fn wire_of(alloc: Global, words: &str, spelling: Spelling) -> Result<MemoryWire, Stop> {
    let (from, rest) = first_word(words);
    let (reads, writes) = first_word(rest);
    Ok(MemoryWire {
        from: number(from)?,
        reads: reads_of(alloc, reads, spelling)?,
        writes: counts(alloc, writes)?,
    })
}

fn reads_of(alloc: Global, word: &str, spelling: Spelling) -> Result<Vec<WireGiven>, Stop> {
    let mut reads = Vec::new(alloc);
    if word != "-" {
        for part in word.split(',') {
            reads.push(read_of(alloc, part, spelling)?)?;
        }
    }
    Ok(reads)
}

fn read_of(alloc: Global, part: &str, spelling: Spelling) -> Result<WireGiven, Stop> {
    match (part, spelling) {
        ("*", _) => Ok(WireGiven::NotYet),
        ("!", _) => Ok(WireGiven::Ended),
        (text, Spelling::Text) => Ok(WireGiven::Bytes(Vec8::of(alloc, text.as_bytes())?)),
        (digits, Spelling::Digits) => {
            let bytes = from_digits(alloc, digits)?;
            Ok(WireGiven::Bytes(Vec8::from_vec(bytes)))
        }
    }
}

/// A method that a request may be written with.
pub fn method(word: &str) -> Option<Method>
    ensures { IfSome result (λ method. method ≢ Method.Other) }
{
    match word {
        "GET" => Some(Method::Get),
        "POST" => Some(Method::Post),
        "DELETE" => Some(Method::Delete),
        _ => None,
    }
}

fn field_text(field: ReplyField) -> &'static str {
    match field {
        ReplyField::AllowPost => "Allow: POST",
        ReplyField::AllowGetPostDelete => "Allow: GET, POST, DELETE",
        ReplyField::AuthenticateBearer => "WWW-Authenticate: Bearer",
        ReplyField::WebSocketVersion => "Sec-WebSocket-Version: 13",
    }
}

fn field_of(text: &str) -> Option<ReplyField> {
    match text {
        "[Allow: POST]" => Some(ReplyField::AllowPost),
        "[Allow: GET, POST, DELETE]" => Some(ReplyField::AllowGetPostDelete),
        "[WWW-Authenticate: Bearer]" => Some(ReplyField::AuthenticateBearer),
        "[Sec-WebSocket-Version: 13]" => Some(ReplyField::WebSocketVersion),
        _ => None,
    }
}

/// How something is refused: `STATUS`, or `STATUS [FIELD]`.
pub fn refusal_of(words: &str) -> Result<Refusal, Stop> {
    let (status, field) = first_word(words);
    let status = status.parse::<u16>().ok().ok_or(Stop::Refused)?;
    let field = field_of(field);
    if field.is_none() && words.contains(' ') {
        return Err(Stop::Refused);
    }
    Ok(Refusal { status, field })
}

/// How something is refused: its status, and its field in brackets if it has one.
pub fn refusal_told(alloc: Global, refusal: Refusal) -> Result<String, AllocError> {
    let status = refusal.status;
    match refusal.field {
        Some(field) => {
            let field = field_text(field);
            format!(in alloc; "{status} [{field}]")
        }
        None => format!(in alloc; "{status}"),
    }
}

/// Whether the moments never fall.
pub fn is_rising(moments: &[u64]) -> bool
    ensures { IsTrue result → IsRising 0 moments.now }
{
    let mut rest = moments;
    let mut last = 0;
    loop {
        let [first, more @ ..] = rest else {
            return true;
        };
        if *first < last {
            return false;
        }
        last = *first;
        rest = more;
    }
}

/// Whether the moments of what is heard never fall.
pub fn never_falls(heard: &[Heard]) -> bool
    ensures { IsTrue result → NeverFalls 0 heard.now }
{
    let mut rest = heard;
    let mut last = 0;
    loop {
        let [first, more @ ..] = rest else {
            return true;
        };
        if first.now < last {
            return false;
        }
        last = first.now;
        rest = more;
    }
}
