//! Measures parts of the house: a program for those of `bench/`, which run it beside others. It promises nothing of its own, so no edit of it
//! must fail.
//!
//! Two words say what is measured, and it prints what came of that. Without words each line is done in brief, the numbers as here.
//!
//! ```text
//! resend made, resend shared      `hq_resend`: frames of 200 bytes, made each or sharing the bytes of one (`bench/resend/run.py`)
//! jobs 1000                       `hj_jobs`: rounds of so many live jobs, one of which is due (`bench/calls/rounds.py`)
//! calls 0, calls 8                `hi_calls`: calls with so many uploads, as many as may live (`bench/calls/run.py`)
//! socket 10                       `hw_socket`: so many batches of messages, from lane to lane (`bench/sockets/run.py`)
//! http 10                         `hh_http`: so many requests, whose head is the input (`bench/http/run.py`)
//! codec json, codec pack          `hm_codec` alone: calls, written and read (`bench/end/run.py`)
//! end json, end pack              `he_end`: the same calls, from end to end, with Acks back
//! rest 10                         so many ends are started and left at rest
//! ```
#![tactic(auto)]

mod calls;
mod ends;
mod jobs;
mod length;
mod requests;
mod resend;
mod sockets;

use hm_message::Codec;
use length::Length;
use std::alloc::Global;
use std::env;
use std::io::{self, Read};

/// What is measured without words.
const ALL: [(&str, &str); 12] = [
    ("resend", "made"),
    ("resend", "shared"),
    ("jobs", "1000"),
    ("calls", "0"),
    ("calls", "8"),
    ("socket", "10"),
    ("http", "10"),
    ("codec", "json"),
    ("codec", "pack"),
    ("end", "json"),
    ("end", "pack"),
    ("rest", "10"),
];

fn codec(word: &str) -> Option<Codec> {
    match word {
        "json" => Some(Codec::Json),
        "pack" => Some(Codec::Pack),
        _ => None,
    }
}

fn count(word: &str) -> Option<u32> {
    word.parse::<u32>().ok()
}

/// What came of a measure. `None` if there is no such measure, or if it failed.
fn measured(
    alloc: Global,
    (what, way): (&str, &str),
    length: Length,
    head: &[u8],
) -> Option<String> {
    match what {
        "resend" => resend::measured(alloc, way == "shared", length),
        "jobs" => jobs::measured(alloc, u64::from(count(way)?), length),
        "calls" => calls::measured(alloc, count(way)?, length),
        "socket" => sockets::measured(alloc, count(way)?),
        "http" => requests::measured(alloc, head, count(way)?),
        "codec" => ends::measured_codec(alloc, codec(way)?, length),
        "end" => ends::measured(alloc, codec(way)?, length),
        "rest" => ends::measured_at_rest(alloc, count(way)?),
        _ => None,
    }
}

/// The input, up to its end.
fn input(rt: &HostRuntime) -> io::Result<Vec<u8>> {
    let mut bytes = Vec::new(rt.alloc());
    rt.reader().read_to_end(&mut bytes)?;
    Ok(bytes)
}

fn measure_all(rt: &HostRuntime) -> io::Result<()> {
    let head = input(rt)?;
    for (what, way) in ALL {
        let line = measured(rt.alloc(), (what, way), Length::Brief, &head);
        match line {
            Some(line) => println!(rt; "{what} {way}: {line}")?,
            None => println!(rt; "{what} {way}: no answer")?,
        }
    }
    Ok(())
}

fn main(rt: HostRuntime) -> io::Result<()> {
    let mut words = env::args(&rt)?.skip(1);
    let Some(what) = words.next() else {
        return measure_all(&rt);
    };
    let way = words.next().unwrap_or(String::new(rt.alloc()));
    let head = if what.as_str() == "http" {
        input(&rt)?
    } else {
        Vec::new(rt.alloc())
    };
    let asked = (what.as_str(), way.as_str());
    match measured(rt.alloc(), asked, Length::Whole, &head) {
        Some(line) => println!(rt; "{line}"),
        None => println!(rt; "no answer"),
    }
}
