//! A script, line by line: each line is an action, and is answered.

use crate::bench::Play;
use crate::repeat::answers_to;
use crate::stop::Stop;
use crate::words::first_word;
use std::alloc::{AllocError, Global};
use std::io::{self, BufRead, BufReader};
use std::process::ExitCode;

const OUT_OF_MEMORY: u8 = 7;

const NO_INPUT: u8 = 3;

/// Whether a line is one action, or may say how often its action is done.
#[derive(Clone, Copy)]
enum Lines {
    Single,
    Repeated,
}

/// Carries out the script of the input, and prints the answer to each line.
///
/// A line that is no action is answered by `no action: ` and the line. If out of memory, the program prints `no memory` and ends with
/// status 7; if the input can't be read or the output can't be written, with status 3.
pub fn run<P: Play + Drop>(
    rt: &(impl Input + Print + AllocGlobal),
    start: Result<P, AllocError>,
) -> ExitCode {
    let ended = carry_out_all(rt, start, Lines::Single);
    status(rt, ended)
}

/// The same of a script in which `repeat N` and an action stand for the action with each number from 1 to N in place of its `#`.
///
/// A line that is no action is answered by its number, and an empty answer isn't printed.
pub fn run_repeated<P: Play + Drop>(
    rt: &(impl Input + Print + AllocGlobal),
    start: Result<P, AllocError>,
) -> ExitCode {
    let ended = carry_out_all(rt, start, Lines::Repeated);
    status(rt, ended)
}

fn carry_out_all<P: Play + Drop>(
    rt: &(impl Input + Print + AllocGlobal),
    start: Result<P, AllocError>,
    lines: Lines,
) -> io::Result<()> {
    let alloc = rt.alloc();
    let mut bench = start?;
    for (place, line) in BufReader::new(alloc, rt.reader())?.lines(alloc).enumerate() {
        let line = line?;
        let answers = match lines {
            Lines::Single => answer_to(alloc, &mut bench, &line)?,
            Lines::Repeated => answers_to(alloc, &mut bench, place.saturating_add(1), &line)?,
        };
        print!(rt; "{answers}")?;
    }
    Ok(())
}

/// The answer to a line, with its line feed.
fn answer_to(alloc: Global, bench: &mut impl Play, line: &str) -> Result<String, AllocError> {
    let (word, _) = first_word(line);
    if word == "note" {
        return format!(in alloc; "{line}\n");
    }
    match bench.carry_out(line) {
        Ok(answer) => format!(in alloc; "{answer}\n"),
        Err(Stop::Refused) => format!(in alloc; "no action: {line}\n"),
        Err(Stop::Failed) => String::from_str(alloc, "failed\n"),
        Err(Stop::Busy) => String::from_str(alloc, "busy\n"),
        Err(Stop::NotAsked) => String::from_str(alloc, "not asked\n"),
        Err(Stop::NoMemory) => Err(AllocError),
    }
}

/// The status of a program whose script ended so. Prints it if memory was out.
fn status(rt: &impl Print, ended: io::Result<()>) -> ExitCode {
    let Err(error) = ended else {
        return ExitCode::SUCCESS;
    };
    if error.kind() != io::ErrorKind::OutOfMemory {
        return ExitCode::from(NO_INPUT);
    }
    let _ = println!(rt; "no memory");
    ExitCode::from(OUT_OF_MEMORY)
}
