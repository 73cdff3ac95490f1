//! Lines that may repeat their action: `repeat N` and an action, which is done for each number from 1 to N, which stands in it for `#`.

use crate::bench::Play;
use crate::stop::Stop;
use crate::words::{first_word, number};
use std::alloc::{AllocError, Global};

/// The most times that a line is repeated.
const MOST_TIMES: u64 = 10_000;

/// The answers to a line, each with its line feed.
pub(crate) fn answers_to(
    alloc: Global,
    bench: &mut impl Play,
    line_number: usize,
    line: &str,
) -> Result<String, AllocError> {
    let mut answers = String::new(alloc);
    let (word, rest) = first_word(line);
    if word != "repeat" {
        add_answer(bench, line_number, line, &mut answers)?;
        return Ok(answers);
    }
    let (times, action) = first_word(rest);
    match number(times) {
        Ok(times) if times <= MOST_TIMES => {
            for turn in 0..times {
                let numbered = with_number(alloc, action, turn.saturating_add(1))?;
                add_answer(bench, line_number, &numbered, &mut answers)?;
            }
        }
        _ => refuse(line_number, &mut answers)?,
    }
    Ok(answers)
}

/// Adds the answer to an action.
fn add_answer(
    bench: &mut impl Play,
    line_number: usize,
    action: &str,
    answers: &mut String,
) -> Result<(), AllocError> {
    let (word, text) = first_word(action);
    if word == "note" {
        return write!(answers, "{text}\n");
    }
    match bench.carry_out(action) {
        Ok(answer) if answer.is_empty() => Ok(()),
        Ok(answer) => write!(answers, "{answer}\n"),
        Err(Stop::Refused) => refuse(line_number, answers),
        Err(Stop::Failed) => answers.push_str("failed\n"),
        Err(Stop::Busy) => answers.push_str("busy\n"),
        Err(Stop::NotAsked) => answers.push_str("not asked\n"),
        Err(Stop::NoMemory) => Err(AllocError),
    }
}

fn refuse(line_number: usize, answers: &mut String) -> Result<(), AllocError> {
    write!(answers, "line {line_number} refused\n")
}

/// The action with the number for each `#`.
fn with_number(alloc: Global, action: &str, number: u64) -> Result<String, AllocError> {
    let mut numbered = String::new(alloc);
    for (place, part) in action.split('#').enumerate() {
        if place > 0 {
            write!(numbered, "{number}")?;
        }
        numbered.push_str(part)?;
    }
    Ok(numbered)
}
