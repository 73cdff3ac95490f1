//! The actions of a script.

use crate::bytes::spelled;
use crate::report::{line, requested, responded};
use crate::writing::{ask, continue_line, head, reply};
use hh_http::{HttpLane, ResponseLane, accept_key};
use ht_kit::{Play, Stop, first_word};
use hw_lanes::query_value;
use std::alloc::{AllocError, Global};

/// Two lanes.
#[derive(Drop)]
pub struct Bench {
    alloc: Global,
    requests: HttpLane,
    responses: ResponseLane,
}

impl Bench {
    /// Lanes that were fed nothing.
    pub fn start(alloc: Global) -> Result<Bench, AllocError> {
        Ok(Bench {
            alloc,
            requests: HttpLane::start(alloc)?,
            responses: ResponseLane::start(alloc)?,
        })
    }

    fn act(&mut self, text: &str) -> Result<String, AllocError> {
        let (word, rest) = first_word(text);
        match word {
            "lanes" => self.anew(),
            "feed" => self.feed(rest),
            "drip" => self.drip(rest),
            "fill" => self.fill(rest),
            "next" => line_or_none(
                self.alloc,
                requested(self.alloc, self.requests.next_request())?,
            ),
            "continue" => continue_line(self.alloc, self.requests.take_continue()),
            "rest" => line(self.alloc, "rest", self.requests.rest()),
            _ => self.act_more(word, rest),
        }
    }

    /// What is asked of the lane of responses, or of no lane.
    fn act_more(&mut self, word: &str, rest: &str) -> Result<String, AllocError> {
        match word {
            "hear" => self.hear(rest),
            "hear-drip" => self.hear_drip(rest),
            "answer" => line_or_none(
                self.alloc,
                responded(self.alloc, self.responses.next_response())?,
            ),
            "after" => line(self.alloc, "after", self.responses.rest()),
            _ => write(self.alloc, word, rest),
        }
    }

    fn anew(&mut self) -> Result<String, AllocError> {
        self.requests = HttpLane::start(self.alloc)?;
        self.responses = ResponseLane::start(self.alloc)?;
        String::from_str(self.alloc, "lanes")
    }

    fn feed(&mut self, rest: &str) -> Result<String, AllocError> {
        let bytes = spelled(self.alloc, rest)?;
        let count = self.requests.feed(&bytes);
        format!(in self.alloc; "fed {count}")
    }

    fn hear(&mut self, rest: &str) -> Result<String, AllocError> {
        let bytes = spelled(self.alloc, rest)?;
        let count = self.responses.feed(&bytes);
        format!(in self.alloc; "fed {count}")
    }

    /// Feeds pieces of as many bytes as the first word says, and looks for a request and for a 100 that is due after each.
    fn drip(&mut self, rest: &str) -> Result<String, AllocError> {
        let (size, rest) = first_word(rest);
        let bytes = spelled(self.alloc, rest)?;
        let mut answers = String::new(self.alloc);
        for piece in bytes.chunks(size.parse::<usize>().unwrap_or(1).max(1)) {
            self.requests.feed(piece);
            if let Some(answer) = requested(self.alloc, self.requests.next_request())? {
                write!(answers, "{answer}\n")?;
            }
            if self.requests.take_continue() {
                let due = continue_line(self.alloc, true)?;
                write!(answers, "{due}\n")?;
            }
        }
        answers.push_str("dripped")?;
        Ok(answers)
    }

    fn hear_drip(&mut self, rest: &str) -> Result<String, AllocError> {
        let (size, rest) = first_word(rest);
        let bytes = spelled(self.alloc, rest)?;
        let mut answers = String::new(self.alloc);
        for piece in bytes.chunks(size.parse::<usize>().unwrap_or(1).max(1)) {
            self.responses.feed(piece);
            if let Some(answer) = responded(self.alloc, self.responses.next_response())? {
                write!(answers, "{answer}\n")?;
            }
        }
        answers.push_str("dripped")?;
        Ok(answers)
    }

    /// Feeds as many bytes as the first word says, each the first of those after it.
    fn fill(&mut self, rest: &str) -> Result<String, AllocError> {
        let (count, rest) = first_word(rest);
        let byte = rest.as_bytes().first().copied().unwrap_or(b'x');
        let mut bytes = Vec::new(self.alloc);
        bytes.resize(count.parse::<usize>().unwrap_or(0), byte)?;
        let count = self.requests.feed(&bytes);
        format!(in self.alloc; "fed {count}")
    }
}

impl Play for Bench {
    fn carry_out(&mut self, line: &str) -> Result<String, Stop> {
        Ok(self.act(line)?)
    }
}

fn line_or_none(alloc: Global, answer: Option<String>) -> Result<String, AllocError> {
    match answer {
        Some(line) => Ok(line),
        None => String::from_str(alloc, "none"),
    }
}

fn refused(alloc: Global, word: &str) -> Result<String, AllocError> {
    format!(in alloc; "no action {word}")
}

/// What is written, and what needs no lane.
fn write(alloc: Global, word: &str, rest: &str) -> Result<String, AllocError> {
    match word {
        "reply" => write_reply_of(alloc, rest),
        "ask" => write_ask_of(alloc, rest),
        "accept" => {
            let key = spelled(alloc, rest)?;
            let accept = accept_key(alloc, &key)?;
            line(alloc, "accept", accept.bytes())
        }
        "query" => value_of(alloc, rest),
        _ => refused(alloc, word),
    }
}

fn write_reply_of(alloc: Global, rest: &str) -> Result<String, AllocError> {
    let (status, rest) = first_word(rest);
    let (kind, rest) = first_word(rest);
    let (field, rest) = first_word(rest);
    let (end, rest) = first_word(rest);
    let bytes = spelled(alloc, rest)?;
    match reply(alloc, status, kind, head(field, end), &bytes)? {
        Some(text) => line(alloc, "reply", &text),
        None => refused(alloc, status),
    }
}

fn write_ask_of(alloc: Global, rest: &str) -> Result<String, AllocError> {
    let (method, rest) = first_word(rest);
    let (host, rest) = first_word(rest);
    let (target, rest) = first_word(rest);
    match ask(alloc, method, host, target, rest.as_bytes())? {
        Some(text) => line(alloc, "ask", &text),
        None => refused(alloc, method),
    }
}

fn value_of(alloc: Global, rest: &str) -> Result<String, AllocError> {
    let (query, name) = first_word(rest);
    let query = spelled(alloc, query)?;
    let name = spelled(alloc, name)?;
    match query_value(alloc, &query, &name)? {
        Some(value) => line(alloc, "value", value.bytes()),
        None => String::from_str(alloc, "no value"),
    }
}
