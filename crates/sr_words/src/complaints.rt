//! What is said to a person whose words are no command. Nothing is promised of it: it is for reading.

use crate::adding::USER_OPTIONS;
use crate::auditing::AUDIT_OPTIONS;
use crate::choice::Choice;
use crate::dialing::CLIENT_OPTIONS;
use crate::error::WordsError;
use crate::reading::{address, base, codec, hub, live, number, port, resend, side};
use crate::serving::SERVE_OPTIONS;
use crate::words::{audit_command, client_command, matches_in, serve_command, text, texts};
use clap::ArgMatches;
use std::alloc::{AllocError, Global};

/// The commands that there are.
const COMMANDS: &str =
    "the commands are replay, soak, serve, client, check, convert, user, record and audit";

/// What is wrong with words that are no command, and what the command that they name takes, in one line without its end.
pub fn complaint(alloc: Global, words: &[String]) -> Result<String, AllocError> {
    let [name, rest @ ..] = words else {
        return format!(in alloc; "no command is given; {COMMANDS}");
    };
    let name = name.as_str();
    let Some(form) = form_of(name) else {
        return format!(in alloc; "{name} is no command; {COMMANDS}");
    };
    if let Some(option) = unknown_option(options_of(name), rest) {
        return format!(in alloc; "{name} has no option {option}; it takes {form}");
    }
    match refused(alloc, name, rest) {
        Ok(Some(part)) => format!(in alloc;
            "{name} doesn't take what {part} says; it takes {form}"
        ),
        _ => format!(in alloc; "{name} doesn't take these words; it takes {form}"),
    }
}

/// What may come after a command's name.
fn form_of(name: &str) -> Option<&'static str> {
    match name {
        "replay" | "record" => Some("no words: its script comes by standard input"),
        "audit" => Some("--side SIDE (client or server); its trace comes by standard input"),
        "soak" => Some("SEED STEPS, a number of 64 bits and one up to 100000"),
        "check" => Some("CODEC, which is json or pack"),
        "convert" => Some("FROM TO, which are json and pack, or pack and json"),
        "serve" => Some(
            "--port N (up to 65535), --base PATH (it begins with / and doesn't end with one), --turns N (of 64 bits), \
             --listen ADDRESS (an IP address), --resend COUNT BYTES (1 to 65536, and 32773 to 524288), \
             --live N (1 to 10000), --store FILE",
        ),
        "client" => Some(
            "URL (http://HOST:PORT/BASE, without user, query and fragment), --codec CODEC (json or pack), --token TEXT, \
             --turns N (of 64 bits), --resend COUNT BYTES (1 to 65536, and 32773 to 524288)",
        ),
        "user" => Some("TOKEN NAME --store FILE"),
        _ => None,
    }
}

/// The options of a command, if it takes options at all.
fn options_of(name: &str) -> Option<&'static [Choice]> {
    match name {
        "serve" => Some(SERVE_OPTIONS),
        "client" => Some(CLIENT_OPTIONS),
        "user" => Some(USER_OPTIONS),
        "audit" => Some(AUDIT_OPTIONS),
        _ => None,
    }
}

/// The first word that would be an option, if it is none of these options.
fn unknown_option<'a>(options: Option<&[Choice]>, words: &'a [String]) -> Option<&'a str> {
    let options = options?;
    for word in words {
        if let Some(rest) = word.as_str().strip_prefix("--")
            && !rest.is_empty()
            && !is_option(options, rest)
        {
            return Some(word.as_str());
        }
    }
    None
}

/// Whether a text begins with the name of one of these options, and ends there or goes on with its value.
fn is_option(options: &[Choice], text: &str) -> bool {
    for option in options {
        if let Some(rest) = text.strip_prefix(option.name)
            && (rest.is_empty() || rest.starts_with('='))
        {
            return true;
        }
    }
    false
}

/// The first option or argument of the command of this name that says what it may not say. `NoCommand` if the words aren't options,
/// arguments and their texts at all.
fn refused(
    alloc: Global,
    name: &str,
    words: &[String],
) -> Result<Option<&'static str>, WordsError> {
    match name {
        "serve" => refused_by_serve(alloc, words),
        "client" => refused_by_client(alloc, words),
        "audit" => refused_by_audit(alloc, words),
        _ => Ok(None),
    }
}

fn refused_by_serve(alloc: Global, words: &[String]) -> Result<Option<&'static str>, WordsError> {
    let matches = matches_in(serve_command(alloc)?, words)?;
    if port(text(&matches, "port", "8080")).is_err() {
        return Ok(Some("--port"));
    }
    if base(alloc, text(&matches, "base", "/hub")).is_err() {
        return Ok(Some("--base"));
    }
    if address(text(&matches, "listen", "127.0.0.1")).is_err() {
        return Ok(Some("--listen"));
    }
    if live(text(&matches, "live", "10000")).is_err() {
        return Ok(Some("--live"));
    }
    Ok(refused_by_both(&matches))
}

fn refused_by_client(alloc: Global, words: &[String]) -> Result<Option<&'static str>, WordsError> {
    let matches = matches_in(client_command(alloc)?, words)?;
    if hub(alloc, text(&matches, "url", ""), None).is_err() {
        return Ok(Some("URL"));
    }
    if codec(text(&matches, "codec", "json")).is_err() {
        return Ok(Some("--codec"));
    }
    Ok(refused_by_both(&matches))
}

fn refused_by_audit(alloc: Global, words: &[String]) -> Result<Option<&'static str>, WordsError> {
    let matches = matches_in(audit_command(alloc)?, words)?;
    if side(text(&matches, "side", "client")).is_err() {
        return Ok(Some("--side"));
    }
    Ok(None)
}

/// The first of the options that `serve` and `client` have in common that says what it may not say.
fn refused_by_both(matches: &ArgMatches) -> Option<&'static str> {
    if number(text(matches, "turns", "0")).is_err() {
        return Some("--turns");
    }
    if resend(texts(matches, "resend", ("1024", "100000"))).is_err() {
        return Some("--resend");
    }
    None
}
