//! How the verdict on a trace is spelled. It doesn't know how it was found.

ghost use Rattle.std.specs.Prelude.{◌≡◌, IfOk, string_bytes};
ghost use Rattle.ha_audit.specs.VerdictLines.{breaks_line, history_line, rule_word, still_words, verdict_alone_line, verdict_line, world_line};

use hd_delivery::Side;
use hd_trace::{Counts, Rule, Verdict, VerdictAlone};
use sr_notation::letter;
use std::alloc::{AllocError, Global};

/// The word of a rule.
fn rule_word(rule: Rule) -> &'static str
    ensures { result.now ≡ rule_word rule }
{
    match rule {
        Rule::Link => "link",
        Rule::State => "state",
        Rule::Bytes => "bytes",
        Rule::Due => "due",
        Rule::Took => "took",
        Rule::Room => "room",
    }
}

/// What is said of two ends that are still.
fn still_words(still: bool) -> &'static str
    ensures { result.now ≡ still_words still }
{
    if still { " still" } else { "" }
}

/// The line of a trace that breaks off.
fn breaks_line(alloc: Global, number: u64, rule: Rule) -> Result<String, AllocError>
    ensures { IfOk result (λ line. string_bytes line ≡ breaks_line number rule) }
{
    let word = rule_word(rule);
    format!(in alloc; "line {number} breaks {word}\n")
}

/// The line of two ends with these counts.
fn world_line(
    alloc: Global,
    client: Counts,
    server: Counts,
    still: bool,
) -> Result<String, AllocError>
    ensures { IfOk result (λ line. string_bytes line ≡ world_line client server still) }
{
    let (client_sent, client_processed) = (client.sent, client.processed);
    let (server_sent, server_processed) = (server.sent, server.processed);
    let end = still_words(still);
    format!(in alloc;
        "world client sent {client_sent} processed {client_processed} server sent {server_sent} processed {server_processed}{end}\n"
    )
}

/// The line of one end with these counts.
fn history_line(alloc: Global, side: Side, counts: Counts) -> Result<String, AllocError>
    ensures { IfOk result (λ line. string_bytes line ≡ history_line side counts) }
{
    let (sent, processed) = (counts.sent, counts.processed);
    let letter = letter(side);
    format!(in alloc; "history {letter} sent {sent} processed {processed}\n")
}

/// The verdict on a trace of two ends, as a line.
pub fn verdict_line(alloc: Global, verdict: Verdict) -> Result<String, AllocError>
    ensures { IfOk result (λ line. string_bytes line ≡ verdict_line verdict) }
{
    match verdict {
        Verdict::World {
            client,
            server,
            still,
        } => world_line(alloc, client, server, still),
        Verdict::Breaks { line, rule } => breaks_line(alloc, line, rule),
    }
}

/// The verdict on the trace of this end alone, as a line.
pub fn verdict_alone_line(
    alloc: Global,
    side: Side,
    verdict: VerdictAlone,
) -> Result<String, AllocError>
    ensures { IfOk result (λ line. string_bytes line ≡ verdict_alone_line side verdict) }
{
    match verdict {
        VerdictAlone::History(counts) => history_line(alloc, side, counts),
        VerdictAlone::Breaks { line, rule } => breaks_line(alloc, line, rule),
    }
}
