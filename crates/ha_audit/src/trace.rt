//! Whether a text is a trace: from its bytes to a [`Trace`], or to the first line with which no trace goes on.

ghost use Rattle.std.specs.Prelude.{◌≡◌, [], List, Option, None, Some, IfOk, IfErr, length};
ghost use Rattle.hd_delivery.specs.declared.vocabulary.Side.{Side};
ghost use Rattle.hd_trace.specs.declared.trace.TraceLine.{TraceLine};
ghost use Rattle.ha_audit.specs.Grammar.{IsTrace, trace_text};
ghost use Rattle.ha_audit.specs.Reading.{Begins, HasLines, Parses, RefusesText};

use crate::error::TraceError;
use crate::head::{Head, parse_head};
use crate::laws::lines_are_lines;
use crate::line::split_line;
use crate::reader::Reader;
use hd_delivery::Side;
use std::alloc::Global;
use std::marker::Model;

/// The most bytes of a trace: 64 MiB.
pub const MOST_TRACE: usize = 67_108_864;

/// A text that is the trace of a session, of both ends or of one alone. It holds the text, and no list of lines, which would take many times its
/// memory: a [`Reader`] gives them one after the other.
#[derive(Drop)]
pub struct Trace {
    text: Vec<u8>,
    head: Head,
    // where the second line begins
    body: usize,
    only: Option<Side>,
}

impl Model for Trace {
    ghost use Rattle.std.specs.Prelude.{◌≡◌, [], List, length};
    ghost use Rattle.hd_trace.specs.declared.trace.TraceLine.{TraceLine};
    ghost use Rattle.ha_audit.specs.Grammar.{IsTrace, trace_text};
    ghost use Rattle.ha_audit.specs.Reading.{TraceText};

    ghost Value = { TraceText };

    ghost view = { λ t. record { text = t.text.items; head = t.head; only = t.only } };

    ghost invariant = { λ t. (t.body ≡ length (trace_text t.head [])) × ((lines : List TraceLine) × IsTrace t.only t.text.items t.head lines) };
}

impl Trace {
    /// How the two ends of the session are begun.
    pub fn head(&self) -> Head
        ensures { result ≡ self.now.head }
    {
        self.head
    }

    /// The end of whose lines alone this is the trace, if it isn't that of both.
    pub fn only(&self) -> Option<Side>
        ensures { result ≡ self.now.only }
    {
        self.only
    }

    /// Its bytes, at most [`MOST_TRACE`].
    pub fn text(&self) -> &[u8]
        ensures value { result.now ≡ self.now.text }
        ensures trace { (lines : List TraceLine) × HasLines self.now lines }
    {
        &self.text
    }

    /// Where its second line begins.
    pub(crate) fn body(&self) -> usize
        ensures place { result ≡ length (trace_text self.now.head []) }
        ensures trace { (lines : List TraceLine) × HasLines self.now lines }
    {
        self.body
    }
}

/// The trace of two ends that this text is, or the number of the first line at which it stops being one. A line that goes past the first 64 MiB is
/// refused, and so is one that doesn't end.
pub fn parse(alloc: Global, text: &[u8]) -> Result<Trace, TraceError>
    ensures ok { IfOk result (λ trace. Parses None text.now trace) }
    ensures refused { IfErr result (λ e. RefusesText None e text.now) }
{
    parse_lines(alloc, text, None)
}

/// As [`parse`], for the lines of one end alone: a line of the other end is refused.
pub fn parse_alone(alloc: Global, text: &[u8], side: Side) -> Result<Trace, TraceError>
    ensures ok { IfOk result (λ trace. Parses (Some side) text.now trace) }
    ensures refused { IfErr result (λ e. RefusesText (Some side) e text.now) }
{
    parse_lines(alloc, text, Some(side))
}

/// The trace of both ends, or of the one that is named.
fn parse_lines(alloc: Global, text: &[u8], only: Option<Side>) -> Result<Trace, TraceError>
    ensures ok { IfOk result (λ trace. Parses only text.now trace) }
    ensures refused { IfErr result (λ e. RefusesText only e text.now) }
{
    let (head, body) = read_head(alloc, text)?;
    let mut reader = Reader::after(alloc, body);
    while reader.pass(alloc, text, only)? {}
    let text = Vec::from_slice(alloc, text)?;
    Ok(Trace {
        text,
        head,
        body,
        only,
    })
}

/// The head that a text begins with, and where the line after it begins.
fn read_head(alloc: Global, text: &[u8]) -> Result<(Head, usize), TraceError>
    ensures ok { IfOk result (λ read. (only : Option Side) → Begins only text.now read.0 []) }
    ensures place { IfOk result (λ read. read.1 ≡ length (trace_text read.0 [])) }
    ensures refused { IfErr result (λ e. (only : Option Side) → RefusesText only e text.now) }
{
    lines_are_lines();
    let Some((line, _rest)) = split_line(text) else {
        return Err(TraceError::Line(1));
    };
    if line.len() >= MOST_TRACE {
        return Err(TraceError::Line(1));
    }
    let Some(head) = parse_head(alloc, line)? else {
        return Err(TraceError::Line(1));
    };
    Ok((head, line.len() + 1))
}
