//! Traces of sessions, read and judged: a session of two hub ends that was written down line by line, or the lines of one of the two.
//!
//! ```text
//! trace json 2 on 1024 100000 32768      the head: codec, version, whether links may change, what each end may hold
//! c attach 0                             the client stands on link 0
//! s attach 0                             and the server
//! c lent 7b2270726f746f636f6c..           it said a frame of these bytes
//! s fed 7b2270726f746f636f6c..           the server was fed these bytes
//! s took shaken                          it dealt with a frame, which gave this
//! ```
//!
//! ```text
//! let trace = parse(alloc, text)?;                       // or the number of the first line that no trace has
//! match audit(alloc, &trace)? {
//!     Verdict::World { client, server, still } => ..     // it is what two ends can do: how many messages each sent and processed
//!     Verdict::Breaks { line, rule } => ..               // the first line that can't come next, and why
//! }
//! ```
//!
//! `head.rt` reads the first line, `line.rt` any other, `reader.rt` goes over them, and `trace.rt` says whether a text is a trace. `verdict.rt` says
//! what the lines of two ends come to, by `auditor.rt`, which keeps numbers of both ends and judges one line more, with a file of `auditor/` for each
//! kind of line; `alone.rt` and `alone/` do so for the lines of one end, whose bytes are read here, since nothing else tells what its frames were.
//! `wording.rt` writes a verdict as a line. What a line tells, and which lines are a session, is `hd_trace`'s.
//!
//! Proved: a text is the trace of one head and one list of lines, and then [`parse`] gives it and a [`Reader`] its lines in order; or it is refused
//! at the first line with which no trace goes on. The definitions are `specs/Grammar.antt`: the grammar is its printer. [`audit`] gives the one
//! verdict that the lines have over the wire of this project (`specs/AuditVerdict.antt`), and [`audit_alone`] that on the lines of one end
//! (`specs/AloneVerdict.antt`).
//!
//! The crate doesn't know files, nor the code of an end: what it judges by are the definitions alone.
#![tactic(auto)]

mod alone;
mod auditor;
mod error;
mod head;
mod laws;
mod line;
mod reader;
mod trace;
mod verdict;
mod wording;
mod worked;

pub use alone::audit_alone;
pub use error::TraceError;
pub use head::Head;
pub use laws::{lines_are_lines, long_is_refused_by_its_front, traces_are_told_once};
pub use reader::Reader;
pub use trace::{MOST_TRACE, Trace, parse, parse_alone};
pub use verdict::audit;
pub use wording::{verdict_alone_line, verdict_line};
pub use worked::spelled;
