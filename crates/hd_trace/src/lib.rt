//! Traces of sessions, in definitions: what the lines of a trace tell, which of them is the first that can't be, and why; and what there is to
//! keep of one end so that each line is judged by numbers.
//!
//! A trace is a session written down, line by line: what each end was fed, said, took and was handed. It tells a *world* of two ends, of which
//! `hd_delivery` proves that each message is processed once and in order; or it breaks off at one line, by one rule. The same is said of the lines
//! of one end alone, which tell a history that this end can make by itself, whatever is on the other side of its links.
//!
//! ```text
//!   what a line tells            rules, the first that is broken             an end's history
//!  ------------------------     ---------------------------------     --------------------------------
//!  Attach  Detach               Link                                   marks_of: numbers read off it
//!  Feed    Lend    Take    -->  State, Bytes, Due, Took, Room    <--   what a step makes of them
//!  Send    Tick    Close                                               what is due, what a frame gives
//! ```
//!
//! - `Traces`: what a line tells of an end, and which world the lines of both tell. `Alone`: which history those of one end tell.
//! - `Breaking`: the six rules, their order, and where a trace breaks off. May, what may come next, is their parameter: of two ends or of one.
//! - `Verdicts`: what lines come to ([`Verdict`], [`VerdictAlone`]): the counts of what they tell, or where they break off.
//! - `Recording`: the lines that tell a world, or a history. `Ticks`: what a recorder of one end writes before a link begins or is lost.
//! - `Marks`, `ByMarks`: what an auditor keeps of an end ([`Marks`]) as a function of its history, what each step makes of it, and what it says of
//!   the next step. [`Owed`] is what is due, as code names it, and [`Given`] what a frame gives.
//! - `ByNumbers`: the rules of two ends by marks, names of links, sums, and the lines that tell what each end said.
//!
//! Frames have any way to be written, and what is taken any words: both are parts of a `Setup`, as are the limits and how the two ends are begun.
//!
//! Proved (`src/laws.rt`): lines tell one world or history at most, which is one over bytes, on one clock, without faults; else they break off at one
//! line by one rule; what is recorded tells what it was recorded of, and lines are what is recorded of what they tell; marks follow the steps of a
//! history, and say what is due and what a frame gives; the ticks that a recorder writes do no harm. By numbers (`src/by_numbers.rt`): which link may
//! be begun, what may be fed, how much is unread, what is taken, room and stillness.
//!
//! The crate doesn't know how a line is spelled, files, nor the code of an end.
#![tactic(auto)]

mod by_numbers;
mod given;
mod laws;
mod marks;
mod owed;
mod said;
mod trace;
mod verdict;
mod worked;

pub use by_numbers::{
    attaches_alone_by_numbers, attaches_by_numbers, feeds_by_numbers, next_is_fed, room_by_numbers,
    still_by_numbers, taken_are_lent, takes_by_lines, unread_by_numbers,
};
pub use given::Given;
pub use laws::{
    alone_agrees, due_is_marked, lines_tell_one_world, marks_follow, off_link_is_enough,
    one_verdict, one_verdict_alone, records_tell, records_tell_alone, steps_tell_one_history,
    takes_are_marked, ticks_before_links, told_is_delivered, told_is_history, told_is_recorded,
    told_is_recorded_alone, told_is_world, verdict_alone_is_one, verdict_is_one,
};
pub use marks::{Farewell, Marks};
pub use owed::Owed;
pub use trace::{Rule, ToldStep, TraceLine};
pub use verdict::{Counts, Verdict, VerdictAlone};
pub use worked::{
    a_session, alone, bytes, first_lines, frames, links, marks_of_two, plain, room, states,
    verdicts, versions,
};
