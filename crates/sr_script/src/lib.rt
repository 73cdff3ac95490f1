//! The grammar of scripts: what a text asks two ends of a hub connection to do, line by line.
//!
//! ```text
//! let script = parse(alloc, text)?;                  // or the number of the first line that no script has
//! let mut reader = Reader::start(alloc);
//! while let Some(asked) = reader.next_in(alloc, &script)? { /* an option, or an action */ }
//! ```
//!
//! `line.rt` reads one line, `turn.rt` says which line may come, and `script.rt` goes over all of them. `action.rt` has what they ask for.
//!
//! Proved: a text is a script that asks for one thing, or is refused at its first line that no script has ([`parse`]). What a reader gives
//! is what the script asks for, in order ([`Reader::next_in`]). [`parse_without_peers`] reads the scripts in which no line asks for peers. The definitions are `specs/Script.antt`. Options are those of
//! `sr_notation`.
//!
//! A script of one peer alone, without letters of ends, is read by the same words: [`line_end`], [`is_passed_over`], [`parse_peer_words`].
//!
//! The crate doesn't know what an action does, nor the ends that do it.
#![tactic(auto)]

mod action;
mod laws;
mod line;
mod script;
mod turn;

pub use action::{Action, Asking, Count};
pub use laws::{
    fronts_keep_lines, lines_are_cut, long_is_refused_by_its_front,
    long_is_refused_by_its_front_without_peers, scripts_are_in_turn, scripts_are_settled,
    scripts_suit, settings_come_first,
};
pub use line::{Asked, is_passed_over, parse_peer_words};
pub use script::{MOST_SCRIPT, Reader, Script, ScriptError, line_end, parse, parse_without_peers};
