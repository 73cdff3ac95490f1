//! The words that scripts, reports and records share: how the options of an end are asked for, and how what it took is told.
//!
//! ```text
//! if let Some(setting) = parse_setting(alloc, line)? { /* `codec pack`, `version 3`, `buffer 1024 100000 32768`.. */ }
//! while let Some(got) = /* what the end takes next */ {
//!     push_got_words(alloc, &mut out, number, &got)?;     // `got 3 {"type":6}`, `acked 2`, `skipped duplicate 1`..
//!     out.push(b'\n')?;
//! }
//! ```
//!
//! `setting.rt` has the options, `reading.rt` what words ask for, and `telling.rt` what an end took, in words.
//!
//! Proved: a line is that of one option, which [`parse_setting`] gives, or of none. A number is read from its digits alone, without needless zeros
//! ([`parse_number`]). What [`push_got_words`] appends is what `specs/Words.antt` spells. What options say of two ends, and what holds where none
//! does, is `specs/Terms.antt`.
//!
//! The crate doesn't know ends, links, calls, nor where a line stands.
#![tactic(auto)]

mod laws;
mod reading;
mod setting;
mod telling;

pub use laws::{limits_are_told_once, words_are_cut_once};
pub use reading::{parse_buffer, parse_number, parse_setting, parse_version, split_at_space};
pub use setting::Setting;
pub use telling::{letter, push_got_words};
