//! What the words of the command line ask for: `parse` makes a `Command` of them, or says that they are none. `settings` tells
//! of that command what has to be known before it can run, and `complaint` what is wrong with words that are none.
//!
//! `clap` reads the words that follow a command's name, and `hn_dialing` the URL among them. The contract says which words ask
//! for which command in terms of their own specifications, and that they ask for one command at most. This crate doesn't know
//! what a command does.
#![tactic(auto)]

mod adding;
mod auditing;
mod choice;
mod commands;
mod complaints;
mod dialing;
mod error;
mod reading;
mod serving;
mod words;

pub use adding::Adding;
pub use commands::Command;
pub use complaints::complaint;
pub use dialing::Dialing;
pub use error::WordsError;
pub use serving::{Serving, Settings};
pub use words::{MOST_STEPS, parse, settings};
