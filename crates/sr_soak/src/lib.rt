//! A soak: two peers make calls, write, read and open new links as numbers say that are drawn from a seed, and then go on until a turn does
//! nothing. What that comes to is one line.
//!
//! `draws.rt` draws the numbers, `recipe.rt` makes actions of them, and `soaking.rt` lets the peers of `sr_peers` do these.
//!
//! Proved: the line counts the calls, the endings and the live calls of a run of the script that `specs/Recipe.antt` spells, and of turns up
//! to the first that does nothing, so many at most (`specs/Soaks.antt`). Each call with an id has ended or is live ([`soak`]).
//!
//! The crate doesn't know the words of a command line. Its script isn't kept: it may have 2^32 steps.
#![tactic(auto)]

mod draws;
mod recipe;
mod soaking;
mod totals;

pub use soaking::soak;
pub use totals::Totals;
