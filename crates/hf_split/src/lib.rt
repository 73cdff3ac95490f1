//! Cuts a stream of bytes into frames, in whatever pieces it comes, and puts frames onto a stream.
//!
//! [`Splitter`] cuts: `feed` it a piece, lend a `frame`, `pass` it. [`wrap`] puts a frame onto a stream. How frames stand
//! there is a [`Framing`]. The crate does not know what a frame says.
//!
//! Proved for all streams and all ways to feed them: the frames lent are those of the stream's one cutting, each with its
//! place; a fault is told exactly if the bytes begin with one, and then no frame can begin. The laws, as [`one_cutting`], say that there is one
//! cutting, and what bytes can begin with.
#![tactic(auto)]

mod framing;
mod laws;
mod mark;
mod next;
mod splitter;
mod var_int;

pub use framing::{Framing, SEPARATOR, wrap};
pub use laws::{
    bad_length_begins_none, bad_length_stays, begins_once, empty_waits, has_cutting, one_beginning,
    one_cutting, too_long_begins_none, too_long_stays, waiting_has_room, wrapped_begins,
    wrapped_is_shortest,
};
pub use splitter::{GREATEST_LIMIT, SplitFault, Splitter};
pub use var_int::LONGEST_VAR_INT;
