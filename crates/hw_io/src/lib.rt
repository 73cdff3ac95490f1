//! The outside as a program sees it: sources of bytes and sinks for bytes, with counts of faults.
//!
//! [`Source`] and [`Sink`] are the traits. [`MemorySource`] and [`MemorySink`] are forms of them in
//! memory that fail at chosen calls, for tests; [`StdSource`] and [`StdSink`] stand over a reader
//! and a writer of std, such as a file, a socket or a standard stream.
//!
//! ```text
//! let mut piece = [0; 4096];
//! loop {
//!     let count = source.take(&mut piece)?;          // Err(Failed): nothing was taken
//!     if count == 0 { break; }                       // the end of the input
//!     sink.put(&piece[..count])?;                    // Err(Failed): a first part went out
//! }
//! ```
//!
//! Proved: `take` gives the first of the bytes that were left, and `put` takes all of a piece, after
//! those before; each fails if and only if its count of faults rises in that call, and then by one,
//! so no later call hides a fault, and two failed calls are told from one.
//!
//! The crate doesn't know frames, nor what the bytes say, and it neither waits nor tries again.
#![tactic(auto)]

mod failing;
mod memory_sink;
mod memory_source;
mod standard;
mod traits;

pub use memory_sink::MemorySink;
pub use memory_source::MemorySource;
pub use standard::{StdSink, StdSource};
pub use traits::{Failed, Sink, Source};
