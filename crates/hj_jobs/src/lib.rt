//! The jobs that the other side's calls begin, and the trait of the hubs whose methods they run (HubProtocol.md of ASP.NET Core,
//! "Invocations", "Streaming", "Upload streaming").
//!
//! ```text
//! let job = jobs.accept(alloc, hub, call, now)?;          // a call came: it begins a job
//! let job = jobs.item(&stream, value)?;                   // something came on a stream of its uploads
//! let job = jobs.cancel(&id)?;                            // it was cancelled
//! jobs.begin_round();
//! while let Some(stepped) = jobs.step(alloc, hub, now, room)? {
//!     ..                                                  // each job that is due has one turn, and this is what it did
//! }
//! jobs.answer(job, input)?;                               // what it asked for is answered
//! ```
//!
//! A table stands for the list of what happened to its jobs, as `hd_calls` has it: each call of this crate adds its happening. Proved:
//! what a job does at its turns is what its hub means, each turn is the one that was due, a round gives no job two turns and each that
//! is due one, and each refusal comes for its cause alone. At most 1,024 jobs are live, 4,096 inputs wait at each, and no input is taken
//! with which what jobs keep would weigh more than 16,777,216 (`weight`).
//!
//! The crate doesn't know ends, codecs, what is sent for a job, nor any one hub.
#![tactic(auto)]

mod entry;
mod errors;
mod hub;
mod ids;
mod jobs;
mod laws;
mod live;
mod weight;

pub use errors::{AcceptError, InputError};
pub use hub::Hub;
pub use jobs::Jobs;
pub use laws::jobs_keep_their_runs;
pub use live::Stepped;
