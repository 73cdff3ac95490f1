//! The hub of calculations, and the hub that a client has for its server's calls.
//!
//! A [`CalcHub`] has seven methods. `Echo` gives its argument back, `Add` the sum of two whole numbers, and `Fail` ends with an error.
//! `Count` streams numbers. `Sum` adds what is uploaded. `Slow` takes many turns. `Ask` calls its caller back, and ends as that call does.
//! A [`ClientHub`] has one, `Confirm`, and takes every other target too.
//!
//! ```text
//! let hub = CalcHub;
//! let mut job = hub.begin(alloc, &call, now)?;
//! let act = hub.step(alloc, &mut job, &Input::Go, now)?;
//! ```
//!
//! The definitions in `specs/` are the table of these methods: `specs/Table.antt` says which acts each makes for its arguments. The two
//! hubs compute that, and the laws say what whole runs of the jobs are.
//!
//! The crate doesn't know how calls come or answers go, nor how many jobs there are, nor other hubs.
#![tactic(auto)]

mod calc;
mod client;
mod job;
mod laws;
mod method;
mod refusal;
mod rows;

pub use calc::CalcHub;
pub use client::ClientHub;
pub use job::CalcJob;
pub use laws::{
    clients_answer, methods_do_their_work, nothing_is_handed_up, only_ask_asks,
    refusals_have_an_order, sums_add_up,
};
pub use refusal::{Refusal, wrong_kind};
