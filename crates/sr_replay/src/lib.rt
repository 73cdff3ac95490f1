//! Replays a script: a client's and a server's end (`he_end`), or two peers (`sr_peers`) if its options say so, do what its lines say, over
//! links that come and go, and what they do is reported.
//!
//! ```text
//! let script = sr_script::parse(alloc, text)?;       // or the number of the first line that no script has
//! let totals = replay(alloc, &script, &mut out)?;
//! record(alloc, &script, &mut trace)?;               // of a script without peers: each step of both ends
//! ```
//!
//! `player.rt` is one end on its link, and `pair.rt` both and the links between them. `replaying.rt` lets them do a script's actions and puts
//! the report, `recording.rt` puts the trace, and `peering.rt` lets two peers do them. `text_kind.rt` tells what an end did, in the one text or
//! the other; `sr_lines` spells what is reported.
//!
//! Proved: what is put for a script without peers is the text of the one run that its actions make. The steps of this run are a world of two
//! ends in the words of `hd_delivery`, and delivery holds in it. With peers it is the text of a run of its actions, in which calls are carried
//! out once ([`replay`]). What is put as the trace of a script without peers has a line for each step of the same run ([`record`]). The
//! definitions are `specs/Runs.antt`, `Report.antt` and `Trace.antt`, and those of `sr_peers`.
//!
//! The crate doesn't know how scripts are written, the words of a command line, nor files. A loop over frames runs to a bound that no end
//! reaches, since its measure can't be a history.
#![tactic(auto)]

mod laws;
mod pair;
mod peering;
mod player;
mod recording;
mod replaying;
mod text_kind;
mod told;

pub use laws::{
    reports_have_lines, reports_once, runs_are_worlds, runs_once, traces_once, traces_tell,
};
pub use recording::{RecordError, record};
pub use replaying::{ReplayError, Totals, replay, usual};
