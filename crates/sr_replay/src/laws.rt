//! What holds of runs and of their reports. No function here does anything: its contract is the law.

ghost use Rattle.sr_replay.specs.Laws.{EndsReport, ReportsHaveLines, ReportsOnce, RunsAreWorlds, RunsOnce, TracesOnce, TracesTell};

use hd_delivery::{
    fed_is_lent, frames_are_taken, unread_grows, unread_is_bounded, worlds_are_histories,
};
use hd_trace::{lines_tell_one_world, records_tell};
use he_end::{End, ends_deliver};
use he_wire::{has_wire, wire_is_sound};
use sr_script::{scripts_are_in_turn, scripts_are_settled};

/// Some actions have one run.
pub fn runs_once()
    ensures { RunsOnce }
{}

/// The run of actions in turn is a world of two ends.
pub fn runs_are_worlds()
    ensures { RunsAreWorlds }
{
    worlds_are_histories();
    frames_are_taken();
    fed_is_lent();
    unread_grows();
    unread_is_bounded();
}

/// A script without peers has one report.
pub fn reports_once()
    ensures { ReportsOnce }
{
    has_wire();
}

/// A script without peers has one trace.
pub fn traces_once()
    ensures { TracesOnce }
{
    has_wire();
}

/// The lines of a script's trace tell the world of its run and no other, so whoever judges them by what ends can do finds none that breaks off.
pub fn traces_tell()
    ensures { TracesTell }
{
    frames_are_taken();
    lines_tell_one_world();
    records_tell();
    scripts_are_in_turn();
}

/// Where these ends stand for a script's run, the text of the run is the script's report.
pub(crate) fn ends_report(client: &End, server: &End)
    ensures { EndsReport client.now server.now }
{
    scripts_are_in_turn();
    scripts_are_settled();
    runs_once();
    runs_are_worlds();
    wire_is_sound();
    ends_deliver(client, server);
}

/// A report has a line at least.
pub fn reports_have_lines()
    ensures { ReportsHaveLines }
{
    has_wire();
}
