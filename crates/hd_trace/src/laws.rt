//! What holds of traces, of two ends and of one, and of marks. No function here does anything: its contract is the law.

ghost use Rattle.hd_trace.specs.MarkLaws.{DueIsMarked, MarksFollow, TakesAreMarked};
ghost use Rattle.hd_trace.specs.Ticks.{OffLinkIsEnough, TicksBeforeLinks};
ghost use Rattle.hd_trace.specs.Verdicts.{VerdictAloneIsOne, VerdictIsOne};
ghost use Rattle.hd_trace.specs.Laws.{AloneAgrees, LinesTellOneWorld, OneVerdict, OneVerdictAlone, RecordsTell, RecordsTellAlone, StepsTellOneHistory, ToldIsDelivered, ToldIsHistory, ToldIsRecorded, ToldIsRecordedAlone, ToldIsWorld};

use hd_delivery::{delivery_over_bytes, frames_count, links_grow, unused_is_untouched};

/// Lines tell one world at most.
pub fn lines_tell_one_world()
    ensures { LinesTellOneWorld }
{}

/// What lines tell is a world over bytes in which both ends are on one clock and meet no fault. So each message that was sent had room.
pub fn told_is_world()
    ensures { ToldIsWorld }
{}

/// In a world that lines tell each message is processed once and in order, if what is said in it is read as itself.
pub fn told_is_delivered()
    ensures { ToldIsDelivered }
{
    delivery_over_bytes();
    told_is_world();
}

/// A trace tells a world, or it breaks off at one line by one rule; not both, and never neither.
pub fn one_verdict()
    ensures { OneVerdict }
{}

/// A trace has one verdict at most, with its numbers.
pub fn verdict_is_one()
    ensures { VerdictIsOne }
{
    one_verdict();
    lines_tell_one_world();
}

/// What is recorded of a world tells this world, if a line can tell each of its steps.
pub fn records_tell()
    ensures { RecordsTell }
{}

/// Lines are what is recorded of the world that they tell.
pub fn told_is_recorded()
    ensures { ToldIsRecorded }
{}

/// The lines of one end tell one history at most.
pub fn steps_tell_one_history()
    ensures { StepsTellOneHistory }
{}

/// What the lines of one end tell is a history that it can make by itself, with the names of links that are its own to give.
pub fn told_is_history()
    ensures { ToldIsHistory }
{}

/// The lines of one end tell a history, or they break off at one line by one rule; not both, and never neither.
pub fn one_verdict_alone()
    ensures { OneVerdictAlone }
{}

/// The lines of one end have one verdict at most, with its numbers.
pub fn verdict_alone_is_one()
    ensures { VerdictAloneIsOne }
{
    one_verdict_alone();
    steps_tell_one_history();
}

/// What is recorded of one end tells its history, if a line can tell each of its steps.
pub fn records_tell_alone()
    ensures { RecordsTellAlone }
{}

/// The lines of one end are what is recorded of the history that they tell.
pub fn told_is_recorded_alone()
    ensures { ToldIsRecordedAlone }
{}

/// What may come next beside another end may come next at an end alone; and all else but bytes and a server's links is judged alike.
pub fn alone_agrees()
    ensures { AloneAgrees }
{}

/// After each step the marks are those that the step makes of the marks before it.
pub fn marks_follow()
    ensures { MarksFollow }
{
    links_grow();
    frames_count();
    unused_is_untouched();
}

/// What is due is said by the marks and the messages that were sent, at an end that met no fault.
pub fn due_is_marked()
    ensures { DueIsMarked }
{}

/// What the next frame gives, silences and the state are said by the marks.
pub fn takes_are_marked()
    ensures { TakesAreMarked }
{}

/// A tick right before a link begins has no effect after that, a silence neither, and the link may begin exactly if it might without it; one right
/// before a loss has none off the link, and a silence is a loss.
pub fn ticks_before_links()
    ensures { TicksBeforeLinks }
{}

/// Of an end without a link, nothing that is asked depends on when its last link was heard, nor on whether it was quiet there.
pub fn off_link_is_enough()
    ensures { OffLinkIsEnough }
{}
