//! What holds of traces. No function here does anything: its contract is the law.

ghost use Rattle.ha_audit.specs.Laws.{LinesAreLines, LongIsRefusedByItsFront, TracesAreToldOnce};

use hm_json::one_meaning;
use hv_json::text_has_no_control;
use sr_notation::{limits_are_told_once, words_are_cut_once};

/// A head and a step are told by one line each, which is that of no other head or step.
pub fn lines_are_lines()
    ensures { LinesAreLines }
{
    words_are_cut_once();
    limits_are_told_once();
    text_has_no_control();
    one_meaning();
}

/// A text is the trace of one head and of one list of lines at most.
pub fn traces_are_told_once()
    ensures { TracesAreToldOnce }
{
    lines_are_lines();
}

/// A text of more bytes than a trace may have is refused at the same line whatever bytes come after it.
pub fn long_is_refused_by_its_front()
    ensures { LongIsRefusedByItsFront }
{}
