//! What holds of all streams. A law is a function that does nothing: its contract is what counts.
ghost use Rattle.sr_check.specs.Laws.{HasOneAnswer, FaultsLast};

/// All bytes have exactly one answer of a task: it is done, or it is stopped, and one text is written.
pub fn has_one_answer()
    ensures { HasOneAnswer }
{
    hf_split::has_cutting();
    hf_split::begins_once();
    hf_split::one_beginning();
    hf_split::empty_waits();
    hm_codec::one_meaning();
}

/// A rest with which no frame can begin stays one, and begins with no frame, whatever comes after it.
pub(crate) fn faults_last()
    ensures { FaultsLast }
{
    hf_split::too_long_begins_none();
    hf_split::bad_length_begins_none();
    hf_split::too_long_stays();
    hf_split::bad_length_stays();
}
