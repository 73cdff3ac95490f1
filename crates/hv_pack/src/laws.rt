//! What holds of all bytes and all values, for proofs of other crates to call upon. Each function does nothing: its contract is
//! the law.
ghost use Rattle.hv_pack.specs.Laws.{HasOneReading, HasOneRefusal, SpelledIsNotRefused, IsSpelledOrRefused, ShortestReadsBack, ShortestIsShortest};

use hv_value::{map_has_the_keys, map_keys_are_in_order, pairs_in_order_are_their_map};

/// At a place, bytes spell one value, with one end.
pub fn one_reading()
    ensures { HasOneReading }
{}

/// Bytes are refused for one reason, at one place.
pub fn one_refusal()
    ensures { HasOneRefusal }
{}

/// Bytes that spell a value are not refused.
pub fn spelled_is_not_refused()
    ensures { SpelledIsNotRefused }
{}

/// Bytes spell a value, or they are refused.
pub fn is_spelled_or_refused()
    ensures { IsSpelledOrRefused }
{}

/// The shortest spelling is read as its value again, whatever stands round it.
pub fn shortest_reads_back()
    ensures { ShortestReadsBack }
{
    pairs_in_order_are_their_map();
}

/// What has a spelling has the one that `write_value` appends, and none has fewer bytes.
pub fn shortest_is_shortest()
    ensures { ShortestIsShortest }
{
    map_has_the_keys();
    map_keys_are_in_order();
    pairs_in_order_are_their_map();
}
