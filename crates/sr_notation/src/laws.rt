//! What crates above need of words. No function here does anything: its contract is the law.

ghost use Rattle.sr_notation.specs.Laws.{LimitsAreToldOnce, WordsAreCutOnce};

/// A text is cut at its first space into one word and one rest, or it has no space, and the digits of a number of 64 bits are a word.
pub fn words_are_cut_once()
    ensures { WordsAreCutOnce }
{}

/// The words of limits are those of no others.
pub fn limits_are_told_once()
    ensures { LimitsAreToldOnce }
{}
