//! What crates above cite. No function here does anything: its contract is the law.

ghost use Rattle.std.specs.Prelude.{◌≡◌};
ghost use Rattle.hk_latest.specs.Latest.{Fits, most_rows, most_row_bytes};
ghost use Rattle.hk_latest.specs.Laws.{LatestIsLongest, LatestOfLatest, NoneAfterTooGreat};

use crate::latest_keeper::{LatestKeeper, MOST_ROW_BYTES, MOST_ROWS};

/// The rows that a keeper holds never pass the two bounds, which are the numbers of the definitions.
pub fn held_is_bounded(keeper: &LatestKeeper)
    ensures held { Fits keeper.now.rows }
    ensures rows { MOST_ROWS ≡ most_rows }
    ensures bytes { MOST_ROW_BYTES ≡ most_row_bytes }
{
    keeper.shows_its_bounds();
}

/// The latest rows, as they are computed, are the longest end of all rows that may be held, and no other list is.
pub fn latest_is_longest()
    ensures { LatestIsLongest }
{}

/// The latest rows of the latest and of further ones are the latest of all, so what is dropped is never wanted again.
pub fn latest_of_latest()
    ensures { LatestOfLatest }
{}

/// A row that has too many bytes by itself isn't held, nor is one before it.
pub fn none_after_too_great()
    ensures { NoneAfterTooGreat }
{}
