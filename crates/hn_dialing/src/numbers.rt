//! The numbers in the rules of dialing.

ghost use Rattle.std.specs.Prelude.{◌≡◌, ◌≤◌};
ghost use Rattle.hd_dialing.specs.Numbers.{pause_after as pause_by};

/// A connection is given up once this many dials in a row were lost.
pub const MOST_LOST: u8 = 5;

/// For how many milliseconds nothing is dialed after the last of so many lost dials in a row.
pub(crate) fn pause_after(lost: u8) -> u64
    ensures pause { result ≡ pause_by lost }
    ensures most { result ≤ 2000 }
{
    match lost {
        2 => 500,
        3 => 1000,
        4 => 2000,
        _ => 0,
    }
}
