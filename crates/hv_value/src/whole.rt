//! Whole numbers.
ghost use Rattle.std.specs.Prelude.{◌≡◌, ◌↔◌, pos, IsSome, IfSome};
ghost use Rattle.hv_value.specs.Whole.{IsWhole};

use std::marker::Model;

const LEAST: i128 = -(1 << 63);

const GREATEST: i128 = (1 << 64) - 1;

/// A whole number from -2^63 to 2^64 - 1: what the integer formats of the
/// MessagePack specification hold.
#[derive(Clone, Copy, Debug, PartialEq, Eq)]
pub struct Whole {
    n: i128,
}

impl Model for Whole {
    ghost use Rattle.std.specs.Prelude.{ℤ};

    ghost Value = { ℤ };

    ghost use Rattle.hv_value.specs.Whole.{IsWhole};

    ghost view = { λ w. w.n };

    ghost invariant = { λ w. IsWhole w.n };

    ghost inverse = { λ z. record { n = z } };
}

impl Whole {
    /// The number, where it is in range.
    pub fn of(n: i128) -> Option<Whole>
        ensures in_range { IsSome result ↔ IsWhole n }
        ensures value { IfSome result (λ w. w ≡ n) }
    {
        if n < LEAST || n > GREATEST {
            return None;
        }
        Some(Whole { n })
    }

    /// The number.
    pub fn get(self) -> i128
        ensures value { result ≡ self }
        ensures in_range { IsWhole result }
    {
        self.n
    }
}

impl From<u64> for Whole {
    ghost from_gives = { λ n w. w ≡ pos n };

    fn from(n: u64) -> Whole {
        Whole { n: i128::from(n) }
    }
}

impl From<i64> for Whole {
    ghost from_gives = { λ n w. w ≡ n };

    fn from(n: i64) -> Whole {
        Whole { n: i128::from(n) }
    }
}
