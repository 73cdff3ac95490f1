//! The numbers that are drawn from a seed, as those of `sr soak` are.

/// What each number is multiplied by, and then what is added, for the next one (Knuth's MMIX).
const MULTIPLIER: u64 = 6_364_136_223_846_793_005;

const INCREMENT: u64 = 1_442_695_040_888_963_407;

/// The lower bits of a number, which are not given: they repeat sooner.
const LOWER_BITS: u32 = 33;

/// A linear congruential generator of 64 bits.
#[derive(Drop)]
pub struct Draws {
    x: u64,
}

impl Draws {
    /// One that begins with this seed.
    pub fn of(seed: u64) -> Draws {
        Draws { x: seed }
    }

    /// Draws a number: 31 bits of the next.
    pub fn next(&mut self) -> u64 {
        self.x = self.x.wrapping_mul(MULTIPLIER).wrapping_add(INCREMENT);
        self.x >> LOWER_BITS
    }
}
