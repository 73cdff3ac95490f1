//! How much is done of a measure.

#[derive(Clone, Copy)]
pub enum Length {
    Whole,
    /// A hundredth.
    Brief,
}

impl Length {
    /// How many of the rounds of the whole are done.
    pub fn of(self, rounds: u32) -> u32 {
        match self {
            Length::Whole => rounds,
            Length::Brief => rounds / 100,
        }
    }
}
