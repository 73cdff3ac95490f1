//! Draws from the system's random bytes.

ghost use Rattle.std.specs.Prelude.{◌≡◌, ℕ};
ghost use Rattle.hw_door.specs.Standard.{lots_faults};

use crate::traits::Lots;
use hw_io::Failed;
use rand::rngs::SysRng;
use rand_core::TryRng;
use std::random::RandomSource;

/// Draws from the system's random bytes. What they give isn't known.
#[derive(Drop)]
pub struct RandLots<'a, R> {
    source: SysRng<'a, R>,
    faults: u64,
}

impl<'a, R: RandomSource> RandLots<'a, R> {
    /// Lots over this runtime, which didn't fail yet.
    pub fn new(runtime: &'a R) -> RandLots<'a, R>
        ensures { lots_faults result ≡ 0 }
    {
        RandLots {
            source: SysRng::new(runtime),
            faults: 0,
        }
    }
}

impl<'a, R: RandomSource> Lots for RandLots<'a, R> {
    ghost faults = { λ s. s.faults };

    /// Draws from the system, once. Each error of the system is one fault.
    fn draw(&mut self) -> Result<[u8; 16], Failed> {
        let mut bytes = [0; 16];
        match self.source.try_fill_bytes(&mut bytes) {
            Ok(()) => Ok(bytes),
            Err(_) => {
                self.faults = self.faults.saturating_add(1);
                Err(Failed)
            }
        }
    }
}
