//! Draws of numbers, by which an elimination is sampled.
ghost use Rattle.std.specs.Prelude.{◌≤◌};

/// A linear congruential generator.
#[derive(Clone, Copy, Drop)]
pub struct Draws {
    state: u32,
}

const MULTIPLIER: u32 = 1664525;

const INCREMENT: u32 = 1013904223;

impl Draws {
    /// Always the same draws.
    pub(crate) fn new() -> Draws {
        Draws { state: 1 }
    }

    /// A number below the limit; 0 where the limit is 0.
    pub(crate) fn below(&mut self, limit: u64) -> u64 {
        self.state = self.state.wrapping_mul(MULTIPLIER).wrapping_add(INCREMENT);
        let product = limit as u128 * self.state as u128;
        (product >> 32).min(limit as u128) as u64
    }
}
