//! A resistance to divide by.
use crate::interval::Interval;
use crate::long::{Reciprocal, ends_of, floor_of};
use std::marker::Model;

/// A resistance in micro-ohm, above 0, to divide by many times.
#[derive(Clone, Copy)]
pub struct Divisor {
    micro_ohm: u32,
    /// What the product of the resistance and the estimate is short of 2^64.
    slack: u32,
    /// 2^64 - 1 over the resistance, rounded down.
    estimate: u64,
}

impl Model for Divisor {
    ghost use Rattle.std.specs.Prelude.{ℕ, ◌≡◌, ◌+◌, ◌/◌, ◌%◌, ◌<◌};

    ghost Value = { ℕ };

    ghost view = { λ d. d.micro_ohm };

    ghost invariant = { λ d. (0 < d.micro_ohm)
        × (d.slack ≡ 18446744073709551615 % d.micro_ohm + 1)
        × (d.estimate ≡ 18446744073709551615 / d.micro_ohm) };

    ghost inverse = { λ n. record {
      micro_ohm = n;
      slack = 18446744073709551615 % n + 1;
      estimate = 18446744073709551615 / n;
    } };
}

impl Divisor {
    ghost use Rattle.std.specs.Prelude.{◌≡◌, ◌+◌, ◌*◌, ◌^◌, ◌<◌, ◌≤◌, pos};
    ghost use Rattle.gic_fixed.specs.Rounding.{floor_div, ceil_div};

    /// The divisor of a resistance in micro-ohm, which is above 0.
    pub fn new(micro_ohm: u32) -> Divisor
        requires { 0 < micro_ohm }
        ensures { result ≡ micro_ohm }
    {
        let divisor = micro_ohm as u64;
        Divisor {
            micro_ohm,
            slack: (u64::MAX % divisor) as u32 + 1,
            estimate: u64::MAX / divisor,
        }
    }

    /// The resistance with the estimate, in 64 bits.
    #[inline(always)]
    fn reciprocal(self) -> Reciprocal
        ensures some { 0 < result.divisor }
        ensures divisor { result.divisor ≡ self }
        ensures most { result.divisor < 2 ^ 32 }
        ensures estimate { result.estimate * result.divisor + result.slack ≡ 2 ^ 64 }
        ensures slack { result.slack ≤ result.divisor }
    {
        Reciprocal {
            divisor: self.micro_ohm as u64,
            estimate: self.estimate,
            slack: self.slack as u64,
        }
    }

    /// The number over the resistance, rounded down, also below 0.
    #[inline(always)]
    pub fn floor(self, number: i128) -> i128
        ensures { result ≡ floor_div number (pos self) }
    {
        floor_of(number, self.reciprocal())
    }

    /// The number over the resistance, the low end rounded down and the high end rounded up.
    #[inline(always)]
    pub fn rounded(self, number: i128) -> Interval
        ensures low { result.lo ≡ floor_div number (pos self) }
        ensures high { result.hi ≡ ceil_div number (pos self) }
    {
        let ends = ends_of(number, self.reciprocal());
        Interval {
            lo: ends.low,
            hi: ends.high,
        }
    }
}
