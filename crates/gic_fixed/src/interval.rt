//! Intervals of whole numbers.
ghost use Rattle.std.specs.Prelude.{◌≡◌, pos, neg_ℤ, ◌+ℤ◌, ◌-ℤ◌, ◌*ℤ◌, ◌<ℤ◌, ◌≤ℤ◌, FitsSigned};
ghost use Rattle.std.specs.Int.{w128, int_min, int_max};
ghost use Rattle.gic_fixed.specs.Rounding.{floor_div, ceil_div, least_abs, greatest_abs};

use crate::division::{div_ceil, div_floor};

/// The whole numbers from `lo` to `hi`, both among them; `lo` is at most `hi`.
#[derive(Clone, Copy, PartialEq, Eq, Debug)]
pub struct Interval {
    pub lo: i128,
    pub hi: i128,
    pub ghost ordered: { lo ≤ℤ hi },
}

impl Interval {
    /// The interval from `lo` to `hi`.
    pub fn new(lo: i128, hi: i128) -> Interval
        requires { lo ≤ℤ hi }
        ensures low { result.lo ≡ lo }
        ensures high { result.hi ≡ hi }
    {
        Interval { lo, hi }
    }

    /// The interval of one number.
    pub fn point(a: i128) -> Interval
        ensures low { result.lo ≡ a }
        ensures high { result.hi ≡ a }
    {
        Interval { lo: a, hi: a }
    }

    /// The sums of a number of the one and a number of the other.
    pub fn add(self, other: Interval) -> Interval
        requires low { FitsSigned w128 (self.lo +ℤ other.lo) }
        requires high { FitsSigned w128 (self.hi +ℤ other.hi) }
        ensures low { result.lo ≡ self.lo +ℤ other.lo }
        ensures high { result.hi ≡ self.hi +ℤ other.hi }
    {
        Interval {
            lo: self.lo + other.lo,
            hi: self.hi + other.hi,
        }
    }

    /// The products with `k`. Below 0 it swaps the ends.
    pub fn scale(self, k: i128) -> Interval
        requires low { FitsSigned w128 (self.lo *ℤ k) }
        requires high { FitsSigned w128 (self.hi *ℤ k) }
        ensures low { result.lo ≡ int_min (self.lo *ℤ k) (self.hi *ℤ k) }
        ensures high { result.hi ≡ int_max (self.lo *ℤ k) (self.hi *ℤ k) }
    {
        let one = self.lo * k;
        let other = self.hi * k;
        Interval {
            lo: one.min(other),
            hi: one.max(other),
        }
    }

    /// The absolute values; they begin at 0 where the interval holds 0.
    pub fn abs(self) -> Interval
        requires { FitsSigned w128 (neg_ℤ self.lo) }
        ensures low { result.lo ≡ least_abs self.lo self.hi }
        ensures high { result.hi ≡ greatest_abs self.lo self.hi }
    {
        let turned_lo = -self.hi;
        let turned_hi = -self.lo;
        Interval {
            lo: self.lo.max(turned_lo).max(0),
            hi: self.hi.max(turned_hi),
        }
    }

    /// The quotients by `d`, which is above 0, the low end rounded down and the high end rounded up.
    pub fn div_out(self, d: i128) -> Interval
        requires { pos 0 <ℤ d }
        ensures low { result.lo ≡ floor_div self.lo d }
        ensures high { result.hi ≡ ceil_div self.hi d }
    {
        Interval {
            lo: div_floor(self.lo, d),
            hi: div_ceil(self.hi, d),
        }
    }

    /// How far the high end is above the low end.
    pub fn width(self) -> i128
        requires { FitsSigned w128 (self.hi -ℤ self.lo) }
        ensures { result ≡ self.hi -ℤ self.lo }
    {
        self.hi - self.lo
    }
}
