//! The greater ends of two intervals.
ghost use Rattle.std.specs.Prelude.{◌≡◌};
ghost use Rattle.std.specs.Int.{int_max};

use gic_fixed::Interval;

/// The greater low end and the greater high end: the interval of the greater of two numbers.
pub fn peak(a: Interval, b: Interval) -> Interval
    ensures low { result.lo ≡ int_max a.lo b.lo }
    ensures high { result.hi ≡ int_max a.hi b.hi }
{
    Interval::new(a.lo.max(b.lo), a.hi.max(b.hi))
}
