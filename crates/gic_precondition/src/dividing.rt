//! Parts of a whole by one division.
ghost use Rattle.std.specs.Prelude.{◌*◌, ◌^◌, ◌≤◌, ◌<◌};

/// A whole to take parts of: `inverse / 2 ^ (127 - shift)` is 1 over it.
#[derive(Clone, Copy)]
pub struct Whole {
    inverse: u64,
    shift: u32,
    ghost few_bits: { shift < 64 },
}

/// A product of two numbers.
#[inline(always)]
fn wide_product(a: u64, b: u64) -> u128
    ensures { result < 2 ^ 128 }
{
    a as u128 * b as u128
}

/// A number, or the greatest there is where it has more bits.
#[inline(always)]
fn saturated(number: u128) -> u64 {
    number.min(u64::MAX as u128) as u64
}

impl Whole {
    ghost use Rattle.std.specs.Prelude.{◌≤◌};

    pub(crate) fn new(whole: u64) -> Whole {
        let whole = whole.max(1);
        let shift = whole.leading_zeros().min(63);
        let divisor = wide_product(whole, 1 << shift);
        Whole {
            inverse: saturated((1 << 127) / divisor.max(1)),
            shift,
        }
    }

    /// As much of a unit as the part is of the whole, rounded down, and off by one unit in 2^62 at most. Where the part
    /// is more than the whole, it is at most the unit all the same.
    pub(crate) fn part(&self, part: u64, unit: u64) -> u64
        ensures { result ≤ unit }
    {
        let part = saturated(wide_product(part, 1 << self.shift));
        let share = saturated(wide_product(part, self.inverse) >> 64);
        saturated(wide_product(unit, share) >> 63).min(unit)
    }
}
