//! The greatest current over all orientations of a uniform field.
ghost use Rattle.std.specs.Prelude.{◌≡◌, ℕ, ◌+◌, ◌*◌, ◌^◌, ◌<◌, ◌≤◌, ℤ, pos, ◌≤ℤ◌, unsigned_abs};
ghost use Rattle.gic_fixed.specs.Ends.{ends_of, IsAtMostWide};
ghost use Rattle.gic_fixed.specs.Encloses.{Encloses, IsWithin};
ghost use Rattle.gic_fixed.specs.Roots.{IsFloorRoot, IsCeilRoot};
ghost use Rattle.gic_criteria.specs.Worst.{square_of, EnclosesWorst, IsWorstOf};

use gic_fixed::{Interval, isqrt_ceil, isqrt_floor};

fn square(end: i128) -> u128
    requires { unsigned_abs end ≤ 2 ^ 62 }
    ensures value { result ≡ square_of end }
    ensures small { result ≤ 2 ^ 124 }
{
    let size = end.unsigned_abs();
    size * size
}

/// The root of the sum of two squares, rounded down.
fn floor_length(a: i128, b: i128) -> i128
    requires a { unsigned_abs a ≤ 2 ^ 62 }
    requires b { unsigned_abs b ≤ 2 ^ 62 }
    ensures sign { pos 0 ≤ℤ result }
    ensures root { IsFloorRoot (square_of a + square_of b) (unsigned_abs result) }
{
    isqrt_floor(square(a) + square(b)) as i128
}

/// The root of the sum of two squares, rounded up.
fn ceil_length(a: i128, b: i128) -> i128
    requires a { unsigned_abs a ≤ 2 ^ 62 }
    requires b { unsigned_abs b ≤ 2 ^ 62 }
    ensures sign { pos 0 ≤ℤ result }
    ensures root { IsCeilRoot (square_of a + square_of b) (unsigned_abs result) }
{
    isqrt_ceil(square(a) + square(b)) as i128
}

/// The absolute current for the worst orientation of a uniform field, from the signed currents for the field to the
/// north and for the same field to the east: the root of the sum of their squares, rounded outward. It is in the unit
/// of the two, no end of which is beyond 2^62 either way.
pub fn worst(north: Interval, east: Interval) -> Interval
    requires north { IsWithin (2 ^ 62) north.lo north.hi }
    requires east { IsWithin (2 ^ 62) east.lo east.hi }
    ensures is { IsWorstOf (ends_of north) (ends_of east) (ends_of result) }

    // Whatever fractions n/d and m/e the two intervals enclose, the result encloses their worst current.
    ensures holds { (n : ℤ) (d : ℕ) (m : ℤ) (e : ℕ) →
        Encloses north.lo north.hi n d → Encloses east.lo east.hi m e →
        EnclosesWorst result.lo result.hi n d m e }

    // From a width of 2 on, the result is at most twice as wide as the wider of the two.
    ensures narrow { (width : ℕ) → 2 ≤ width →
        IsAtMostWide width north.lo north.hi → IsAtMostWide width east.lo east.hi →
        IsAtMostWide (2 * width) result.lo result.hi }
{
    let a = north.abs();
    let b = east.abs();
    Interval::new(floor_length(a.lo, b.lo), ceil_length(a.hi, b.hi))
}
