//! The interval of the stray power at a ground.
ghost use Rattle.std.specs.Prelude.{◌≡◌, ◌<◌, ◌≤◌, ◌*◌, ◌^◌, pos, ◌*ℤ◌, unsigned_abs, if◌then◌else◌};
ghost use Rattle.gic_fixed.specs.Encloses.{IsWithin};
ghost use Rattle.gic_fixed.specs.Ends.{ends_of};
ghost use Rattle.gic_fixed.specs.Rounding.{floor_div};
ghost use Rattle.gic_varied.specs.Enclosure.{varied_ends, product_ends, stray_ends};
ghost use Rattle.gic_grounds.specs.VariedEnds.{ends_seen};
ghost use Rattle.gic_grounds.specs.Varying.{most_adjoint, most_lift};

use crate::unit::MOST_UNITS;
use crate::varied::VariedEnds;
use gic_fixed::Interval;

/// A reference's potential, lowered by one lift and raised by another.
pub(crate) fn varied(reference: &Interval, lowering: &Interval, raising: &Interval) -> VariedEnds
    requires reference { IsWithin MOST_UNITS reference.now.lo reference.now.hi }
    requires lowering { IsWithin most_lift lowering.now.lo lowering.now.hi }
    requires raising { IsWithin most_lift raising.now.lo raising.now.hi }
    ensures value { ends_seen result ≡ varied_ends (ends_of reference.now) (ends_of lowering.now) (ends_of raising.now) }
    ensures small { IsWithin (17 * 2 ^ 54) result.low result.high }
{
    VariedEnds {
        low: reference.lo - lowering.hi,
        high: reference.hi + raising.hi,
    }
}

/// The products of an adjoint potential and a varied one.
#[tactic(auto, using(crate::proofs::Quotients::product_fits))]
pub(crate) fn product(one: &Interval, other: &VariedEnds) -> Interval
    requires one { IsWithin most_adjoint one.now.lo one.now.hi }
    requires other { IsWithin (17 * 2 ^ 54) other.now.low other.now.high }
    ensures value { ends_of result ≡ product_ends (ends_of one.now) (ends_seen other.now) }
    ensures small { IsWithin (5 * 2 ^ 113) result.lo result.hi }
{
    let low_low = other.low * one.lo;
    let high_low = other.high * one.lo;
    let low_high = other.low * one.hi;
    let high_high = other.high * one.hi;
    Interval {
        lo: low_low.min(high_low).min(low_high.min(high_high)),
        hi: low_low.max(high_low).max(low_high.max(high_high)),
    }
}

/// `number` times `factor` over `divisor` times `unit`, rounded down. The factor is at most 3000 times the divisor.
#[tactic(auto, using(crate::proofs::Quotients::fits_whole, crate::proofs::Quotients::fits_rest))]
fn quotient(factor: u64, number: i128, divisor: u64, unit: u64) -> i128
    requires divisor { 0 < divisor }
    requires least_divisor { divisor ≤ 10 ^ 18 }
    requires most_factor { factor ≤ 3000 * divisor }
    requires small_factor { factor ≤ 3 * 10 ^ 15 }
    requires unit { 2 ^ 22 ≤ unit }
    requires number { unsigned_abs number ≤ 5 * 2 ^ 113 }
    ensures value { result ≡ floor_div (pos factor *ℤ number) (pos (divisor * unit)) }
    ensures small { unsigned_abs result ≤ 2 ^ 105 }
{
    let factor = i128::from(factor);
    let divisor = i128::from(divisor);
    let whole = factor * number.div_euclid(divisor);
    let rest = (factor * number.rem_euclid(divisor)).div_euclid(divisor);
    (whole + rest).div_euclid(i128::from(unit))
}

/// The stray power of a ground of these resistances, which has the least of them in the reference, in units: of `d` times
/// the product for each conductance `d` from that of the greatest resistance less that of the least, up to 0.
fn stray_at_least(paths: u8, least: u32, most: u32, unit: u64, product: &Interval) -> Interval
    requires paths { paths ≤ 3 }
    requires least_ohm { 1000 ≤ least }
    requires ordered { least ≤ most }
    requires most_ohm { most ≤ 1000000000 }
    requires unit { 2 ^ 22 ≤ unit }
    requires product { IsWithin (5 * 2 ^ 113) product.now.lo product.now.hi }
    ensures value { ends_of result ≡ stray_ends (record { least = least; most = most }) paths least unit (ends_of product.now) }
    ensures small { IsWithin (2 ^ 105) result.lo result.hi }
{
    let factor = u64::from(paths) * 1_000_000 * u64::from(most - least);
    let divisor = u64::from(most) * u64::from(least);
    let low = quotient(factor, -product.hi, divisor, unit);
    let high = -quotient(factor, product.lo, divisor, unit);
    Interval {
        lo: low.min(0),
        hi: high.max(0),
    }
}

/// The same of a ground that has the greatest of them in the reference: of `d` times the product for each conductance `d` from
/// 0 up to that of the least resistance less that of the greatest.
fn stray_at_most(paths: u8, least: u32, most: u32, unit: u64, product: &Interval) -> Interval
    requires paths { paths ≤ 3 }
    requires least_ohm { 1000 ≤ least }
    requires ordered { least ≤ most }
    requires most_ohm { most ≤ 1000000000 }
    requires unit { 2 ^ 22 ≤ unit }
    requires product { IsWithin (5 * 2 ^ 113) product.now.lo product.now.hi }
    ensures value { ends_of result ≡ stray_ends (record { least = least; most = most }) paths most unit (ends_of product.now) }
    ensures small { IsWithin (2 ^ 105) result.lo result.hi }
{
    let factor = u64::from(paths) * 1_000_000 * u64::from(most - least);
    let divisor = u64::from(least) * u64::from(most);
    let low = quotient(factor, product.lo, divisor, unit);
    let high = -quotient(factor, -product.hi, divisor, unit);
    Interval {
        lo: low.min(0),
        hi: high.max(0),
    }
}

/// The stray power of a ground of these resistances, which has the greatest of them in the reference or the least.
pub(crate) fn stray(
    paths: u8,
    least: u32,
    most: u32,
    is_most: bool,
    unit: u64,
    product: &Interval,
) -> Interval
    requires paths { paths ≤ 3 }
    requires least_ohm { 1000 ≤ least }
    requires ordered { least ≤ most }
    requires most_ohm { most ≤ 1000000000 }
    requires unit { 2 ^ 22 ≤ unit }
    requires product { IsWithin (5 * 2 ^ 113) product.now.lo product.now.hi }
    ensures value { ends_of result ≡ stray_ends (record { least = least; most = most }) paths (if is_most then most else least) unit (ends_of product.now) }
    ensures small { IsWithin (2 ^ 105) result.lo result.hi }
{
    if is_most {
        stray_at_most(paths, least, most, unit, product)
    } else {
        stray_at_least(paths, least, most, unit, product)
    }
}
