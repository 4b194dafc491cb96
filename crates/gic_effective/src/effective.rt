//! The effective current of a transformer from the currents of its windings.
ghost use Rattle.std.specs.Prelude.{◌≡◌, ℕ, ◌+◌, ◌*◌, ◌^◌, ◌≤◌, ℤ, pos};
ghost use Rattle.gic_fixed.specs.Rounding.{floor_div, ceil_div};
ghost use Rattle.gic_fixed.specs.Encloses.{Encloses, IsWithin};
ghost use Rattle.gic_fixed.specs.Ends.{IsAtMostWide};
ghost use Rattle.gic_effective.specs.Ohm.{most_current};
ghost use Rattle.gic_effective.specs.WeightedSum.{weighted, weighted_sum, total_weight};
ghost use Rattle.gic_effective.specs.WindingCurrents.{low_sum, high_sum, AreWithin, EncloseEach, AreAtMostWide, AreMilliAtMostWide};

use crate::winding_currents::WindingCurrents;
use gic_base::ElementId;
use gic_fixed::Interval;
use gic_winding::Weights;

/// A winding's current with its weight.
fn part(winding: Option<(ElementId, u32)>, current: Interval) -> Interval
    requires small { IsWithin most_current current.lo current.hi }
    ensures low { result.lo ≡ weighted winding current.lo }
    ensures high { result.hi ≡ weighted winding current.hi }
    ensures small { IsWithin (2 ^ 112) result.lo result.hi }
{
    match winding {
        Some((_, weight)) => current.scale(weight as i128),
        None => Interval::point(0),
    }
}

/// The signed effective current of a transformer in milliamperes per phase: the weighted sum of the currents of its
/// windings over three times the voltage of the high side, rounded outward once. No end that is given is beyond 3000 times
/// 2^62 either way, and `high_volts` is at least 1; no end of the result is beyond 2^113, and none beyond 2^54 where the
/// weights add up to no more than three times the voltage of the high side.
pub fn signed_effective(weights: &Weights, currents: &WindingCurrents) -> Interval
    requires volts { 1 ≤ weights.now.high_volts }
    requires size { AreWithin most_current currents.now }
    ensures low { result.lo ≡ floor_div (low_sum weights.now currents.now) (pos (3000000 * weights.now.high_volts)) }
    ensures high { result.hi ≡ ceil_div (high_sum weights.now currents.now) (pos (3000000 * weights.now.high_volts)) }
    ensures holds { (first second third : ℤ) (denominator : ℕ) → EncloseEach currents.now first second third denominator →
        Encloses result.lo result.hi (weighted_sum weights.now first second third) (3000000 * weights.now.high_volts * denominator) }
    ensures small { IsWithin (2 ^ 113) result.lo result.hi }
    ensures weighed { total_weight weights.now ≤ 3 * weights.now.high_volts → IsWithin (2 ^ 54) result.lo result.hi }

    // From currents at most this many milliamperes wide it is at most one wider, where the weights add up to no more than
    // three times the voltage of the high side.
    ensures narrow { (width : ℕ) → total_weight weights.now ≤ 3 * weights.now.high_volts → AreMilliAtMostWide width currents.now →
        IsAtMostWide (width + 1) result.lo result.hi }
{
    part(weights.first, currents.first)
        .add(part(weights.second, currents.second))
        .add(part(weights.third, currents.third))
        .div_out(3_000_000 * weights.high_volts as i128)
}

/// The same in nanoamperes per phase.
pub fn effective_na(weights: &Weights, currents: &WindingCurrents) -> Interval
    requires volts { 1 ≤ weights.now.high_volts }
    requires size { AreWithin most_current currents.now }
    ensures low { result.lo ≡ floor_div (low_sum weights.now currents.now) (pos (3 * weights.now.high_volts)) }
    ensures high { result.hi ≡ ceil_div (high_sum weights.now currents.now) (pos (3 * weights.now.high_volts)) }
    ensures holds { (first second third : ℤ) (denominator : ℕ) → EncloseEach currents.now first second third denominator →
        Encloses result.lo result.hi (weighted_sum weights.now first second third) (3 * weights.now.high_volts * denominator) }

    // Where the weights add up to no more than three times the voltage of the high side, no end is beyond those of the
    // currents' bound, and from currents at most 400 nanoamperes wide it is at most one wider.
    ensures small { total_weight weights.now ≤ 3 * weights.now.high_volts → IsWithin most_current result.lo result.hi }
    ensures tight { total_weight weights.now ≤ 3 * weights.now.high_volts → AreAtMostWide 400 currents.now →
        IsAtMostWide 401 result.lo result.hi }
{
    let one = part(weights.first, currents.first);
    let other = part(weights.second, currents.second);
    let last = part(weights.third, currents.third);
    one.add(other)
        .add(last)
        .div_out(3 * weights.high_volts as i128)
}
