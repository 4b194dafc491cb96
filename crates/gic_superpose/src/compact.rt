//! A superposed interval, computed in 64 bits where these serve.
ghost use Rattle.std.specs.Prelude.{◌≡◌, ℕ, ◌*◌, ◌<◌, ◌≤◌, ◌^◌, ◌+ℤ◌, ◌*ℤ◌, ◌≤ℤ◌, ◌⊎◌};
ghost use Rattle.std.specs.Prelude.{length, unsigned_abs, pos, All, FitsSigned, IsTrue, IsFalse};
ghost use Rattle.std.specs.Int.{w64};
ghost use Rattle.gic_base.specs.declared.limits.TheConstants.{MOST_FIELD};
ghost use Rattle.gic_fixed.specs.Encloses.{IsWithin};
ghost use Rattle.gic_fixed.specs.Ends.{ends_of};
ghost use Rattle.gic_fixed.specs.Rounding.{floor_div, ceil_div};
ghost use Rattle.gic_induce.specs.Fields.{zone_field};
ghost use Rattle.gic_superpose.specs.Superposed.{zone_at, low_part, high_part, zone_low, zone_high};
ghost use Rattle.gic_superpose.specs.Superposed.{sum_low, sum_high, sums_in_milli, superposed};
ghost use Rattle.gic_superpose.specs.Pairs.{row_of};
ghost use Rattle.gic_superpose.specs.Compact.{most_sum, most_compact, IsCompact, IsBeyond};

use crate::pairs::ZonePair;
use crate::superposing::pair_at;
use gic_base::limits::MOST_FIELD;
use gic_fixed::Interval;
use gic_induce::Fields;

/// The most that a sum may be, either way, that is divided in 64 bits.
const MOST_SUM: i64 = 1 << 62;

/// What sums are divided by for millivolts or milliamperes.
const SUMS_IN_MILLI: u64 = MOST_FIELD as u64 * 1_000_000;

/// How many times `SUMS_IN_MILLI` a sum is raised before it is divided. No sum is below 0 then.
const TIMES_RAISED: u64 = MOST_SUM as u64 / SUMS_IN_MILLI + 1;

/// A low end and a high end in 64 bits, or sums of such.
#[derive(Clone, Copy)]
struct CompactEnds {
    low: i64,
    high: i64,
}

/// The most that an end may be, either way, for a given number of zones, that 64 bits serve.
fn most_compact(zones: u16) -> i64
    requires { 0 < zones }
    ensures { result ≡ pos (most_compact zones) }
{
    MOST_SUM / (2 * MOST_FIELD as i64 * zones as i64)
}

/// Whether both ends of an interval are within this.
fn is_within(interval: Interval, most: i64) -> bool
    requires { pos 0 ≤ℤ most }
    ensures yes { IsTrue result → IsWithin (unsigned_abs most) interval.lo interval.hi }
    ensures no { IsFalse result → (unsigned_abs most < unsigned_abs interval.lo) ⊎ (unsigned_abs most < unsigned_abs interval.hi) }
{
    interval.lo >= -(most as i128) && interval.hi <= most as i128
}

/// Whether 64 bits serve for the two intervals of a zone, among this many zones.
pub(crate) fn is_compact(pair: ZonePair, zones: u16) -> bool
    requires { 0 < zones }
    ensures yes { IsTrue result → IsCompact zones pair }
    ensures no { IsFalse result → IsBeyond zones (ends_of pair.north) ⊎ IsBeyond zones (ends_of pair.east) }
{
    let most = most_compact(zones);
    is_within(pair.north, most) && is_within(pair.east, most)
}

/// An end times a part of a field.
fn product(end: i128, part: i32) -> i64
    requires end { unsigned_abs end ≤ most_compact 1 }
    requires part { unsigned_abs part ≤ MOST_FIELD }
    ensures { result ≡ end *ℤ part }
{
    end as i64 * part as i64
}

/// An interval times a part of a field: below 0 it swaps the ends. By the sign, which all quantities of a step share, so
/// that no products are compared.
#[inline(always)]
fn times(interval: Interval, part: i32) -> CompactEnds
    requires small { IsWithin (most_compact 1) interval.lo interval.hi }
    requires part { unsigned_abs part ≤ MOST_FIELD }
    ensures low { result.low ≡ low_part (ends_of interval) part }
    ensures high { result.high ≡ high_part (ends_of interval) part }
{
    let one = product(interval.lo, part);
    let other = product(interval.hi, part);
    if part < 0 {
        CompactEnds {
            low: other,
            high: one,
        }
    } else {
        CompactEnds {
            low: one,
            high: other,
        }
    }
}

/// The sums of the ends.
fn added(one: CompactEnds, other: CompactEnds) -> CompactEnds
    requires low { FitsSigned w64 (one.low +ℤ other.low) }
    requires high { FitsSigned w64 (one.high +ℤ other.high) }
    ensures low { result.low ≡ one.low +ℤ other.low }
    ensures high { result.high ≡ one.high +ℤ other.high }
{
    CompactEnds {
        low: one.low + other.low,
        high: one.high + other.high,
    }
}

/// What the field of a zone makes of its two intervals.
fn zone_part(fields: &Fields, row: &[ZonePair], zone: u16) -> CompactEnds
    requires fields { zone < length fields.now }
    requires row { zone < length row.now }
    requires compact { All (IsCompact (length fields.now)) row.now }
    ensures low { result.low ≡ zone_low (zone_field fields.now zone) (zone_at (row_of row.now) zone) }
    ensures high { result.high ≡ zone_high (zone_field fields.now zone) (zone_at (row_of row.now) zone) }
    ensures small { IsWithin (2 * MOST_FIELD * most_compact (length fields.now)) result.low result.high }
{
    let (north, east) = fields.get(zone);
    let pair = pair_at(row, zone);
    added(times(pair.north, north), times(pair.east, east))
}

/// What the fields of all zones make of a row of intervals.
fn whole(fields: &Fields, row: &[ZonePair]) -> CompactEnds
    requires row { length row.now ≡ length fields.now }
    requires compact { All (IsCompact (length fields.now)) row.now }
    ensures low { result.low ≡ sum_low fields.now (row_of row.now) }
    ensures high { result.high ≡ sum_high fields.now (row_of row.now) }
    ensures small { IsWithin most_sum result.low result.high }
{
    let mut sum = CompactEnds { low: 0, high: 0 };
    for zone in 0..fields.zones() {
        sum = added(sum, zone_part(fields, row, zone));
    }
    sum
}

/// A sum in millivolts or milliamperes, rounded down. A sum below 0 takes the same steps as another one, so that there is
/// no branch which a processor can't guess.
#[inline(always)]
fn floor_milli(sum: i64) -> i64
    requires { unsigned_abs sum ≤ most_sum }
    ensures { result ≡ floor_div sum (pos sums_in_milli) }
{
    let raised = (sum as i128 + (TIMES_RAISED * SUMS_IN_MILLI) as i128) as u64;
    (raised / SUMS_IN_MILLI) as i64 - TIMES_RAISED as i64
}

/// Sums in millivolts or milliamperes, rounded outward.
#[inline(always)]
fn milli(sums: CompactEnds) -> Interval
    requires ordered { sums.low ≤ℤ sums.high }
    requires small { IsWithin most_sum sums.low sums.high }
    ensures low { result.lo ≡ floor_div sums.low (pos sums_in_milli) }
    ensures high { result.hi ≡ ceil_div sums.high (pos sums_in_milli) }
{
    let low = floor_milli(sums.low);
    let turned = floor_milli(-sums.high);
    Interval {
        lo: low as i128,
        hi: -(turned as i128),
    }
}

/// The interval that `superpose` gives, from intervals that 64 bits serve for.
#[inline(always)]
pub(crate) fn superpose_compact(fields: &Fields, row: &[ZonePair]) -> Interval
    requires row { length row.now ≡ length fields.now }
    requires compact { All (IsCompact (length fields.now)) row.now }
    ensures { ends_of result ≡ superposed fields.now (row_of row.now) }
{
    milli(whole(fields, row))
}
