//! A superposed interval, computed in 128 bits.
ghost use Rattle.std.specs.Prelude.{◌≡◌, ℕ, ◌*◌, ◌<◌, ◌≤◌, ◌*ℤ◌, length, unsigned_abs, All};
ghost use Rattle.gic_base.specs.declared.limits.TheConstants.{MOST_FIELD, MOST_ZONES};
ghost use Rattle.gic_fixed.specs.Encloses.{IsWithin};
ghost use Rattle.gic_fixed.specs.Ends.{ends_of};
ghost use Rattle.gic_induce.specs.Fields.{zone_field};
ghost use Rattle.gic_superpose.specs.Superposed.{zone_at, low_part, high_part, zone_low, zone_high, sum_low, sum_high, superposed};
ghost use Rattle.gic_superpose.specs.Pairs.{zone_of, row_of, most_base, IsSmallPair};
ghost use Rattle.gic_superpose.specs.Compact.{IsCompact};

use crate::pairs::ZonePair;
use gic_base::limits::MOST_FIELD;
use gic_fixed::Interval;
use gic_induce::Fields;

/// An end times a part of a field.
fn product(end: i128, part: i32) -> i128
    requires end { unsigned_abs end ≤ most_base }
    requires part { unsigned_abs part ≤ MOST_FIELD }
    ensures { result ≡ end *ℤ part }
{
    end * part as i128
}

/// An interval times a part of a field: below 0 it swaps the ends.
fn times(interval: Interval, part: i32) -> Interval
    requires small { IsWithin most_base interval.lo interval.hi }
    requires part { unsigned_abs part ≤ MOST_FIELD }
    ensures low { result.lo ≡ low_part (ends_of interval) part }
    ensures high { result.hi ≡ high_part (ends_of interval) part }
{
    let one = product(interval.lo, part);
    let other = product(interval.hi, part);
    Interval {
        lo: one.min(other),
        hi: one.max(other),
    }
}

/// The intervals of a zone.
pub(crate) fn pair_at(row: &[ZonePair], zone: u16) -> ZonePair
    requires { zone < length row.now }
    ensures value { zone_of result ≡ zone_at (row_of row.now) zone }
    ensures small { All IsSmallPair row.now → IsSmallPair result }
    ensures compact { (zones : ℕ) → All (IsCompact zones) row.now → IsCompact zones result }
{
    row[zone as usize]
}

/// What the field of a zone makes of its two intervals.
fn zone_part(fields: &Fields, row: &[ZonePair], zone: u16) -> Interval
    requires fields { zone < length fields.now }
    requires row { zone < length row.now }
    requires small { All IsSmallPair row.now }
    ensures low { result.lo ≡ zone_low (zone_field fields.now zone) (zone_at (row_of row.now) zone) }
    ensures high { result.hi ≡ zone_high (zone_field fields.now zone) (zone_at (row_of row.now) zone) }
    ensures small { IsWithin (2 * MOST_FIELD * most_base) result.lo result.hi }
{
    let (north, east) = fields.get(zone);
    let pair = pair_at(row, zone);
    times(pair.north, north).add(times(pair.east, east))
}

/// What the fields of all zones make of a row of intervals.
fn whole(fields: &Fields, row: &[ZonePair]) -> Interval
    requires few { length fields.now ≤ MOST_ZONES }
    requires row { length row.now ≡ length fields.now }
    requires small { All IsSmallPair row.now }
    ensures low { result.lo ≡ sum_low fields.now (row_of row.now) }
    ensures high { result.hi ≡ sum_high fields.now (row_of row.now) }
{
    let mut sum = Interval::point(0);
    for zone in 0..fields.zones() {
        sum = sum.add(zone_part(fields, row, zone));
    }
    sum
}

/// The interval of a quantity in millivolts or milliamperes for these fields, from its intervals in the base fields of
/// each zone in nanovolts or nanoamperes: the sum over the zones of what the field of each makes of its two, a
/// MOST_FIELD-th of it, rounded outward once. No end that is given is beyond 3000 times 2^62
/// either way.
#[inline(never)]
pub(crate) fn superpose(fields: &Fields, row: &[ZonePair]) -> Interval
    requires few { length fields.now ≤ MOST_ZONES }
    requires row { length row.now ≡ length fields.now }
    requires small { All IsSmallPair row.now }
    ensures { ends_of result ≡ superposed fields.now (row_of row.now) }
{
    whole(fields, row).div_out(MOST_FIELD as i128 * 1_000_000)
}
