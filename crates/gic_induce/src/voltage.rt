//! The voltage of one line.
ghost use Rattle.std.specs.Prelude.{◌≡◌, ◌<◌, ◌≤◌, ◌+◌, ◌*◌, length, All, ◌*ℤ◌, ◌+ℤ◌, pos, unsigned_abs};
ghost use Rattle.gic_case.specs.Courses.{parts_of, north_way, east_way};
ghost use Rattle.gic_model.specs.Limits.{most_volts};
ghost use Rattle.gic_induce.specs.LineVolts.{part_volts, line_volts};
ghost use Rattle.gic_induce.specs.Voltage.{part_nanovolts, IsFieldWithin, IsSpanWithin};

use crate::fields::Fields;
use gic_case::{Line, LinePart, Zone};

/// A part of the field, in mV/km, over the same part of the span, in metres: in microvolts.
fn along(field: i32, span: i32) -> i64
    requires field { IsFieldWithin field }
    requires span { IsSpanWithin span }
    ensures value { result ≡ field *ℤ span }
    ensures small { unsigned_abs result ≤ 20000000000 }
{
    i64::from(field) * i64::from(span)
}

/// The sum of two such parts.
fn sum(north: i64, east: i64) -> i64
    requires north { unsigned_abs north ≤ 20000000000 }
    requires east { unsigned_abs east ≤ 20000000000 }
    ensures value { result ≡ north +ℤ east }
    ensures small { unsigned_abs result ≤ 40000000000 }
{
    north + east
}

/// Microvolts by a zone's factor in thousandths: in nanovolts.
fn scaled(microvolts: i64, factor: u16) -> i64
    requires microvolts { unsigned_abs microvolts ≤ 40000000000 }
    requires factor { factor ≤ 1500 }
    ensures value { result ≡ microvolts *ℤ pos factor }
{
    microvolts * i64::from(factor)
}

/// The voltage of a part of a line in nanovolts, in the field (north, east) of its zone in mV/km:
/// `(north·E_n + east·E_e)·factor`, with the part's spans in metres and the zone's factor in thousandths. It is exact,
/// and within ±30000000 for each metre to the north and to the east.
pub fn part_nanovolts(part: &LinePart, zone: &Zone, north: i32, east: i32) -> i64
    requires north { IsFieldWithin north }
    requires east { IsFieldWithin east }
    requires span_north { IsSpanWithin part.now.north }
    requires span_east { IsSpanWithin part.now.east }
    ensures value { result ≡ part_nanovolts part.now zone.now north east }
    ensures small { unsigned_abs result ≤ 30000000 * (unsigned_abs part.now.north + unsigned_abs part.now.east) }
{
    scaled(
        sum(along(north, part.north), along(east, part.east)),
        zone.factor(),
    )
}

/// The same in the field of the part's zone, which is one of these.
fn volts_of_part(zones: &[Zone], fields: &Fields, part: &LinePart) -> i64
    requires zones { length fields.now ≡ length zones.now }
    requires zone { part.now.zone < length zones.now }
    requires span_north { IsSpanWithin part.now.north }
    requires span_east { IsSpanWithin part.now.east }
    ensures value { result ≡ part_volts zones.now fields.now part.now }
    ensures small { unsigned_abs result ≤ 30000000 * (unsigned_abs part.now.north + unsigned_abs part.now.east) }
{
    let zone = &zones[part.zone as usize];
    let (north, east) = fields.get(part.zone);
    part_nanovolts(part, zone, north, east)
}

/// The voltage of a line in nanovolts: that of all its parts together, each in the field of its zone. It is exact, and
/// within ±6·10^13. It drives current from the line's `from` bus to its `to` bus. The parts' zones stand among `zones`
/// at their places, and `fields` has as many zones.
pub fn line_volts(zones: &[Zone], fields: &Fields, line: &Line) -> i64
    requires zones { length fields.now ≡ length zones.now }
    requires places { All (λ p. p.zone < length zones.now) (parts_of line.now.course) }
    requires north { north_way (parts_of line.now.course) ≤ 1000000 }
    requires east { east_way (parts_of line.now.course) ≤ 1000000 }
    ensures value { result ≡ line_volts zones.now fields.now line.now }
    ensures limit { unsigned_abs result ≤ most_volts }
{
    let mut nanovolts: i64 = 0;
    for part in line.course.parts() {
        nanovolts += volts_of_part(zones, fields, part);
    }
    nanovolts
}
