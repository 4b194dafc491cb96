//! The fields of one record read as a zone and parts of a field.
ghost use Rattle.std.specs.Prelude.{◌≡◌, ◌≤◌, ◌<◌, IfSome, length};
ghost use Rattle.csv.specs.Records.{fields_of};
ghost use Rattle.gic_induce.specs.Voltage.{IsFieldWithin};
ghost use Rattle.gic_case.specs.Names.{place_in};
ghost use Rattle.gic_storm.specs.Columns.{field_in, zone_in};
ghost use Rattle.gic_storm.specs.StormView.{zone_names};

use crate::form::StormForm;
use csv::ByteRecord;
use gic_base::limits::{MOST_FIELD, MOST_ZONES};
use gic_case::Zone;
use gic_records::{is_word, text_at};
use gic_text::read_decimal;

/// A part of a field, in mV/km.
#[tactic(auto, unfolding(crate::specs::Columns::field_in))]
pub(crate) fn field_in(columns: &ByteRecord, place: usize) -> Option<i32>
    ensures value { result ≡ field_in (fields_of columns.now) place }
    ensures within { IfSome result IsFieldWithin }
{
    let most = MOST_FIELD as i64;
    let field = read_decimal(text_at(columns, place), -most, most)?;
    Some(field as i32)
}

/// The first place of the zone with this name.
fn place_in(zones: &[Zone], name: &[u8]) -> Option<u16>
    requires { length zones.now ≤ MOST_ZONES }
    ensures value { result ≡ place_in (zone_names zones.now) name.now }
    ensures within { IfSome result (λ place. place < length zones.now) }
{
    for (i, zone) in zones.iter().enumerate() {
        if name == zone.name.as_bytes() {
            return Some(i as u16);
        }
    }
    None
}

/// Whom a record is for: all zones, or one.
#[tactic(auto, unfolding(crate::specs::Columns::zone_in))]
pub(crate) fn zone_in(form: StormForm, zones: &[Zone], columns: &ByteRecord) -> Option<Option<u16>>
    requires { length zones.now ≤ MOST_ZONES }
    ensures value { result ≡ zone_in form (zone_names zones.now) (fields_of columns.now) }
    ensures within { IfSome result (λ zone. IfSome zone (λ place. place < length zones.now)) }
{
    match form {
        StormForm::Uniform => Some(None),
        StormForm::Zoned => {
            if is_word(columns, 1, b"*") {
                return Some(None);
            }
            match place_in(zones, text_at(columns, 1)) {
                Some(place) => Some(Some(place)),
                None => None,
            }
        }
    }
}
