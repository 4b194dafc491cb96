//! The fields of one record.
ghost use Rattle.std.specs.Prelude.{◌≡◌};
ghost use Rattle.csv.specs.Records.{fields_of};
ghost use Rattle.gic_records.specs.Columns.{text_at, is_word, time_in};

use csv::ByteRecord;
use gic_text::read_decimal;

/// The field of a record at a place from 0, and an empty text where there is none.
#[tactic(auto, unfolding(crate::specs::Columns::text_at))]
pub fn text_at(columns: &ByteRecord, place: usize) -> &[u8]
    ensures { result.now ≡ text_at (fields_of columns.now) place }
{
    match columns.get(place) {
        Some(text) => text,
        None => &[],
    }
}

/// Whether the field at a place is this word.
pub fn is_word(columns: &ByteRecord, place: usize, word: &[u8]) -> bool
    ensures { result ≡ is_word (fields_of columns.now) place word.now }
{
    text_at(columns, place) == word
}

/// The time of a record in seconds: its first field, from 0 to 4294967295. None where that is no such number.
#[tactic(auto, unfolding(crate::specs::Columns::time_in))]
pub fn time_in(columns: &ByteRecord) -> Option<u32>
    ensures { result ≡ time_in (fields_of columns.now) }
{
    let time = read_decimal(text_at(columns, 0), 0, 4294967295)?;
    Some(time as u32)
}
