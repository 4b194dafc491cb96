//! A reader that gives one record after another.
ghost use Rattle.std.specs.Prelude.{◌≡◌, IfOk, Ok, MatchResult, IsErr};
ghost use Rattle.csv.specs.Records.{fields_of};
ghost use Rattle.gic_records.specs.Records.{records_of};
ghost use Rattle.gic_records.specs.Wide.{up_to_wide};
ghost use Rattle.gic_records.specs.Reading.{with_found};

use crate::prefix::prefix;
use csv::{ByteRecord, Error, Reader, ReaderBuilder};
use std::alloc::{AllocError, Global};
use std::marker::Model;

/// The records of a text that are left to read. Fields stand between commas, quoted or not. Blank lines are no records,
/// and a byte order mark at the start of the text is dropped.
#[derive(Drop)]
pub struct Records<'a> {
    reader: Reader<&'a [u8]>,
}

impl<'a> Model for Records<'a> {
    ghost use Rattle.std.specs.Prelude.{◌≡◌, ℕ, List, false};
    ghost use Rattle.csv.specs.Reading.{has_failed, reader_state};
    ghost use Rattle.gic_records.specs.Reading.{records_left, bytes_left, IsReading};

    ghost Value = { List (List (List ℕ)) };

    ghost view = { λ r. records_left (reader_state r.reader) (bytes_left r.reader) };

    ghost invariant = { λ r. has_failed r.reader ≡ false → IsReading r.reader };
}

// What a read found. Its only errors are those of memory.
fn found_of(read: Result<bool, Error>) -> Result<bool, AllocError>
    ensures { MatchResult result (λ found. read ≡ Ok found) (λ e. IsErr read) }
{
    match read {
        Ok(found) => Ok(found),
        Err(_) => Err(AllocError),
    }
}

impl<'a> Records<'a> {
    /// The records of a text up to the first with more than [`MOST_COLUMNS`] fields; of that one only one field more than
    /// these, and none behind it, so that no record takes space for millions of fields. Whoever reads rows has to refuse a
    /// record with more than [`MOST_COLUMNS`] fields: how many it has, and what follows it, isn't known.
    ///
    /// [`MOST_COLUMNS`]: crate::MOST_COLUMNS
    pub fn new(alloc: Global, bytes: &'a [u8]) -> Records<'a>
        ensures { result ≡ up_to_wide (records_of bytes.now) }
    {
        Records {
            reader: ReaderBuilder::new()
                .has_headers(false)
                .flexible(true)
                .from_reader(alloc, prefix(bytes)),
        }
    }

    /// Reads the next record into `row`, and tells whether there was one. After an error, which is out of memory,
    /// nothing is known of the records that are left.
    pub fn read(&mut self, row: &mut ByteRecord) -> Result<bool, AllocError>
        ensures { IfOk result (λ found. self.old ≡ with_found found (fields_of row.new) self.new) }
    {
        found_of(self.reader.read_byte_record(row))
    }
}
