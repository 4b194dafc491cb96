//! Records read as rows, one after another.
ghost use Rattle.std.specs.Prelude.{◌≡◌, ◌≤◌, ◌<◌, ◌^◌, ℕ, List, Option, Result, None, IfOk, All, unwrap_or, vec_len};
ghost use Rattle.std.specs.List.Sorted.{IsNonDecreasingBy};
ghost use Rattle.csv.specs.Records.{fields_of};
ghost use Rattle.gic_base.specs.Refusals.{AnswersRead};
ghost use Rattle.gic_records.specs.RowPass.{rows_in};

use crate::records::Records;
use csv::ByteRecord;
use gic_base::ReadFault;
use std::alloc::Global;

/// How a record is read as a row. Rows are in the order of time.
pub trait RowReader {
    type Row: Drop;

    type Refusal: Drop;

    // The row that a record is, after a record of the time before, or the first rule that it breaks.
    ghost reads: { Self → ℕ → Option ℕ → List (List ℕ) → Result Self.Row Self.Refusal };

    // The time of a row, in seconds.
    ghost time_of: { Self.Row → ℕ };

    // What each row keeps.
    ghost keeps: { Self → Self.Row → Type 0 };

    // How more rows than there may be are refused.
    ghost late: { Self.Refusal };

    /// The row that a record is, after a record of the time before.
    fn read(
        &self,
        row: u32,
        before: Option<u32>,
        columns: &ByteRecord,
    ) -> Result<Self::Row, Self::Refusal>
        ensures value { result ≡ reads self.now row before (fields_of columns.now) }
        ensures order { IfOk result (λ r. unwrap_or before 0 ≤ time_of r) }
        ensures keeps { IfOk result (keeps self.now) };

    /// The time of a row, in seconds.
    fn time(row: &Self::Row) -> u32
        ensures { result ≡ time_of row.now };

    /// The refusal of more rows than there may be.
    fn too_many() -> Self::Refusal
        ensures { result ≡ late };
}

/// The rows of the records that are left, at most a given number. Their times do not fall. The first record that is no
/// row is refused, and so is one behind the last that there may be; out of memory may be the answer in place of any
/// other.
pub fn read_rows<R: RowReader>(
    alloc: Global,
    reader: &R,
    most: u32,
    records: &mut Records<'_>,
) -> Result<Vec<R::Row>, ReadFault<R::Refusal>>
    requires { most < 2 ^ 31 }
    ensures value { AnswersRead (λ v. v.items) result (rows_in (R.reads reader.now) R.time_of most R.late 1 None records.old) }
    ensures few { IfOk result (λ v. vec_len v ≤ most) }
    ensures ordered { IfOk result (λ v. IsNonDecreasingBy R.time_of v.items) }
    ensures each { IfOk result (λ v. All (R.keeps reader.now) v.items) }
{
    let mut rows = Vec::new(alloc);
    let mut columns = ByteRecord::new(alloc);
    let mut before = None;
    for row in 1..most + 1 {
        match records.read(&mut columns) {
            Ok(true) => {}
            Ok(false) => return Ok(rows),
            Err(_) => return Err(ReadFault::Memory),
        }
        let next = match reader.read(row, before, &columns) {
            Ok(next) => next,
            Err(refusal) => return Err(ReadFault::Refused(refusal)),
        };
        before = Some(R::time(&next));
        match rows.push(next) {
            Ok(()) => {}
            Err(_) => return Err(ReadFault::Memory),
        }
    }
    match records.read(&mut columns) {
        Ok(true) => Err(ReadFault::Refused(R::too_many())),
        Ok(false) => Ok(rows),
        Err(_) => Err(ReadFault::Memory),
    }
}
