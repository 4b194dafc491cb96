//! Records read as rows, one after another.
ghost use Rattle.std.specs.Prelude.{◌≡◌, ◌≤◌, IfOk, length, vec_len, All, unwrap_or};
ghost use Rattle.std.specs.List.Sorted.{IsNonDecreasingBy};
ghost use Rattle.csv.specs.Records.{fields_of};
ghost use Rattle.gic_base.specs.Refusals.{AnswersRead};
ghost use Rattle.gic_base.specs.declared.limits.TheConstants.{MOST_ZONES};
ghost use Rattle.gic_storm.specs.declared.refusal.StormRefusal.TheVariants.{TooMany};
ghost use Rattle.gic_storm.specs.Pass.{row_in, storm_rows};
ghost use Rattle.gic_storm.specs.StormView.{IsRow, zone_names};

use crate::column::{field_in, zone_in};
use crate::form::StormForm;
use crate::refusal::{StormField, StormRefusal};
use crate::row::StormRow;
use csv::ByteRecord;
use gic_base::ReadFault;
use gic_base::limits::{MOST_ROWS, MOST_ZONES};
use gic_case::Zone;
use gic_records::{Records, RowReader, read_rows, time_in};
use std::alloc::Global;

/// The row that a record is, after a record of the time before.
#[tactic(auto, using(crate::proofs::Follows::follows_after), unfolding(crate::specs::Pass::row_in))]
fn row_in(
    form: StormForm,
    zones: &[Zone],
    row: u32,
    before: Option<u32>,
    columns: &ByteRecord,
) -> Result<StormRow, StormRefusal>
    requires { length zones.now ≤ MOST_ZONES }
    ensures value { result ≡ row_in form (zone_names zones.now) row before (fields_of columns.now) }
    ensures order { IfOk result (λ r. unwrap_or before 0 ≤ r.time) }
    ensures within { IfOk result (IsRow (length zones.now)) }
{
    if columns.len() != form.width() {
        return Err(StormRefusal::Shape { row });
    }
    let time = time_in(columns).ok_or(StormRefusal::Number {
        row,
        field: StormField::Time,
    })?;
    let north = field_in(columns, form.north_place()).ok_or(StormRefusal::Number {
        row,
        field: StormField::North,
    })?;
    let east = field_in(columns, form.east_place()).ok_or(StormRefusal::Number {
        row,
        field: StormField::East,
    })?;
    let zone = zone_in(form, zones, columns).ok_or(StormRefusal::Zone { row })?;
    if !form.follows(before, time) {
        return Err(StormRefusal::Order { row });
    }
    Ok(StormRow {
        time,
        zone,
        north,
        east,
    })
}

/// How the records of a storm of this form are read over these zones.
#[derive(Drop)]
struct StormRows<'a> {
    form: StormForm,
    zones: &'a [Zone],
    ghost few: { length zones.now ≤ MOST_ZONES },
}

impl RowReader for StormRows<'_> {
    type Row = StormRow;

    type Refusal = StormRefusal;

    ghost reads = { λ s. row_in s.form (zone_names s.zones.now) };

    ghost time_of = { λ r. r.time };

    ghost keeps = { λ s. IsRow (length s.zones.now) };

    ghost late = { TooMany };

    fn read(
        &self,
        row: u32,
        before: Option<u32>,
        columns: &ByteRecord,
    ) -> Result<StormRow, StormRefusal> {
        row_in(self.form, self.zones, row, before, columns)
    }

    fn time(row: &StormRow) -> u32
        ensures { result ≡ row.now.time }
    {
        row.time
    }

    fn too_many() -> StormRefusal
        ensures { result ≡ TooMany }
    {
        StormRefusal::TooMany
    }
}

/// The rows of the records that are left. Their times do not fall.
pub(crate) fn rows_in(
    alloc: Global,
    form: StormForm,
    zones: &[Zone],
    records: &mut Records<'_>,
) -> Result<Vec<StormRow>, ReadFault<StormRefusal>>
    requires { length zones.now ≤ MOST_ZONES }
    ensures value { AnswersRead (λ v. v.items) result (storm_rows form (zone_names zones.now) records.old) }
    ensures few { IfOk result (λ v. vec_len v ≤ MOST_ROWS) }
    ensures ordered { IfOk result (λ v. IsNonDecreasingBy (λ r. r.time) v.items) }
    ensures within { IfOk result (λ v. All (IsRow (length zones.now)) v.items) }
{
    read_rows(alloc, &StormRows { form, zones }, MOST_ROWS as u32, records)
}
