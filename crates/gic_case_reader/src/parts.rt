//! The parts of lines, read from arrays.
ghost use Rattle.std.specs.Prelude.{◌≡◌, ◌≤◌, IfOk, length, option_map};
ghost use Rattle.toml.specs.View.{view, table_view, items_view};
ghost use Rattle.gic_base.specs.Refusals.{AnswersRead};
ghost use Rattle.gic_case_reader.specs.declared.field.Field.TheVariants as fields;
ghost use Rattle.gic_case.specs.declared.case_list.CaseList.TheVariants as lists;
ghost use Rattle.gic_case_reader.specs.Lines.{read_part, parts_in, north_way, east_way, are_parts, read_parts};
ghost use Rattle.gic_base.specs.declared.limits.TheConstants.{MOST_PARTS};
ghost use Rattle.gic_case_reader.specs.Pass.{required};

use crate::field::Field;
use crate::keys::{at_key, fits};
use crate::part_row::PartRow;
use crate::part_rows::PartRows;
use crate::refusal::CaseRefusal;
use crate::value::{metres_within, read_name, refused};
use gic_base::ReadFault;
use gic_base::limits::MOST_PARTS;
use gic_case::CaseList;
use std::alloc::{AllocError, Global};
use toml::{Table, Value};

/// How far the parts of a line may lead to the north and to the south together, and to the east and to the west, in
/// metres.
const LONGEST_WAY: u64 = 1000000;

/// The part of a line that a table is, where it is one.
fn read_part(value: &Value) -> Option<PartRow>
    ensures { result ≡ read_part (view value.now) }
{
    let table = value.as_table()?;
    if fits(&[Field::Zone, Field::North, Field::East], &[], table) {
        Some(PartRow {
            zone: read_name(at_key(table, Field::Zone.key())?)?,
            north: metres_within(at_key(table, Field::North.key())?)?,
            east: metres_within(at_key(table, Field::East.key())?)?,
        })
    } else {
        None
    }
}

/// The parts of a line that values are, where each is one.
fn parts_in(alloc: Global, values: &[Value]) -> Result<Option<Vec<PartRow>>, AllocError>
    ensures { IfOk result (λ parts. option_map (λ ps. ps.items) parts ≡ parts_in (items_view values.now)) }
{
    let mut parts = Vec::new(alloc);
    for value in values {
        match read_part(value) {
            Some(part) => parts.push(part)?,
            None => return Ok(None),
        }
    }
    Ok(Some(parts))
}

/// How far parts lead to the north and to the south together, in metres.
fn north_way(parts: &[PartRow]) -> u64
    requires { length parts.now ≤ MOST_PARTS }
    ensures { result ≡ north_way parts.now }
{
    let mut way = 0;
    for part in parts {
        way += u64::from(part.north.unsigned_abs());
    }
    way
}

/// How far they lead to the east and to the west.
fn east_way(parts: &[PartRow]) -> u64
    requires { length parts.now ≤ MOST_PARTS }
    ensures { result ≡ east_way parts.now }
{
    let mut way = 0;
    for part in parts {
        way += u64::from(part.east.unsigned_abs());
    }
    way
}

/// Whether these are at least two parts that don't lead too far together.
fn are_parts(parts: &[PartRow]) -> bool
    requires { length parts.now ≤ MOST_PARTS }
    ensures { result ≡ are_parts parts.now }
{
    parts.len() >= 2 && north_way(parts) <= LONGEST_WAY && east_way(parts) <= LONGEST_WAY
}

/// The parts of a line that a value is, where it is an array of at least two and at most [`MOST_PARTS`].
fn read_parts(alloc: Global, value: &Value) -> Result<Option<PartRows>, AllocError>
    ensures { IfOk result (λ parts. parts ≡ read_parts (view value.now)) }
{
    let values = match value.as_array() {
        Some(values) => values.as_slice(),
        None => return Ok(None),
    };
    if values.len() > MOST_PARTS {
        return Ok(None);
    }
    match parts_in(alloc, values)? {
        Some(parts) if are_parts(parts.as_slice()) => Ok(Some(PartRows::of(parts))),
        _ => Ok(None),
    }
}

/// The parts of a line.
#[tactic(auto, unfolding(crate::specs::Pass::required))]
pub(crate) fn parts_at(
    alloc: Global,
    row: u32,
    table: &Table,
) -> Result<PartRows, ReadFault<CaseRefusal>>
    ensures { AnswersRead (λ ps. ps) result (required read_parts lists.Line row fields.Part (table_view table.now)) }
{
    match at_key(table, Field::Part.key()) {
        Some(value) => match read_parts(alloc, value)? {
            Some(parts) => Ok(parts),
            None => Err(ReadFault::Refused(refused(CaseList::Line, row, Field::Part))),
        },
        None => Err(ReadFault::Refused(refused(CaseList::Line, row, Field::Part))),
    }
}
