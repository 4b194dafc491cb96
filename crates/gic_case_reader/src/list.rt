//! Lists of rows.
ghost use Rattle.std.specs.Prelude.{◌≡◌, ◌≤◌, ◌<◌, ◌^◌, ◌++◌, ℕ, List, map, Result, IfOk, OnOk, length, vec_len};
ghost use Rattle.toml.specs.Data.{Data};
ghost use Rattle.toml.specs.View.{view, table_view, items_view};
ghost use Rattle.gic_base.specs.Refusals.{AnswersRead, AnswersExactly};
ghost use Rattle.gic_case_reader.specs.declared.refusal.CaseRefusal as refusal;
ghost use Rattle.gic_case_reader.specs.declared.format.Format as format;
ghost use Rattle.gic_case_reader.specs.Formats.{most_rows};
ghost use Rattle.gic_case_reader.specs.Pass.{items_at, rows_from, list_at, zone_row, substation_row, bus_row, line_row, transformer_row};

use crate::format::Format;
use crate::keys::at_key;
use crate::refusal::CaseRefusal;
use crate::row::{BusRow, LineRow, TransformerRow, bus_row, line_row, substation_row, zone_row};
use crate::transformer::transformer_row;
use gic_base::{Name, ReadFault};
use gic_case::{CaseList, Substation, Zone};
use std::alloc::{AllocError, Global};
use toml::{Table, Value};

/// What a list of the document has as its rows.
pub(crate) trait Row: Drop {
    // The row that a value is in a case of a format, or the first rule that it breaks.
    ghost reads: { format.Format → ℕ → Data → Result Self refusal.CaseRefusal };

    // The name of a row.
    ghost named: { Self → List ℕ };

    /// Its name.
    fn name(&self) -> Name
        ensures { result ≡ named self.now };

    /// The row that a value is, in a case of a format.
    fn read(
        alloc: Global,
        format: Format,
        row: u32,
        value: &Value,
    ) -> Result<Self, ReadFault<CaseRefusal>>
        ensures { AnswersRead (λ x. x) result (reads format row (view value.now)) };
}

impl Row for Zone {
    ghost reads = { zone_row };

    ghost named = { λ x. x.name };

    fn name(&self) -> Name {
        self.name
    }

    fn read(
        _alloc: Global,
        format: Format,
        row: u32,
        value: &Value,
    ) -> Result<Zone, ReadFault<CaseRefusal>> {
        Ok(zone_row(format, row, value)?)
    }
}

impl Row for Substation {
    ghost reads = { substation_row };

    ghost named = { λ x. x.name };

    fn name(&self) -> Name {
        self.name
    }

    fn read(
        _alloc: Global,
        format: Format,
        row: u32,
        value: &Value,
    ) -> Result<Substation, ReadFault<CaseRefusal>> {
        Ok(substation_row(format, row, value)?)
    }
}

impl Row for BusRow {
    ghost reads = { λ _. bus_row };

    ghost named = { λ x. x.name };

    fn name(&self) -> Name {
        self.name
    }

    fn read(
        _alloc: Global,
        _format: Format,
        row: u32,
        value: &Value,
    ) -> Result<BusRow, ReadFault<CaseRefusal>> {
        Ok(bus_row(row, value)?)
    }
}

impl Row for LineRow {
    ghost reads = { line_row };

    ghost named = { λ x. x.name };

    fn name(&self) -> Name {
        self.name
    }

    fn read(
        alloc: Global,
        format: Format,
        row: u32,
        value: &Value,
    ) -> Result<LineRow, ReadFault<CaseRefusal>> {
        line_row(alloc, format, row, value)
    }
}

impl Row for TransformerRow {
    ghost reads = { transformer_row };

    ghost named = { λ x. x.name };

    fn name(&self) -> Name {
        self.name
    }

    fn read(
        _alloc: Global,
        format: Format,
        row: u32,
        value: &Value,
    ) -> Result<TransformerRow, ReadFault<CaseRefusal>> {
        Ok(transformer_row(format, row, value)?)
    }
}

/// The values of a list, none where it isn't there.
#[tactic(auto, unfolding(crate::specs::Pass::items_at))]
fn items_at(list: CaseList, table: &Table) -> Result<&[Value], CaseRefusal>
    ensures { AnswersExactly (λ s. items_view s.now) result (items_at list (table_view table.now)) }
{
    match at_key(table, list.word()) {
        Some(value) => match value.as_array() {
            Some(values) => Ok(values.as_slice()),
            None => Err(CaseRefusal::Key { list, row: 0 }),
        },
        None => Ok(&[]),
    }
}

/// The rows of a list.
fn rows_from<R: Row>(
    alloc: Global,
    format: Format,
    values: &[Value],
) -> Result<Vec<R>, ReadFault<CaseRefusal>>
    requires { length values.now < 2 ^ 32 }
    ensures value { AnswersRead (λ v. v.items) result (rows_from (R.reads format) 1 (items_view values.now)) }
    ensures count { IfOk result (λ v. vec_len v ≡ length values.now) }
{
    let mut rows = Vec::new(alloc);
    for (i, value) in values.iter().enumerate() {
        rows.push(R::read(alloc, format, i as u32 + 1, value)?)?;
    }
    Ok(rows)
}

/// A list of the document, with at most as many rows as its format has.
#[tactic(auto, using(crate::proofs::Rows::count_length), unfolding(crate::specs::Pass::list_at))]
pub(crate) fn list_at<R: Row>(
    alloc: Global,
    list: CaseList,
    format: Format,
    table: &Table,
) -> Result<Vec<R>, ReadFault<CaseRefusal>>
    ensures value { AnswersRead (λ v. v.items) result (list_at list (most_rows format list) (R.reads format) (table_view table.now)) }
    ensures few { IfOk result (λ v. vec_len v ≤ most_rows format list) }
{
    let values = items_at(list, table)?;
    if values.len() > format.most_rows(list) {
        return Err(ReadFault::Refused(CaseRefusal::TooMany { list }));
    }
    rows_from(alloc, format, values)
}

/// Adds the names of rows at the end.
pub(crate) fn push_names<R: Row>(names: &mut Vec<Name>, rows: &[R]) -> Result<(), AllocError>
    ensures { OnOk result (names.new.items ≡ names.old.items ++ map R.named rows.now) }
{
    for row in rows {
        names.push(row.name())?;
    }
    Ok(())
}
