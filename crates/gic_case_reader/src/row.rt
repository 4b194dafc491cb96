//! Rows, read from tables.
ghost use Rattle.toml.specs.View.{view};
ghost use Rattle.gic_base.specs.Refusals.{AnswersExactly, AnswersRead};
ghost use Rattle.gic_case_reader.specs.Pass.{earth_zone_row, scaled_zone_row, zone_row};
ghost use Rattle.gic_case_reader.specs.Pass.{plain_substation_row, ranged_substation_row, substation_row, bus_row};
ghost use Rattle.gic_case_reader.specs.Pass.{plain_line_row, parted_line_row, line_row};

use crate::field::Field;
use crate::format::Format;
use crate::keys::{has_in, row_table};
use crate::part_row::PartRow;
use crate::part_rows::PartRows;
use crate::parts::parts_at;
use crate::refusal::CaseRefusal;
use crate::value::{metres_at, name_at, natural_at, ohm_at, optional_flag_at, optional_ohm_at};
use gic_base::{Name, ReadFault};
use gic_case::{CaseList, Kind, Neutral, Scaling, Substation, Zone};
use std::alloc::Global;
use toml::Value;

/// A bus, with the name of its substation.
#[derive(Clone, Copy)]
pub(crate) struct BusRow {
    pub(crate) name: Name,
    pub(crate) substation: Name,
}

/// Where a line leads: through one zone, or in parts through several.
#[derive(Drop)]
pub(crate) enum CourseRow {
    One(PartRow),
    Several(PartRows),
}

/// A line, with the names of its buses and its zones.
#[derive(Drop)]
pub(crate) struct LineRow {
    pub(crate) name: Name,
    pub(crate) from: Name,
    pub(crate) to: Name,
    pub(crate) course: CourseRow,
    pub(crate) resistance: u32,
    pub(crate) blocked: bool,
}

/// A transformer, with the names of its buses.
#[derive(Clone, Copy)]
pub(crate) struct TransformerRow {
    pub(crate) name: Name,
    pub(crate) high_volts: u32,
    pub(crate) kind: Kind<Name>,
    pub(crate) neutral: Option<Neutral>,
}

/// A row of the zones by its latitude and its earth.
#[tactic(auto, unfolding(crate::specs::Pass::earth_zone_row))]
fn earth_zone_row(row: u32, value: &Value) -> Result<Zone, CaseRefusal>
    ensures { AnswersExactly (λ z. z) result (earth_zone_row row (view value.now)) }
{
    let required = [Field::Name, Field::Latitude, Field::Beta];
    let table = row_table(CaseList::Zone, &required, &[], row, value)?;
    let name = name_at(CaseList::Zone, row, Field::Name, table)?;
    let latitude = natural_at(CaseList::Zone, row, Field::Latitude, 0, 9000, table)?;
    let beta = natural_at(CaseList::Zone, row, Field::Beta, 1, 150, table)?;
    Ok(Zone {
        name,
        scaling: Scaling::Earth {
            latitude: latitude as u16,
            beta: beta as u8,
        },
    })
}

/// A row of the zones by its scale.
#[tactic(auto, unfolding(crate::specs::Pass::scaled_zone_row))]
fn scaled_zone_row(row: u32, value: &Value) -> Result<Zone, CaseRefusal>
    ensures { AnswersExactly (λ z. z) result (scaled_zone_row row (view value.now)) }
{
    let required = [Field::Name, Field::Scale];
    let table = row_table(CaseList::Zone, &required, &[], row, value)?;
    let name = name_at(CaseList::Zone, row, Field::Name, table)?;
    let scale = natural_at(CaseList::Zone, row, Field::Scale, 1, 1500, table)?;
    Ok(Zone {
        name,
        scaling: Scaling::Factor(scale as u16),
    })
}

/// A row of the zones.
#[tactic(auto, unfolding(crate::specs::Pass::zone_row))]
pub(crate) fn zone_row(format: Format, row: u32, value: &Value) -> Result<Zone, CaseRefusal>
    ensures { AnswersExactly (λ z. z) result (zone_row format row (view value.now)) }
{
    if format.is_third() && has_in(value, Field::Scale) {
        scaled_zone_row(row, value)
    } else {
        earth_zone_row(row, value)
    }
}

/// A row of the substations without a tolerance.
#[tactic(auto, unfolding(crate::specs::Pass::plain_substation_row))]
fn plain_substation_row(row: u32, value: &Value) -> Result<Substation, CaseRefusal>
    ensures { AnswersExactly (λ s. s) result (plain_substation_row row (view value.now)) }
{
    let table = row_table(
        CaseList::Substation,
        &[Field::Name],
        &[Field::Ground],
        row,
        value,
    )?;
    let name = name_at(CaseList::Substation, row, Field::Name, table)?;
    let ground = optional_ohm_at(CaseList::Substation, row, Field::Ground, table)?;
    Ok(Substation {
        name,
        ground,
        tolerance: None,
    })
}

/// A row of the substations whose ground has a tolerance of its own.
#[tactic(auto, unfolding(crate::specs::Pass::ranged_substation_row))]
fn ranged_substation_row(row: u32, value: &Value) -> Result<Substation, CaseRefusal>
    ensures { AnswersExactly (λ s. s) result (ranged_substation_row row (view value.now)) }
{
    let required = [Field::Name, Field::Ground, Field::Tolerance];
    let table = row_table(CaseList::Substation, &required, &[], row, value)?;
    let name = name_at(CaseList::Substation, row, Field::Name, table)?;
    let ground = ohm_at(CaseList::Substation, row, Field::Ground, table)?;
    let tolerance = natural_at(CaseList::Substation, row, Field::Tolerance, 0, 90, table)?;
    Ok(Substation {
        name,
        ground: Some(ground),
        tolerance: Some(tolerance as u8),
    })
}

/// A row of the substations.
#[tactic(auto, unfolding(crate::specs::Pass::substation_row))]
pub(crate) fn substation_row(
    format: Format,
    row: u32,
    value: &Value,
) -> Result<Substation, CaseRefusal>
    ensures { AnswersExactly (λ s. s) result (substation_row format row (view value.now)) }
{
    if format.is_third() && has_in(value, Field::Tolerance) {
        ranged_substation_row(row, value)
    } else {
        plain_substation_row(row, value)
    }
}

/// A row of the buses.
#[tactic(auto, unfolding(crate::specs::Pass::bus_row))]
pub(crate) fn bus_row(row: u32, value: &Value) -> Result<BusRow, CaseRefusal>
    ensures { AnswersExactly (λ b. b) result (bus_row row (view value.now)) }
{
    let required = [Field::Name, Field::Substation];
    let table = row_table(CaseList::Bus, &required, &[], row, value)?;
    let name = name_at(CaseList::Bus, row, Field::Name, table)?;
    let substation = name_at(CaseList::Bus, row, Field::Substation, table)?;
    Ok(BusRow { name, substation })
}

/// A row of the lines through one zone.
#[tactic(auto, unfolding(crate::specs::Pass::plain_line_row))]
fn plain_line_row(row: u32, value: &Value) -> Result<LineRow, CaseRefusal>
    ensures { AnswersExactly (λ l. l) result (plain_line_row row (view value.now)) }
{
    let required = [
        Field::Name,
        Field::From,
        Field::To,
        Field::Zone,
        Field::Resistance,
        Field::North,
        Field::East,
    ];
    let table = row_table(CaseList::Line, &required, &[Field::Blocked], row, value)?;
    let name = name_at(CaseList::Line, row, Field::Name, table)?;
    let from = name_at(CaseList::Line, row, Field::From, table)?;
    let to = name_at(CaseList::Line, row, Field::To, table)?;
    let zone = name_at(CaseList::Line, row, Field::Zone, table)?;
    let resistance = ohm_at(CaseList::Line, row, Field::Resistance, table)?;
    let north = metres_at(CaseList::Line, row, Field::North, table)?;
    let east = metres_at(CaseList::Line, row, Field::East, table)?;
    let blocked = optional_flag_at(CaseList::Line, row, Field::Blocked, table)?;
    Ok(LineRow {
        name,
        from,
        to,
        course: CourseRow::One(PartRow { zone, north, east }),
        resistance,
        blocked: blocked.unwrap_or(false),
    })
}

/// A row of the lines in parts.
#[tactic(auto, unfolding(crate::specs::Pass::parted_line_row))]
fn parted_line_row(
    alloc: Global,
    row: u32,
    value: &Value,
) -> Result<LineRow, ReadFault<CaseRefusal>>
    ensures { AnswersRead (λ l. l) result (parted_line_row row (view value.now)) }
{
    let required = [
        Field::Name,
        Field::From,
        Field::To,
        Field::Resistance,
        Field::Part,
    ];
    let table = row_table(CaseList::Line, &required, &[Field::Blocked], row, value)?;
    let name = name_at(CaseList::Line, row, Field::Name, table)?;
    let from = name_at(CaseList::Line, row, Field::From, table)?;
    let to = name_at(CaseList::Line, row, Field::To, table)?;
    let resistance = ohm_at(CaseList::Line, row, Field::Resistance, table)?;
    let blocked = optional_flag_at(CaseList::Line, row, Field::Blocked, table)?;
    let parts = parts_at(alloc, row, table)?;
    Ok(LineRow {
        name,
        from,
        to,
        course: CourseRow::Several(parts),
        resistance,
        blocked: blocked.unwrap_or(false),
    })
}

/// A row of the lines.
#[tactic(auto, unfolding(crate::specs::Pass::line_row))]
pub(crate) fn line_row(
    alloc: Global,
    format: Format,
    row: u32,
    value: &Value,
) -> Result<LineRow, ReadFault<CaseRefusal>>
    ensures { AnswersRead (λ l. l) result (line_row format row (view value.now)) }
{
    if format.is_third() && has_in(value, Field::Part) {
        parted_line_row(alloc, row, value)
    } else {
        Ok(plain_line_row(row, value)?)
    }
}
