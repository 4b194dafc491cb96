//! The places of the rows that names refer to, and the lists with these places.
ghost use Rattle.std.specs.Prelude.{◌≡◌, ◌<◌, ◌^◌, map, IfOk, length, vec_len};
ghost use Rattle.std.specs.HashMap.{get};
ghost use Rattle.gic_base.specs.Refusals.{AnswersRead, AnswersExactly};
ghost use Rattle.gic_case.specs.Names.{same, place_in};
ghost use Rattle.gic_case_reader.specs.Rules.{substation_place, bus_place, zone_place};
ghost use Rattle.gic_case_reader.specs.Pass.{each, place_at, side_at, bus_in, part_in, parts_with, course_in, line_in};
ghost use Rattle.gic_case_reader.specs.Pass.{third_in, kind_in, transformer_in, resolve};

use crate::document::Rows;
use crate::field::Field;
use crate::list::{Row, push_names};
use crate::names::places_of;
use crate::part_row::PartRow;
use crate::refusal::CaseRefusal;
use crate::row::{BusRow, CourseRow, LineRow, TransformerRow};
use gic_base::{Name, ReadFault};
use gic_case::{
    Bus, CaseList, CaseLists, Course, Kind, Line, LinePart, LineParts, Third, Transformer,
};
use std::alloc::{AllocError, Global};
use std::collections::HashMap;

/// The place of each row's name.
fn row_places<R: Row>(alloc: Global, rows: &[R]) -> Result<HashMap<Name, u16>, AllocError>
    requires { length rows.now < 2 ^ 16 }
    ensures { IfOk result (λ m. get same m ≡ place_in (map R.named rows.now)) }
{
    let mut names = Vec::new(alloc);
    push_names(&mut names, rows)?;
    places_of(alloc, names.as_slice())
}

/// The place of the name that a field refers to.
fn place_at(
    places: &HashMap<Name, u16>,
    list: CaseList,
    row: u32,
    at: Field,
    name: &Name,
) -> Result<u16, CaseRefusal>
    ensures { AnswersExactly (λ n. n) result (place_at (get same places.now) list row at name.now) }
{
    match places.get(name) {
        Some(place) => Ok(*place),
        None => Err(CaseRefusal::Unknown {
            list,
            row,
            field: at,
        }),
    }
}

/// A bus, with the place of its substation.
#[tactic(auto, unfolding(crate::specs::Pass::bus_in))]
fn bus_in(substations: &HashMap<Name, u16>, row: u32, bus: &BusRow) -> Result<Bus, CaseRefusal>
    ensures { AnswersExactly (λ b. b) result (bus_in (get same substations.now) row bus.now) }
{
    let substation = place_at(
        substations,
        CaseList::Bus,
        row,
        Field::Substation,
        &bus.substation,
    )?;
    Ok(Bus {
        name: bus.name,
        substation,
    })
}

/// A part of a line, with the place of its zone, to which a field refers.
fn part_in(
    zones: &HashMap<Name, u16>,
    row: u32,
    at: Field,
    part: &PartRow,
) -> Result<LinePart, CaseRefusal>
    ensures { AnswersExactly (λ p. p) result (part_in (get same zones.now) row at part.now) }
{
    let zone = place_at(zones, CaseList::Line, row, at, &part.zone)?;
    Ok(LinePart {
        zone,
        north: part.north,
        east: part.east,
    })
}

/// Parts of a line, with the places of their zones.
fn parts_with(
    alloc: Global,
    zones: &HashMap<Name, u16>,
    row: u32,
    rows: &[PartRow],
) -> Result<LineParts, ReadFault<CaseRefusal>>
    ensures { AnswersRead (λ ps. ps) result (parts_with (get same zones.now) row rows.now) }
{
    let mut parts = Vec::new(alloc);
    for part in rows {
        parts.push(part_in(zones, row, Field::Part, part)?)?;
    }
    Ok(LineParts::of(parts))
}

/// Where a line leads, with the places of the zones.
#[tactic(auto, unfolding(crate::specs::Pass::course_in))]
fn course_in(
    alloc: Global,
    zones: &HashMap<Name, u16>,
    row: u32,
    course: &CourseRow,
) -> Result<Course, ReadFault<CaseRefusal>>
    ensures { AnswersRead (λ c. c) result (course_in (get same zones.now) row course.now) }
{
    match course {
        CourseRow::One(part) => Ok(Course::One(part_in(zones, row, Field::Zone, part)?)),
        CourseRow::Several(rows) => Ok(Course::Several(parts_with(
            alloc,
            zones,
            row,
            rows.as_slice(),
        )?)),
    }
}

/// A line, with the places of its buses and its zones.
#[tactic(auto, unfolding(crate::specs::Pass::line_in))]
fn line_in(
    alloc: Global,
    buses: &HashMap<Name, u16>,
    zones: &HashMap<Name, u16>,
    row: u32,
    line: &LineRow,
) -> Result<Line, ReadFault<CaseRefusal>>
    ensures { AnswersRead (λ l. l) result (line_in (get same buses.now) (get same zones.now) row line.now) }
{
    let from = place_at(buses, CaseList::Line, row, Field::From, &line.from)?;
    let to = place_at(buses, CaseList::Line, row, Field::To, &line.to)?;
    let course = course_in(alloc, zones, row, &line.course)?;
    Ok(Line {
        name: line.name,
        from,
        to,
        course,
        resistance: line.resistance,
        blocked: line.blocked,
    })
}

/// The place of the bus of a transformer's side.
fn side_at(buses: &HashMap<Name, u16>, row: u32, at: Field, bus: &Name) -> Result<u16, CaseRefusal>
    ensures { AnswersExactly (λ n. n) result (side_at (get same buses.now) row at bus.now) }
{
    place_at(buses, CaseList::Transformer, row, at, bus)
}

/// A third side, with the place of its bus.
fn third_in(
    buses: &HashMap<Name, u16>,
    row: u32,
    third: Option<Third<Name>>,
) -> Result<Option<Third<u16>>, CaseRefusal>
    ensures { AnswersExactly (λ t. t) result (third_in (get same buses.now) row third) }
{
    match third {
        Some(third) => {
            let bus = side_at(buses, row, Field::Third, &third.bus)?;
            Ok(Some(Third {
                bus,
                volts: third.volts,
                resistance: third.resistance,
            }))
        }
        None => Ok(None),
    }
}

/// A kind, with the places of its buses.
#[tactic(auto, unfolding(crate::specs::Pass::kind_in))]
fn kind_in(
    buses: &HashMap<Name, u16>,
    row: u32,
    kind: &Kind<Name>,
) -> Result<Kind<u16>, CaseRefusal>
    ensures { AnswersExactly (λ k. k) result (kind_in (get same buses.now) row kind.now) }
{
    match *kind {
        Kind::DeltaWye {
            high,
            high_resistance,
        } => Ok(Kind::DeltaWye {
            high: side_at(buses, row, Field::High, &high)?,
            high_resistance,
        }),
        Kind::WyeWye {
            high,
            low,
            low_volts,
            high_resistance,
            low_resistance,
            third,
        } => Ok(Kind::WyeWye {
            high: side_at(buses, row, Field::High, &high)?,
            low: side_at(buses, row, Field::Low, &low)?,
            low_volts,
            high_resistance,
            low_resistance,
            third: third_in(buses, row, third)?,
        }),
        Kind::Auto {
            high,
            low,
            low_volts,
            series_resistance,
            common_resistance,
            third,
        } => Ok(Kind::Auto {
            high: side_at(buses, row, Field::High, &high)?,
            low: side_at(buses, row, Field::Low, &low)?,
            low_volts,
            series_resistance,
            common_resistance,
            third: third_in(buses, row, third)?,
        }),
        Kind::Reactor {
            high,
            high_resistance,
        } => Ok(Kind::Reactor {
            high: side_at(buses, row, Field::High, &high)?,
            high_resistance,
        }),
        Kind::DeltaDelta => Ok(Kind::DeltaDelta),
    }
}

/// A transformer, with the places of its buses.
#[tactic(auto, unfolding(crate::specs::Pass::transformer_in))]
fn transformer_in(
    buses: &HashMap<Name, u16>,
    row: u32,
    transformer: &TransformerRow,
) -> Result<Transformer, CaseRefusal>
    ensures { AnswersExactly (λ t. t) result (transformer_in (get same buses.now) row transformer.now) }
{
    let kind = kind_in(buses, row, &transformer.kind)?;
    Ok(Transformer {
        name: transformer.name,
        high_volts: transformer.high_volts,
        kind,
        neutral: transformer.neutral,
    })
}

/// The buses, with the places of their substations.
fn buses_in(
    alloc: Global,
    substations: &HashMap<Name, u16>,
    rows: &[BusRow],
) -> Result<Vec<Bus>, ReadFault<CaseRefusal>>
    requires { length rows.now < 2 ^ 16 }
    ensures value { AnswersRead (λ v. v.items) result (each (bus_in (get same substations.now)) 1 rows.now) }
    ensures count { IfOk result (λ v. vec_len v ≡ length rows.now) }
{
    let mut buses = Vec::new(alloc);
    for (i, bus) in rows.iter().enumerate() {
        buses.push(bus_in(substations, i as u32 + 1, bus)?)?;
    }
    Ok(buses)
}

/// The lines, with the places of their buses and zones.
fn lines_in(
    alloc: Global,
    buses: &HashMap<Name, u16>,
    zones: &HashMap<Name, u16>,
    rows: &[LineRow],
) -> Result<Vec<Line>, ReadFault<CaseRefusal>>
    requires { length rows.now < 2 ^ 16 }
    ensures value { AnswersRead (λ v. v.items) result (each (line_in (get same buses.now) (get same zones.now)) 1 rows.now) }
    ensures count { IfOk result (λ v. vec_len v ≡ length rows.now) }
{
    let mut lines = Vec::new(alloc);
    for (i, line) in rows.iter().enumerate() {
        lines.push(line_in(alloc, buses, zones, i as u32 + 1, line)?)?;
    }
    Ok(lines)
}

/// The transformers, with the places of their buses.
fn transformers_in(
    alloc: Global,
    buses: &HashMap<Name, u16>,
    rows: &[TransformerRow],
) -> Result<Vec<Transformer>, ReadFault<CaseRefusal>>
    requires { length rows.now < 2 ^ 16 }
    ensures value { AnswersRead (λ v. v.items) result (each (transformer_in (get same buses.now)) 1 rows.now) }
    ensures count { IfOk result (λ v. vec_len v ≡ length rows.now) }
{
    let mut transformers = Vec::new(alloc);
    for (i, transformer) in rows.iter().enumerate() {
        transformers.push(transformer_in(buses, i as u32 + 1, transformer)?)?;
    }
    Ok(transformers)
}

/// The buses of a case.
pub(crate) fn resolved_buses(alloc: Global, rows: &Rows) -> Result<Vec<Bus>, ReadFault<CaseRefusal>>
    ensures value { AnswersRead (λ v. v.items) result (each (bus_in (substation_place rows.now)) 1 rows.now.buses) }
    ensures count { IfOk result (λ v. vec_len v ≡ length rows.now.buses) }
{
    let substations = row_places(alloc, rows.substations.as_slice())?;
    buses_in(alloc, &substations, rows.buses.as_slice())
}

/// The lines of a case.
pub(crate) fn resolved_lines(
    alloc: Global,
    rows: &Rows,
) -> Result<Vec<Line>, ReadFault<CaseRefusal>>
    ensures value { AnswersRead (λ v. v.items) result (each (line_in (bus_place rows.now) (zone_place rows.now)) 1 rows.now.lines) }
    ensures count { IfOk result (λ v. vec_len v ≡ length rows.now.lines) }
{
    let buses = row_places(alloc, rows.buses.as_slice())?;
    let zones = row_places(alloc, rows.zones.as_slice())?;
    lines_in(alloc, &buses, &zones, rows.lines.as_slice())
}

/// The transformers of a case.
pub(crate) fn resolved_transformers(
    alloc: Global,
    rows: &Rows,
) -> Result<Vec<Transformer>, ReadFault<CaseRefusal>>
    ensures value { AnswersRead (λ v. v.items) result (each (transformer_in (bus_place rows.now)) 1 rows.now.transformers) }
    ensures count { IfOk result (λ v. vec_len v ≡ length rows.now.transformers) }
{
    let places = row_places(alloc, rows.buses.as_slice())?;
    transformers_in(alloc, &places, rows.transformers.as_slice())
}

/// The lists of these rows, each reference looked up in its list.
#[tactic(auto, unfolding(crate::specs::Pass::resolve))]
pub(crate) fn resolve(alloc: Global, rows: Rows) -> Result<CaseLists, ReadFault<CaseRefusal>>
    ensures { AnswersRead (λ n. n) result (resolve rows) }
{
    let buses = resolved_buses(alloc, &rows)?;
    let lines = resolved_lines(alloc, &rows)?;
    let transformers = resolved_transformers(alloc, &rows)?;
    let Rows {
        zones,
        substations,
        buses: _,
        lines: _,
        transformers: _,
    } = rows;
    Ok(CaseLists {
        zones,
        substations,
        buses,
        lines,
        transformers,
    })
}
