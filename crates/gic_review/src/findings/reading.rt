//! The values of the rows of a case.
ghost use Rattle.std.specs.Prelude.{◌≡◌, ◌++◌, flat_map, All, OnOk};
ghost use Rattle.gic_case.specs.declared.case_list.CaseList.TheVariants as lists;
ghost use Rattle.gic_review.specs.Readings.{value_told, values_told, span_readings, kilometre_readings, volts_readings, resistance_by};
ghost use Rattle.gic_review.specs.Readings.{winding_readings, neutral_readings};
ghost use Rattle.gic_review.specs.Readings.{zone_told, substation_told, line_told, transformer_told, values_of};
ghost use Rattle.gic_review.specs.Spans.{IsShort};

use crate::findings::finding::Finding;
use crate::findings::measured::Quantity;
use crate::findings::span::span_of;
use gic_base::{Name, OutOfMemory};
use gic_case::{
    Case, CaseList, Line, Neutral, Scaling, Substation, Transformer, Winding, WindingRole, Zone,
};

/// Adds what is told of a value of a row.
fn push_value(
    findings: &mut Vec<Finding>,
    list: CaseList,
    name: Name,
    measured: Quantity,
    number: u64,
) -> Result<(), OutOfMemory>
    ensures { OnOk result (findings.new.items ≡ findings.old.items ++ value_told list name (measured, number)) }
{
    if measured.is_unusual(number) {
        findings.push(Finding::Value {
            list,
            name,
            measured,
            number,
        })?;
    }
    Ok(())
}

/// Adds what is told of the values of a zone, which has none where it is given by one number.
fn push_zone(findings: &mut Vec<Finding>, zone: &Zone) -> Result<(), OutOfMemory>
    ensures { OnOk result (findings.new.items ≡ findings.old.items ++ zone_told zone.now) }
{
    match zone.scaling {
        Scaling::Earth { latitude, beta } => {
            let latitude = u64::from(latitude);
            let beta = u64::from(beta);
            push_value(
                findings,
                CaseList::Zone,
                zone.name,
                Quantity::Latitude,
                latitude,
            )?;
            push_value(findings, CaseList::Zone, zone.name, Quantity::Beta, beta)
        }
        Scaling::Factor(_) => Ok(()),
    }
}

/// Adds what is told of the values of a substation.
fn push_substation(findings: &mut Vec<Finding>, substation: &Substation) -> Result<(), OutOfMemory>
    ensures { OnOk result (findings.new.items ≡ findings.old.items ++ substation_told substation.now) }
{
    match substation.ground {
        Some(ohm) => push_value(
            findings,
            CaseList::Substation,
            substation.name,
            Quantity::Ground,
            u64::from(ohm),
        ),
        None => Ok(()),
    }
}

/// Adds what is told of how long a line is, which a blocked line isn't asked.
fn push_span(findings: &mut Vec<Finding>, line: &Line) -> Result<(), OutOfMemory>
    requires { IsShort line.now }
    ensures { OnOk result (findings.new.items ≡ findings.old.items ++ values_told lists.Line line.now.name (span_readings line.now)) }
{
    if line.blocked {
        return Ok(());
    }
    let length = span_of(line).length();
    push_value(findings, CaseList::Line, line.name, Quantity::Span, length)
}

/// Adds what is told of the resistance of a line for a kilometre.
fn push_kilometre(findings: &mut Vec<Finding>, line: &Line) -> Result<(), OutOfMemory>
    requires { IsShort line.now }
    ensures { OnOk result (findings.new.items ≡ findings.old.items ++ values_told lists.Line line.now.name (kilometre_readings line.now)) }
{
    let length = span_of(line).length();
    if length < 1000 {
        return Ok(());
    }
    let each = u64::from(line.resistance) * 1000 / length;
    push_value(
        findings,
        CaseList::Line,
        line.name,
        Quantity::PerKilometre,
        each,
    )
}

/// Adds what is told of the values of a line.
fn push_line(findings: &mut Vec<Finding>, line: &Line) -> Result<(), OutOfMemory>
    requires { IsShort line.now }
    ensures { OnOk result (findings.new.items ≡ findings.old.items ++ line_told line.now) }
{
    let resistance = u64::from(line.resistance);
    push_value(
        findings,
        CaseList::Line,
        line.name,
        Quantity::Resistance,
        resistance,
    )?;
    push_span(findings, line)?;
    push_kilometre(findings, line)
}

/// Adds what is told of a resistance of a transformer.
fn push_ohm(
    findings: &mut Vec<Finding>,
    name: Name,
    measured: Quantity,
    ohm: u32,
) -> Result<(), OutOfMemory>
    ensures { OnOk result (findings.new.items ≡ findings.old.items ++ value_told lists.Transformer name (measured, ohm)) }
{
    push_value(
        findings,
        CaseList::Transformer,
        name,
        measured,
        u64::from(ohm),
    )
}

/// Adds what is told of the high voltage of a transformer, which a reactor isn't asked: a unit that has windings and no
/// effective current.
fn push_high_volts(
    findings: &mut Vec<Finding>,
    transformer: &Transformer,
) -> Result<(), OutOfMemory>
    ensures { OnOk result (findings.new.items ≡
        findings.old.items ++ values_told lists.Transformer transformer.now.name (volts_readings transformer.now)) }
{
    if transformer.has_windings() && !transformer.kind.has_effect() {
        return Ok(());
    }
    push_value(
        findings,
        CaseList::Transformer,
        transformer.name,
        Quantity::HighVolts,
        u64::from(transformer.high_volts),
    )
}

/// What the resistance of a winding is measured as.
fn resistance_by(role: WindingRole) -> Quantity
    ensures { result ≡ resistance_by role }
{
    match role {
        WindingRole::High => Quantity::HighResistance,
        WindingRole::Low => Quantity::LowResistance,
        WindingRole::Series => Quantity::SeriesResistance,
        WindingRole::Common => Quantity::CommonResistance,
        WindingRole::Third => Quantity::ThirdResistance,
    }
}

/// Adds what is told of the resistances of these windings of the transformer of this name.
fn push_windings(
    findings: &mut Vec<Finding>,
    name: Name,
    windings: &[Winding],
) -> Result<(), OutOfMemory>
    ensures { OnOk result (findings.new.items ≡ findings.old.items ++ values_told lists.Transformer name (winding_readings windings.now)) }
{
    for winding in windings {
        push_ohm(
            findings,
            name,
            resistance_by(winding.role),
            winding.resistance,
        )?;
    }
    Ok(())
}

/// Adds what is told of the device in a transformer's neutral.
fn push_neutral(
    findings: &mut Vec<Finding>,
    name: Name,
    neutral: Option<Neutral>,
) -> Result<(), OutOfMemory>
    ensures { OnOk result (findings.new.items ≡ findings.old.items ++ values_told lists.Transformer name (neutral_readings neutral)) }
{
    match neutral {
        Some(Neutral::Resistor(ohm)) => push_ohm(findings, name, Quantity::Neutral, ohm),
        Some(Neutral::Blocked) | None => Ok(()),
    }
}

/// Adds what is told of the values of a transformer.
fn push_transformer(
    findings: &mut Vec<Finding>,
    transformer: &Transformer,
) -> Result<(), OutOfMemory>
    ensures { OnOk result (findings.new.items ≡ findings.old.items ++ transformer_told transformer.now) }
{
    let name = transformer.name;
    push_high_volts(findings, transformer)?;
    let windings = transformer.windings();
    push_windings(findings, name, windings.as_slice())?;
    push_neutral(findings, name, transformer.neutral)
}

fn push_zones(findings: &mut Vec<Finding>, zones: &[Zone]) -> Result<(), OutOfMemory>
    ensures { OnOk result (findings.new.items ≡ findings.old.items ++ flat_map zone_told zones.now) }
{
    for zone in zones {
        push_zone(findings, zone)?;
    }
    Ok(())
}

fn push_substations(
    findings: &mut Vec<Finding>,
    substations: &[Substation],
) -> Result<(), OutOfMemory>
    ensures { OnOk result (findings.new.items ≡ findings.old.items ++ flat_map substation_told substations.now) }
{
    for substation in substations {
        push_substation(findings, substation)?;
    }
    Ok(())
}

fn push_lines(findings: &mut Vec<Finding>, lines: &[Line]) -> Result<(), OutOfMemory>
    requires { All IsShort lines.now }
    ensures { OnOk result (findings.new.items ≡ findings.old.items ++ flat_map line_told lines.now) }
{
    for line in lines {
        push_line(findings, line)?;
    }
    Ok(())
}

fn push_transformers(
    findings: &mut Vec<Finding>,
    transformers: &[Transformer],
) -> Result<(), OutOfMemory>
    ensures { OnOk result (findings.new.items ≡ findings.old.items ++ flat_map transformer_told transformers.now) }
{
    for transformer in transformers {
        push_transformer(findings, transformer)?;
    }
    Ok(())
}

/// Adds what is told of the values of a case, list after list.
pub(crate) fn push_values(findings: &mut Vec<Finding>, case: &Case) -> Result<(), OutOfMemory>
    ensures { OnOk result (findings.new.items ≡ findings.old.items ++ values_of case.now) }
{
    push_zones(findings, case.zones())?;
    push_substations(findings, case.substations())?;
    push_lines(findings, case.lines())?;
    push_transformers(findings, case.transformers())
}
