//! The rated voltages of the sides of transformers, compared at each bus.
ghost use Rattle.std.specs.Prelude.{◌≡◌, ◌<◌, ◌++◌, length, flat_map, All, replicate, None, IfOk, OnOk};
ghost use Rattle.gic_review.specs.Sides.{rated, side_by, sides_by, rated_sides_of, differs};
ghost use Rattle.gic_review.specs.Sides.{volts_told, measures_with, volts_from, unfit_volts};

use crate::findings::finding::{Finding, Side};
use gic_base::{Name, OutOfMemory};
use gic_case::{Case, Transformer, Winding, WindingRole};
use std::alloc::Global;

/// A side of the transformer of this name: the place of its bus, and its rated voltage in V.
#[derive(Clone, Copy, Debug)]
pub(crate) struct RatedSide {
    pub(crate) name: Name,
    pub(crate) side: Side,
    pub(crate) bus: u16,
    pub(crate) volts: u32,
}

/// The side from which a winding runs.
fn side_by(role: WindingRole) -> Side
    ensures { result ≡ side_by role }
{
    match role {
        WindingRole::High | WindingRole::Series => Side::High,
        WindingRole::Low | WindingRole::Common => Side::Low,
        WindingRole::Third => Side::Third,
    }
}

/// The side of the transformer of this name from which a winding runs.
fn rated(name: Name, winding: &Winding) -> RatedSide
    ensures { result ≡ rated name (side_by winding.now.role) winding.now.from.bus winding.now.from.volts }
{
    RatedSide {
        name,
        side: side_by(winding.role),
        bus: winding.from.bus,
        volts: winding.from.volts,
    }
}

/// Adds the sides of the transformer of this name from which these windings run. What looks at sides reads them here
/// alone.
fn push_sides(
    sides: &mut Vec<RatedSide>,
    name: Name,
    windings: &[Winding],
) -> Result<(), OutOfMemory>
    ensures { OnOk result (sides.new.items ≡ sides.old.items ++ sides_by name windings.now) }
{
    for winding in windings {
        sides.push(rated(name, winding))?;
    }
    Ok(())
}

/// The sides of all transformers, in order.
fn all_sides(alloc: Global, transformers: &[Transformer]) -> Result<Vec<RatedSide>, OutOfMemory>
    ensures { IfOk result (λ sides. sides.items ≡ flat_map rated_sides_of transformers.now) }
{
    let mut sides = Vec::new(alloc);
    for transformer in transformers {
        let windings = transformer.windings();
        push_sides(&mut sides, transformer.name, windings.as_slice())?;
    }
    Ok(sides)
}

/// Whether a voltage is under nine tenths of the measure, or the measure under nine tenths of it.
fn differs(volts: u32, measure: u32) -> bool
    ensures { result ≡ differs volts measure }
{
    let volts = u64::from(volts);
    let measure = u64::from(measure);
    volts * 10 < 9 * measure || volts * 9 > 10 * measure
}

/// Adds what is told of a side at a bus that has this measure, if it has one.
fn push_volts(
    findings: &mut Vec<Finding>,
    side: &RatedSide,
    measure: Option<u32>,
) -> Result<(), OutOfMemory>
    ensures { OnOk result (findings.new.items ≡ findings.old.items ++ volts_told side.now measure) }
{
    let Some(measure) = measure else {
        return Ok(());
    };
    if differs(side.volts, measure) {
        findings.push(Finding::Volts {
            name: side.name,
            side: side.side,
            volts: side.volts,
            measure,
        })?;
    }
    Ok(())
}

/// Makes the side the measure of its bus, unless the bus has one.
fn take_measure(measures: &mut [Option<u32>], side: &RatedSide)
    requires { side.now.bus < length measures.old }
    ensures value { measures.new ≡ measures_with measures.old side.now }
    ensures count { length measures.new ≡ length measures.old }
{
    let bus = side.bus as usize;
    if measures[bus].is_some() {
        return;
    }
    measures[bus] = Some(side.volts);
}

/// Adds what is told of these sides, where the measures are those of the sides before.
fn push_all_volts(
    findings: &mut Vec<Finding>,
    measures: &mut [Option<u32>],
    sides: &[RatedSide],
) -> Result<(), OutOfMemory>
    requires { All (λ s. s.bus < length measures.old) sides.now }
    ensures { OnOk result (findings.new.items ≡ findings.old.items ++ volts_from measures.old sides.now) }
{
    for side in sides {
        push_volts(findings, side, measures[side.bus as usize])?;
        take_measure(measures, side);
    }
    Ok(())
}

/// Adds the rated voltages that don't fit those of the first side at their bus.
pub(crate) fn push_levels(
    alloc: Global,
    findings: &mut Vec<Finding>,
    case: &Case,
) -> Result<(), OutOfMemory>
    ensures { OnOk result (findings.new.items ≡ findings.old.items ++ unfit_volts case.now) }
{
    let sides = all_sides(alloc, case.transformers())?;
    let mut measures = vec![in alloc; None; case.buses().len()]?;
    push_all_volts(findings, &mut measures, &sides)
}
