//! The voltages of the lines of a case.
ghost use Rattle.std.specs.Prelude.{◌≡◌, length, IfOk};
ghost use Rattle.gic_induce.specs.LineVolts.{all_line_volts};
ghost use Rattle.gic_criteria.specs.Ranges.{IsWithinField};
ghost use Rattle.gic_volts.specs.RightVolts.{volts_of_lines};

use gic_base::OutOfMemory;
use gic_case::Case;
use gic_criteria::UniformField;
use gic_induce::Fields;
use std::alloc::{AllocError, Global};

/// The voltage of each line in these fields of the zones, in nanovolts.
fn all_line_volts(alloc: Global, case: &Case, fields: &Fields) -> Result<Vec<i64>, AllocError>
    requires { length fields.now ≡ length case.now.zones }
    ensures { IfOk result (λ lines. lines.items ≡ all_line_volts case.now fields.now) }
{
    let zones = case.zones();
    let mut volts = Vec::new(alloc);
    for line in case.lines() {
        volts.push(gic_induce::line_volts(zones, fields, line))?;
    }
    Ok(volts)
}

/// The voltage of each line in the field that is asked for, in nanovolts.
pub(crate) fn line_volts(
    alloc: Global,
    case: &Case,
    field: &UniformField,
) -> Result<Vec<i64>, OutOfMemory>
    requires { IsWithinField field.now }
    ensures { IfOk result (λ lines. lines.items ≡ volts_of_lines case.now field.now.north field.now.east) }
{
    let zones = case.zones().len() as u16;
    let fields = Fields::uniform(alloc, zones, field.north, field.east)?;
    let volts = all_line_volts(alloc, case, &fields)?;
    Ok(volts)
}
