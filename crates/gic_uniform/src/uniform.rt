//! One field for all zones of a case.
ghost use Rattle.std.specs.Prelude.{◌≡◌, IfOk};
ghost use Rattle.gic_induce.specs.LineVolts.{uniform_field, volts_of};
ghost use Rattle.gic_induce.specs.Voltage.{IsFieldWithin};
ghost use Rattle.gic_winding.specs.ElementList.{elements_of};

use gic_base::OutOfMemory;
use gic_case::Case;
use gic_effective::laws::line_items_law;
use gic_induce::{Fields, fill_volts};
use gic_model::{Elements, Volts};
use std::alloc::Global;

/// The voltages in nanovolts of the elements of a case in one field for all zones, which is given in mV/km, to the
/// north and to the east.
pub fn uniform_volts(
    alloc: Global,
    case: &Case,
    elements: &Elements,
    north: i32,
    east: i32,
) -> Result<Volts, OutOfMemory>
    requires elements { elements.now ≡ elements_of case.now }
    requires north { IsFieldWithin north }
    requires east { IsFieldWithin east }
    ensures { IfOk result (λ volts. volts ≡ volts_of case.now (uniform_field case.now north east) (elements_of case.now).list) }
{
    line_items_law();
    let zones = case.zones().len() as u16;
    let fields = Fields::uniform(alloc, zones, north, east)?;
    let mut volts = Volts::new(alloc, elements)?;
    fill_volts(case, elements.list(), &fields, &mut volts);
    Ok(volts)
}
