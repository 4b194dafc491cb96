//! The voltages in the field of an event.
ghost use Rattle.std.specs.Prelude.{◌≡◌, IfOk};
ghost use Rattle.gic_winding.specs.ElementList.{elements_of};
ghost use Rattle.gic_worst.specs.Screening.{AreOfEvent};

use gic_base::OutOfMemory;
use gic_case::Case;
use gic_criteria::Event;
use gic_model::{Elements, Volts};
use gic_uniform::uniform_volts;
use std::alloc::Global;

/// The voltages in nanovolts in one field to the north, and in the same field to the east.
pub struct FieldVolts {
    pub north: Volts,
    pub east: Volts,
}

impl Drop for FieldVolts {
    /// Lets go of everything, in one step for whoever drops it.
    fn drop(self) {
        let FieldVolts {
            north: _north,
            east: _east,
        } = self;
    }
}

/// The voltages of the elements of a case in the field of an event.
pub fn field_volts(
    alloc: Global,
    case: &Case,
    elements: &Elements,
    event: Event,
) -> Result<FieldVolts, OutOfMemory>
    requires { elements.now ≡ elements_of case.now }
    ensures { IfOk result (AreOfEvent case.now event) }
{
    let field = event.field();
    let north = uniform_volts(alloc, case, elements, field, 0)?;
    let east = uniform_volts(alloc, case, elements, 0, field)?;
    Ok(FieldVolts { north, east })
}
