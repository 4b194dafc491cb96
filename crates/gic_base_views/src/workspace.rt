//! What base fields are solved in.
ghost use Rattle.std.specs.Prelude.{◌≡◌, IfOk};
ghost use Rattle.gic_effective.specs.Holds.{AreOfNetwork};
ghost use Rattle.gic_winding.specs.ElementList.{elements_of};
ghost use Rattle.gic_base_views.specs.BaseFields.{IsBaseWorkspaceFor};

use crate::table::BaseTable;
use gic_base::OutOfMemory;
use gic_case::Case;
use gic_enclose::Potentials;
use gic_model::{Elements, Volts};
use std::alloc::Global;

/// The voltages of a base field, in nanovolts, and the potentials in it, in grains of 2^-36 nanovolt.
pub struct BaseField {
    pub(crate) volts: Volts,
    pub(crate) potentials: Potentials,
}

impl Drop for BaseField {
    /// Lets go of everything, in one step for whoever drops it.
    fn drop(self) {
        let BaseField {
            volts: _volts,
            potentials: _potentials,
        } = self;
    }
}

impl BaseField {
    /// No voltage, and each potential the point 0.
    fn new(alloc: Global, elements: &Elements) -> Result<BaseField, OutOfMemory>
        ensures { IfOk result (λ base. AreOfNetwork elements.now base.volts base.potentials) }
    {
        let volts = Volts::new(alloc, elements)?;
        let potentials = Potentials::new(alloc, elements.nodes())?;
        Ok(BaseField { volts, potentials })
    }
}

/// What base fields are solved in, and the table of what they show.
pub struct BaseWorkspace {
    pub(crate) north: BaseField,
    pub(crate) east: BaseField,
    pub table: BaseTable,
}

impl Drop for BaseWorkspace {
    /// Lets go of everything, in one step for whoever drops it.
    fn drop(self) {
        let BaseWorkspace {
            north: _north,
            east: _east,
            table: _table,
        } = self;
    }
}

impl BaseWorkspace {
    /// The workspace for a case whose elements these are. Nothing is solved yet.
    pub fn new(
        alloc: Global,
        case: &Case,
        elements: &Elements,
    ) -> Result<BaseWorkspace, OutOfMemory>
        requires { elements.now ≡ elements_of case.now }
        ensures { IfOk result (IsBaseWorkspaceFor case.now) }
    {
        let north = BaseField::new(alloc, elements)?;
        let east = BaseField::new(alloc, elements)?;
        let table = BaseTable::new(alloc, case, elements)?;
        Ok(BaseWorkspace { north, east, table })
    }
}
