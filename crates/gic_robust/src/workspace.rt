//! What the mode takes memory for.
ghost use Rattle.std.specs.Prelude.{IfOk};
ghost use Rattle.gic_criteria.specs.Ranges.{IsWithinRobust};
ghost use Rattle.gic_robust.specs.Made.{IsMadeFor};

use gic_base::OutOfMemory;
use gic_criteria::RobustCriteria;
use gic_grounds::{VariedWorkspace, make_varied_workspace};
use gic_inputs::Inputs;
use gic_text::LineBuilder;
use gic_winding::elements;
use gic_worst::{FieldVolts, ScreenRows, field_volts};
use std::alloc::Global;

/// All that the mode takes memory for. It is made before the network is looked at.
pub struct Workspace {
    pub(crate) line: LineBuilder,
    /// The voltages of the field of the event that is asked for.
    pub(crate) volts: FieldVolts,
    pub(crate) varied: VariedWorkspace,
    pub(crate) rows: ScreenRows,
}

impl Drop for Workspace {
    /// Lets go of everything, in one step for whoever drops it.
    fn drop(self) {
        let Workspace {
            line: _line,
            volts: _volts,
            varied: _varied,
            rows: _rows,
        } = self;
    }
}

/// The workspace for the network of the case, with all rows of the switchings in force.
pub fn make_workspace(
    alloc: Global,
    inputs: &Inputs<RobustCriteria>,
) -> Result<Workspace, OutOfMemory>
    requires { IsWithinRobust inputs.now.question }
    ensures { IfOk result (IsMadeFor inputs.now) }
{
    let line = LineBuilder::new(alloc)?;
    let case = &inputs.case;
    let asked = &inputs.question;
    let elements = elements(alloc, case)?;
    let volts = field_volts(alloc, case, &elements, asked.criteria.event)?;
    let rows = ScreenRows::new(alloc, case.transformers().len())?;
    let varied = make_varied_workspace(alloc, case, elements, &inputs.switchings, asked.tolerance)?;
    Ok(Workspace {
        line,
        volts,
        varied,
        rows,
    })
}
