//! What the mode takes memory for.
ghost use Rattle.std.specs.Prelude.{IfOk};
ghost use Rattle.gic_screen_mode.specs.Made.{IsMadeFor};

use gic_base::OutOfMemory;
use gic_criteria::Criteria;
use gic_inputs::Inputs;
use gic_net::Net;
use gic_stand::standing_net;
use gic_text::LineBuilder;
use gic_winding::elements;
use gic_worst::{FieldVolts, ScreenWorkspace, field_volts, make_screen_workspace};
use std::alloc::Global;

/// All that the mode takes memory for. It is made before the network is looked at.
pub struct Workspace {
    pub(crate) line: LineBuilder,
    pub(crate) net: Net,
    /// The voltages of the field of the event that is asked for.
    pub(crate) volts: FieldVolts,
    pub(crate) screening: ScreenWorkspace,
}

impl Drop for Workspace {
    /// Lets go of everything, in one step for whoever drops it.
    fn drop(self) {
        let Workspace {
            line: _line,
            net: _net,
            volts: _volts,
            screening: _screening,
        } = self;
    }
}

/// The workspace for the network of the case, with all rows of the switchings in force.
pub fn make_workspace(alloc: Global, inputs: &Inputs<Criteria>) -> Result<Workspace, OutOfMemory>
    ensures { IfOk result (IsMadeFor inputs.now) }
{
    let line = LineBuilder::new(alloc)?;
    let case = &inputs.case;
    let elements = elements(alloc, case)?;
    let net = standing_net(alloc, &elements, &inputs.switchings)?;
    let volts = field_volts(alloc, case, &elements, inputs.question.event)?;
    let screening = make_screen_workspace(alloc, case, &net)?;
    Ok(Workspace {
        line,
        net,
        volts,
        screening,
    })
}
