//! What the mode takes memory for.
ghost use Rattle.std.specs.Prelude.{IfOk};
ghost use Rattle.gic_criteria.specs.Ranges.{IsWithinRanges};
ghost use Rattle.gic_field.specs.Made.{IsMadeFor};

use gic_base::OutOfMemory;
use gic_criteria::Question;
use gic_effective::view_of_case;
use gic_inputs::Inputs;
use gic_model::Volts;
use gic_net::Net;
use gic_stand::standing_net;
use gic_text::LineBuilder;
use gic_uniform::{SolveWorkspace, solve_workspace_for, uniform_volts};
use gic_view::StepView;
use gic_winding::elements;
use std::alloc::Global;

/// All that the mode takes memory for. It is made before the network is looked at.
pub struct Workspace {
    pub(crate) line: LineBuilder,
    pub(crate) net: Net,
    /// The voltages of the field that is asked for.
    pub(crate) volts: Volts,
    pub(crate) view: StepView,
    pub(crate) solving: SolveWorkspace,
}

impl Drop for Workspace {
    /// Lets go of everything, in one step for whoever drops it.
    fn drop(self) {
        let Workspace {
            line: _line,
            net: _net,
            volts: _volts,
            view: _view,
            solving: _solving,
        } = self;
    }
}

/// The workspace for the network of the case, with all rows of the switchings in force.
pub fn make_workspace(alloc: Global, inputs: &Inputs<Question>) -> Result<Workspace, OutOfMemory>
    requires { IsWithinRanges inputs.now.question }
    ensures { IfOk result (IsMadeFor inputs.now) }
{
    let line = LineBuilder::new(alloc)?;
    let case = &inputs.case;
    let field = &inputs.question.field;
    let elements = elements(alloc, case)?;
    let net = standing_net(alloc, &elements, &inputs.switchings)?;
    let volts = uniform_volts(alloc, case, &elements, field.north, field.east)?;
    let view = view_of_case(alloc, case, &net)?;
    let solving = solve_workspace_for(alloc, case, &net)?;
    Ok(Workspace {
        line,
        net,
        volts,
        view,
        solving,
    })
}
