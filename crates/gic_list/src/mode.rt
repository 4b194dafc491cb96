//! The report of the mode.
ghost use Rattle.gic_stand.specs.Needs.{Nothing};
ghost use Rattle.gic_stand.specs.Serves.{Serves, shown};
ghost use Rattle.gic_stand.specs.Standing.{steps_of};
ghost use Rattle.gic_list.specs.RightList.{IsRightList};
ghost use Rattle.gic_list.specs.Made.{IsMadeFor};

use crate::text::write_list;
use crate::workspace::Workspace;
use gic_base::Sink;
use gic_inputs::Inputs;
use gic_stand::{ReportFault, ended};

/// Writes the elements of the case. Takes no memory.
pub fn list<S: Sink>(
    inputs: &Inputs<()>,
    workspace: &mut Workspace,
    out: &mut S,
) -> Result<(), ReportFault>
    requires { IsMadeFor inputs.now workspace.old }
    ensures { Serves Nothing inputs.now.case (steps_of inputs.now) (IsRightList inputs.now)
        (shown S.written S.faults out.old) (shown S.written S.faults out.new) result }
{
    let elements = &workspace.elements;
    let writing = write_list(
        &inputs.case,
        elements.nodes(),
        elements.list(),
        &mut workspace.line,
        out,
    );
    ended(writing)
}
