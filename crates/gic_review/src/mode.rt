//! The report of the mode.
ghost use Rattle.gic_stand.specs.Needs.{Nothing};
ghost use Rattle.gic_stand.specs.Serves.{Serves, shown};
ghost use Rattle.gic_stand.specs.Standing.{steps_of};
ghost use Rattle.gic_review.specs.Made.{IsMadeFor};
ghost use Rattle.gic_review.specs.RightReview.{IsRightReview};

use crate::text::write_review;
use crate::workspace::Workspace;
use gic_base::Sink;
use gic_inputs::Inputs;
use gic_stand::{ReportFault, ended};

/// Writes what is found in the case. Takes no memory.
pub fn review<S: Sink>(
    inputs: &Inputs<()>,
    workspace: &mut Workspace,
    out: &mut S,
) -> Result<(), ReportFault>
    requires { IsMadeFor inputs.now workspace.old }
    ensures { Serves Nothing inputs.now.case (steps_of inputs.now) (IsRightReview inputs.now)
        (shown S.written S.faults out.old) (shown S.written S.faults out.new) result }
{
    let writing = write_review(&workspace.findings, &mut workspace.line, out);
    ended(writing)
}
