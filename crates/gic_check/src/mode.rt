//! The report of the mode.
ghost use Rattle.std.specs.Prelude.{◌≡◌, length};
ghost use Rattle.gic_base.specs.Writes.{Writes};
ghost use Rattle.gic_net.specs.Net.{standing};
ghost use Rattle.gic_winding.specs.ElementList.{elements_of};
ghost use Rattle.gic_stand.specs.Needs.{Earthed};
ghost use Rattle.gic_stand.specs.Serves.{Serves, shown};
ghost use Rattle.gic_stand.specs.Standing.{steps_of};
ghost use Rattle.gic_check.specs.Made.{IsMadeFor};
ghost use Rattle.gic_check.specs.RightCheck.{check_text, IsRightCheck};

use crate::live::fill_live;
use crate::text::write_check;
use crate::workspace::Workspace;
use gic_base::{Sink, WriteFailed};
use gic_case::Case;
use gic_inputs::Inputs;
use gic_net::Net;
use gic_stand::{ReportFault, ended, expect_earthed};
use gic_text::LineBuilder;

/// Writes which nodes of a network are live; `live` is workspace for an answer for each.
fn write_live<S: Sink>(
    case: &Case,
    net: &Net,
    live: &mut [bool],
    line: &mut LineBuilder,
    out: &mut S,
) -> Result<(), WriteFailed>
    requires network { net.now.network ≡ elements_of case.now }
    requires space { length live.old ≡ net.now.network.nodes }
    ensures { Writes S.written S.faults out.old out.new (check_text case.now (standing net.now)) result }
{
    fill_live(net, live);
    write_check(case, live, line, out)
}

/// Writes which nodes are live with all rows of the switchings in force, where each live one is earthed. Takes no memory.
pub fn check<S: Sink>(
    inputs: &Inputs<()>,
    workspace: &mut Workspace,
    out: &mut S,
) -> Result<(), ReportFault>
    requires { IsMadeFor inputs.now workspace.old }
    ensures { Serves Earthed inputs.now.case (steps_of inputs.now) (IsRightCheck inputs.now)
        (shown S.written S.faults out.old) (shown S.written S.faults out.new) result }
{
    let case = &inputs.case;
    expect_earthed(case, &workspace.net, 1, &mut workspace.scratch)?;
    let writing = write_live(
        case,
        &workspace.net,
        &mut workspace.live,
        &mut workspace.line,
        out,
    );
    ended(writing)
}
