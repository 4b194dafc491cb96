//! The report of the mode.
ghost use Rattle.gic_base.specs.Writes.{Writes};
ghost use Rattle.gic_criteria.specs.Ranges.{IsWithinCriteria};
ghost use Rattle.gic_stand.specs.Needs.{Solved};
ghost use Rattle.gic_stand.specs.Serves.{Serves, shown};
ghost use Rattle.gic_stand.specs.Standing.{steps_of};
ghost use Rattle.gic_screen_mode.specs.Made.{IsMadeFor};
ghost use Rattle.gic_screen_mode.specs.RightScreen.{screen_text, IsRightScreen};

use crate::text::write_screen;
use crate::workspace::Workspace;
use gic_base::{Sink, WriteFailed};
use gic_case::Case;
use gic_criteria::Criteria;
use gic_inputs::Inputs;
use gic_stand::{ReportFault, ended};
use gic_text::LineBuilder;
use gic_worst::{ScreenRows, screen_net, setting_of};

/// Writes the report of these rows.
fn write_rows<S: Sink>(
    case: &Case,
    criteria: &Criteria,
    rows: &ScreenRows,
    line: &mut LineBuilder,
    out: &mut S,
) -> Result<(), WriteFailed>
    ensures { Writes S.written S.faults out.old out.new (screen_text case.now criteria.now rows.now) result }
{
    let setting = setting_of(criteria);
    write_screen(case.transformers(), &setting, rows.rows(), line, out)
}

/// Writes the current of each transformer of the case for the worst orientation of the field of the event that is asked
/// for, with all rows of the switchings in force, where its network can be solved. Takes no memory.
pub fn screen<S: Sink>(
    inputs: &Inputs<Criteria>,
    workspace: &mut Workspace,
    out: &mut S,
) -> Result<(), ReportFault>
    requires ranges { IsWithinCriteria inputs.now.question }
    requires workspace { IsMadeFor inputs.now workspace.old }
    ensures { Serves Solved inputs.now.case (steps_of inputs.now) (IsRightScreen inputs.now)
        (shown S.written S.faults out.old) (shown S.written S.faults out.new) result }
{
    let case = &inputs.case;
    let criteria = &inputs.question;
    screen_net(
        case,
        &workspace.net,
        &workspace.volts,
        criteria.width,
        &mut workspace.screening,
    )?;
    let writing = write_rows(
        case,
        criteria,
        &workspace.screening.rows,
        &mut workspace.line,
        out,
    );
    ended(writing)
}
