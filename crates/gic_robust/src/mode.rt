//! The report of the mode.
ghost use Rattle.gic_base.specs.Writes.{Writes};
ghost use Rattle.gic_criteria.specs.Ranges.{IsWithinRobust};
ghost use Rattle.gic_stand.specs.Needs.{Solved};
ghost use Rattle.gic_stand.specs.Serves.{Serves, shown};
ghost use Rattle.gic_robust.specs.Made.{IsMadeFor};
ghost use Rattle.gic_robust.specs.RightRobust.{robust_text, IsRightRobust};
ghost use Rattle.gic_robust.specs.Steps.{most_steps};

use crate::rows::fill_rows;
use crate::text::write_robust;
use crate::workspace::Workspace;
use gic_base::{Sink, WriteFailed};
use gic_case::Case;
use gic_criteria::RobustCriteria;
use gic_inputs::Inputs;
use gic_stand::{ReportFault, ended};
use gic_text::LineBuilder;
use gic_worst::{ScreenRows, setting_of};

/// Writes the report of these rows.
fn write_rows<S: Sink>(
    case: &Case,
    asked: &RobustCriteria,
    rows: &ScreenRows,
    line: &mut LineBuilder,
    out: &mut S,
) -> Result<(), WriteFailed>
    ensures { Writes S.written S.faults out.old out.new (robust_text case.now asked.now rows.now) result }
{
    let setting = setting_of(&asked.criteria);
    write_robust(
        case.transformers(),
        &setting,
        asked.tolerance,
        rows.rows(),
        line,
        out,
    )
}

/// Writes the current of each transformer of the case for the worst orientation of the field of the event that is asked
/// for, whatever resistances its grounds have within their tolerances, with all rows of the switchings in force, where the
/// network with its grounds at their greatest can be solved. Takes no memory.
pub fn robust<S: Sink>(
    inputs: &Inputs<RobustCriteria>,
    workspace: &mut Workspace,
    out: &mut S,
) -> Result<(), ReportFault>
    requires ranges { IsWithinRobust inputs.now.question }
    requires workspace { IsMadeFor inputs.now workspace.old }
    ensures { Serves Solved inputs.now.case (most_steps inputs.now) (IsRightRobust inputs.now)
        (shown S.written S.faults out.old) (shown S.written S.faults out.new) result }
{
    let case = &inputs.case;
    workspace.varied.look(case)?;
    workspace
        .varied
        .refer(case, &workspace.volts.north, &workspace.volts.east);
    let setting = setting_of(&inputs.question.criteria);
    fill_rows(
        case,
        &workspace.volts,
        setting.threshold,
        &mut workspace.varied,
        &mut workspace.rows,
    );
    let writing = write_rows(
        case,
        &inputs.question,
        &workspace.rows,
        &mut workspace.line,
        out,
    );
    ended(writing)
}
