//! The report of the mode.
ghost use Rattle.gic_base.specs.Writes.{Writes};
ghost use Rattle.gic_criteria.specs.Ranges.{IsWithinCriteria};
ghost use Rattle.gic_stand.specs.Needs.{Solved};
ghost use Rattle.gic_stand.specs.Serves.{Serves, shown};
ghost use Rattle.gic_stand.specs.Standing.{steps_of};
ghost use Rattle.gic_outage.specs.Made.{IsMadeFor};
ghost use Rattle.gic_outage.specs.OutageText.{outage_text};
ghost use Rattle.gic_outage.specs.RightOutage.{IsRightOutage};

use crate::outcome::OutageOutcome;
use crate::raising::Greatest;
use crate::run::take_items;
use crate::text::write_outage;
use crate::workspace::Workspace;
use gic_base::{Sink, WriteFailed};
use gic_criteria::Criteria;
use gic_inputs::Inputs;
use gic_stand::{ReportFault, ended};
use gic_text::LineBuilder;
use gic_uniform::expect_solvable;
use gic_worst::setting_of;

/// Writes the report of these outcomes and greatest intervals.
fn write_report<S: Sink>(
    inputs: &Inputs<Criteria>,
    outcomes: &[OutageOutcome],
    greatest: &Greatest,
    line: &mut LineBuilder,
    out: &mut S,
) -> Result<(), WriteFailed>
    ensures { Writes S.written S.faults out.old out.new (outage_text inputs.now.case inputs.now.question outcomes.now greatest.now) result }
{
    let setting = setting_of(&inputs.question);
    write_outage(
        &inputs.case,
        &setting,
        outcomes,
        greatest.intervals(),
        line,
        out,
    )
}

/// Takes each line and each transformer of the case out of its network in turn, with all rows of the switchings in force,
/// screens the network without it for the worst orientation of the field of the event that is asked for, and writes how
/// each outage ends and the greatest worst interval of each transformer over them, where the network with all its items can
/// be solved. Takes no memory.
pub fn outage<S: Sink>(
    inputs: &Inputs<Criteria>,
    workspace: &mut Workspace,
    out: &mut S,
) -> Result<(), ReportFault>
    requires ranges { IsWithinCriteria inputs.now.question }
    requires workspace { IsMadeFor inputs.now workspace.old }
    ensures { Serves Solved inputs.now.case (steps_of inputs.now) (IsRightOutage inputs.now)
        (shown S.written S.faults out.old) (shown S.written S.faults out.new) result }
{
    let solving = &mut workspace.screening.solving;
    expect_solvable(&inputs.case, &workspace.net, solving)?;
    workspace.intact.copy_from(&solving.vector);
    take_items(inputs, workspace);
    let writing = write_report(
        inputs,
        &workspace.outcomes,
        &workspace.greatest,
        &mut workspace.line,
        out,
    );
    ended(writing)
}
