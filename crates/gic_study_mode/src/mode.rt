//! The report of the mode.
ghost use Rattle.std.specs.Prelude.{◌≡◌, length, map};
ghost use Rattle.gic_criteria.specs.Ranges.{IsWithinCriteria};
ghost use Rattle.gic_stand.specs.Serves.{shown};
ghost use Rattle.gic_monitor.specs.OnBoard.{monitors_of};
ghost use Rattle.gic_study_mode.specs.Made.{IsMadeFor};
ghost use Rattle.gic_study_mode.specs.RightStudy.{IsRightStudy};
ghost use Rattle.gic_study_mode.specs.ServesStudy.{ServesStudy, written_so};

use crate::asked::asked_step;
use crate::fault::StudyFault;
use crate::steps::see_steps;
use crate::texts::texts_of;
use crate::workspace::{StepsWorkspace, Workspace};
use crate::writing::write_seen;
use gic_base::{Sink, WriteFailed};
use gic_inputs::StormInputs;
use gic_monitor::{Board, Monitor};
use gic_stand::ReportFault;
use std::alloc::Global;

/// How the writing of a study ended.
fn written_so(writing: Result<(), WriteFailed>) -> Result<(), StudyFault>
    ensures { result ≡ written_so writing }
{
    match writing {
        Ok(()) => Ok(()),
        Err(_) => Err(StudyFault::Report(ReportFault::CannotWrite)),
    }
}

/// Shows the steps to monitors that have begun, and writes the report, where the network can be solved at each step. The
/// texts of the monitors alone take memory.
fn study_steps<S: Sink>(
    alloc: Global,
    inputs: &StormInputs,
    detail: Option<u32>,
    workspace: &mut StepsWorkspace,
    board: &mut Board,
    out: &mut S,
) -> Result<(), StudyFault>
    requires ranges { IsWithinCriteria inputs.now.question }
    requires workspace { IsMadeFor inputs.now detail workspace.old }
    ensures { ServesStudy inputs.now (length (monitors_of board.old))
        (IsRightStudy inputs.now detail (λ roster views.
        map (λ m. (⟦<dyn Monitor as Monitor>⟧ m.vtable).outlook m.value views) (monitors_of board.old)))
        (shown S.written S.faults out.old) (shown S.written S.faults out.new) result }
{
    let asked = asked_step(inputs, detail);
    workspace.course.expect_solvable(inputs)?;
    see_steps(
        inputs,
        asked,
        &mut workspace.course,
        &mut workspace.views,
        board,
    );
    let texts = texts_of(alloc, board)?;
    let writing = write_seen(
        inputs,
        &workspace.fields,
        &workspace.views,
        texts.as_slice(),
        &mut workspace.line,
        out,
    );
    written_so(writing)
}

/// Writes the peaks of all intervals over the steps of the storm, a step in detail where one is asked for that the storm
/// has, and the text of each monitor, where the network can be solved at each step. The steps are shown in order, each
/// once, to all monitors, which have begun. Only their texts, which are printed behind the last step, take memory; nothing
/// is written before.
pub fn study<S: Sink>(
    alloc: Global,
    inputs: &StormInputs,
    detail: Option<u32>,
    workspace: &mut Workspace,
    out: &mut S,
) -> Result<(), StudyFault>
    requires ranges { IsWithinCriteria inputs.now.question }
    requires workspace { IsMadeFor inputs.now detail workspace.old.steps }
    ensures { ServesStudy inputs.now (length (monitors_of workspace.old.board))
        (IsRightStudy inputs.now detail (λ roster views.
        map (λ m. (⟦<dyn Monitor as Monitor>⟧ m.vtable).outlook m.value views) (monitors_of workspace.old.board)))
        (shown S.written S.faults out.old) (shown S.written S.faults out.new) result }
{
    study_steps(
        alloc,
        inputs,
        detail,
        &mut workspace.steps,
        &mut workspace.board,
        out,
    )
}
