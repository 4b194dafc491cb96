//! The modes.
ghost use Rattle.std.specs.Prelude.{◌≡◌, [], ◌∷◌, ◌<◌, ◌≤◌, None, length, map, IfOk, IfErr, is_ok};
ghost use Rattle.std.specs.Prelude as std;
ghost use Rattle.gic_criteria.specs.Ranges.{IsWithinCriteria, IsWithinRobust};
ghost use Rattle.gic_course.specs.Steps.{storm_steps};
ghost use Rattle.gic_monitor.specs.OnBoard.{monitors_of};
ghost use Rattle.gic_monitor.specs.RosterView.{RosterView};
ghost use Rattle.gic_recheck.specs.Told.{IsFaultOf};
ghost use Rattle.gic_stand.specs.Needs.{Nothing, Solved};
ghost use Rattle.gic_stand.specs.Serves.{shown};
ghost use Rattle.gic_stand.specs.Standing.{standing_of};
ghost use Rattle.gic_study_mode.specs.Roster.{roster_of};
ghost use Rattle.gic_view.specs.View.{View};
ghost use Rattle.gic_ask.specs.Within.{IsAskedWithinRanges};
ghost use Rattle.gic_ask.specs.declared.request.Asked.TheVariants.{Study, Recheck};
ghost use Rattle.gic_make.specs.MadeCase.{made_case};
ghost use Rattle.gic_make.specs.RightMake.{IsRightMake};
ghost use Rattle.gic_robust.specs.RightRobust.{IsRightRobust};
ghost use Rattle.gic_robust.specs.Steps.{most_steps};
ghost use Rattle.gic_series.specs.RightSeries.{IsRightSeries};
ghost use Rattle.gic_study.specs.Concluding.{Concludes};
ghost use Rattle.gic_study.specs.ModeCalls.{ServesMade, TellsMaking, without_workspace};
ghost use Rattle.gic_study.specs.Modes.{Plans};
ghost use Rattle.gic_study.specs.declared.fault.Fault.TheVariants.{Memory};
ghost use Rattle.gic_study.specs.declared.fault.Wanting.TheVariants.{Workspace};
ghost use Rattle.gic_robust.specs.Made as robust;
ghost use Rattle.gic_make.specs.Made as make;
ghost use Rattle.gic_series.specs.Made as series;
ghost use Rattle.gic_study_mode.specs.Made as study;
ghost use Rattle.gic_recheck.specs.Made as recheck;

use crate::fault::{Fault, rechecked, studied, told};
use crate::networks::network_report;
use gic_ask::{Asked, RecheckAsked, SeriesAsked, StudyAsked};
use gic_base::{OutOfMemory, Sink};
use gic_criteria::RobustCriteria;
use gic_inputs::Inputs;
use gic_make::{LEAST_SIZE, MOST_SIZE, make};
use gic_monitor::Monitor;
use gic_recheck::{WorkspaceFault, recheck};
use gic_robust::robust;
use gic_series::series;
use gic_stand::ReportFault;
use gic_study_mode::study;
use gic_words::MakeRequest;
use std::alloc::Global;

/// The report of `robust` in its workspace, where that was made.
fn robust_report<S: Sink>(
    inputs: &Inputs<RobustCriteria>,
    made: Result<gic_robust::Workspace, OutOfMemory>,
    out: &mut S,
) -> Result<Result<(), ReportFault>, OutOfMemory>
    requires ranges { IsWithinRobust inputs.now.question }
    requires made { IfOk made (robust.IsMadeFor inputs.now) }
    ensures ends { ServesMade Solved inputs.now.case (most_steps inputs.now) (IsRightRobust inputs.now)
        (shown S.written S.faults out.old) (shown S.written S.faults out.new) result }
    ensures memory { is_ok result ≡ is_ok made }
{
    match made {
        Ok(mut workspace) => Ok(robust(inputs, &mut workspace, out)),
        Err(e) => Err(e),
    }
}

/// The report of a made case in its workspace, where that was made.
fn make_report<S: Sink>(
    request: MakeRequest,
    made: Result<gic_make::Workspace, OutOfMemory>,
    out: &mut S,
) -> Result<Result<(), ReportFault>, OutOfMemory>
    requires least { LEAST_SIZE ≤ request.size }
    requires most { request.size ≤ MOST_SIZE }
    requires made { IfOk made (make.IsMadeFor request.seed request.size) }
    ensures ends { ServesMade Nothing (made_case request.seed request.size) (standing_of (made_case request.seed request.size) None ∷ [])
        (IsRightMake request.seed request.size)
        (shown S.written S.faults out.old) (shown S.written S.faults out.new) result }
    ensures memory { is_ok result ≡ is_ok made }
{
    match made {
        Ok(mut workspace) => Ok(make(request.seed, request.size, &mut workspace, out)),
        Err(e) => Err(e),
    }
}

/// The report of a transformer's course in its workspace, where that was made.
fn series_report<S: Sink>(
    asked: &SeriesAsked,
    made: Result<gic_series::Workspace, OutOfMemory>,
    out: &mut S,
) -> Result<Result<(), ReportFault>, OutOfMemory>
    requires ranges { IsWithinCriteria asked.now.inputs.question }
    requires transformer { asked.now.transformer < length asked.now.inputs.case.transformers }
    requires made { IfOk made (series.IsMadeFor asked.now.inputs) }
    ensures ends { ServesMade Solved asked.now.inputs.case (storm_steps asked.now.inputs) (IsRightSeries asked.now.inputs asked.now.transformer)
        (shown S.written S.faults out.old) (shown S.written S.faults out.new) result }
    ensures memory { is_ok result ≡ is_ok made }
{
    match made {
        Ok(mut workspace) => Ok(series(&asked.inputs, asked.transformer, &mut workspace, out)),
        Err(e) => Err(e),
    }
}

/// Writes the report of a study in its workspace, where that was made. The monitors there see the steps.
fn serve_study<S: Sink>(
    alloc: Global,
    asked: &StudyAsked,
    made: Result<gic_study_mode::Workspace, OutOfMemory>,
    out: &mut S,
) -> Result<(), Fault>
    requires ranges { IsWithinCriteria asked.now.inputs.question }
    requires made { IfOk made (λ workspace. study.IsMadeFor asked.now.inputs asked.now.detail workspace.steps) }
    // With the plans of the monitors there, which have begun.
    ensures ends { (plans : Plans) →
        IfOk made (λ workspace. (roster : RosterView) (views : std.List View) → length (plans roster views) ≡ length (monitors_of workspace.board)) →
        IfOk made (λ workspace. (views : std.List View) →
        map (λ m. (⟦<dyn Monitor as Monitor>⟧ m.vtable).outlook m.value views) (monitors_of workspace.board)
        ≡ plans (roster_of asked.now.inputs.case asked.now.inputs.question.event) views) →
        Concludes plans (Study asked.now) (shown S.written S.faults out.old) (shown S.written S.faults out.new) result }
    ensures memory { TellsMaking (λ e. Memory Workspace) made result }
{
    let mut workspace = made?;
    studied(study(alloc, &asked.inputs, asked.detail, &mut workspace, out))
}

/// Writes the report of a certificate's check in its workspace, where that was made.
fn serve_recheck<S: Sink>(
    asked: &RecheckAsked,
    made: Result<gic_recheck::Workspace, WorkspaceFault>,
    out: &mut S,
) -> Result<(), Fault>
    requires made { IfOk made (recheck.IsMadeFor asked.now.inputs) }
    requires read { IfOk made (recheck.IsReadFrom asked.now.inputs asked.now.certificate) }
    requires refused { IfErr made (IsFaultOf asked.now.inputs.case
        (standing_of asked.now.inputs.case asked.now.inputs.switchings) asked.now.certificate) }
    ensures ends { (plans : Plans) → Concludes plans (Recheck asked.now)
        (shown S.written S.faults out.old) (shown S.written S.faults out.new) result }
    ensures memory { TellsMaking without_workspace made result }
{
    let mut workspace = made?;
    rechecked(recheck(&asked.inputs, &mut workspace, out))
}

/// Makes the workspace of what is asked for, and writes the report. The monitors see the steps of a study.
pub(crate) fn serve<S: Sink>(
    alloc: Global,
    asked: Asked,
    monitors: Vec<Box<dyn Monitor>>,
    out: &mut S,
) -> Result<(), Fault>
    requires { IsAskedWithinRanges asked }
    ensures { Concludes (λ roster views. map (λ m. plan m roster views) monitors.items) asked
        (shown S.written S.faults out.old) (shown S.written S.faults out.new) result }
{
    match asked {
        Asked::Network(mode, inputs) => told(network_report(alloc, mode, inputs, out)),
        Asked::Study(given) => {
            let made = gic_study_mode::make_workspace(alloc, &given.inputs, given.detail, monitors);
            serve_study(alloc, &given, made, out)
        }
        Asked::Make(request) => {
            let made = gic_make::make_workspace(alloc, request.seed, request.size);
            told(make_report(request, made, out))
        }
        Asked::Recheck(given) => {
            let certificate = given.certificate.as_slice();
            let made = gic_recheck::make_workspace(alloc, &given.inputs, certificate);
            serve_recheck(&given, made, out)
        }
        Asked::Series(given) => {
            let made = gic_series::make_workspace(alloc, &given.inputs);
            told(series_report(&given, made, out))
        }
        Asked::Robust(inputs) => {
            let made = gic_robust::make_workspace(alloc, &inputs);
            told(robust_report(&inputs, made, out))
        }
    }
}
