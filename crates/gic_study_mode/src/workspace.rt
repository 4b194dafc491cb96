//! What a study makes before it looks at any step.
ghost use Rattle.std.specs.Prelude.{◌≡◌, List, map, length, IfOk};
ghost use Rattle.gic_monitor.specs.OnBoard.{monitors_of};
ghost use Rattle.gic_inputs.specs.Inputs.{IsStormOf};
ghost use Rattle.gic_study_mode.specs.Made.{IsMadeFor};
ghost use Rattle.gic_study_mode.specs.Roster.{roster_of};
ghost use Rattle.gic_view.specs.View.{View};

use crate::asked::{asked_fields, asked_step};
use crate::roster::roster_of;
use crate::views::{Views, make_views};
use gic_base::OutOfMemory;
use gic_course::Course;
use gic_induce::Fields;
use gic_inputs::StormInputs;
use gic_monitor::{Board, Monitor, Roster};
use gic_text::LineBuilder;
use std::alloc::Global;

/// What a study writes to, and what its monitors begin with.
pub struct StepsWorkspace {
    pub(crate) line: LineBuilder,
    pub(crate) course: Course,
    pub(crate) views: Views,
    /// The fields of the step that is asked for, if there is one.
    pub(crate) fields: Option<Fields>,
    pub(crate) roster: Roster,
}

impl Drop for StepsWorkspace {
    /// Lets go of everything, in one step for whoever drops it.
    fn drop(self) {
        let StepsWorkspace {
            line: _line,
            course: _course,
            views: _views,
            fields: _fields,
            roster: _roster,
        } = self;
    }
}

/// The workspace for the steps of this storm, with the one that is asked for in detail.
fn make_steps_workspace(
    alloc: Global,
    inputs: &StormInputs,
    detail: Option<u32>,
) -> Result<StepsWorkspace, OutOfMemory>
    requires { IsStormOf inputs.now }
    ensures { IfOk result (IsMadeFor inputs.now detail) }
{
    let line = LineBuilder::new(alloc)?;
    let asked = asked_step(inputs, detail);
    let fields = asked_fields(alloc, inputs, asked)?;
    let roster = roster_of(alloc, &inputs.case, inputs.question.event)?;
    let course = Course::new(alloc, inputs)?;
    let views = make_views(alloc, inputs, &course)?;
    Ok(StepsWorkspace {
        line,
        course,
        views,
        fields,
        roster,
    })
}

/// All that a study takes memory for before it looks at any step. Its monitors have begun.
pub struct Workspace {
    pub(crate) steps: StepsWorkspace,
    pub(crate) board: Board,
}

impl Drop for Workspace {
    /// Lets go of everything, in one step for whoever drops it.
    fn drop(self) {
        let Workspace {
            steps: _steps,
            board: _board,
        } = self;
    }
}

/// The workspace for a study of this storm, with the step that is asked for in detail. The monitors begin, each once,
/// in order.
pub fn make_workspace(
    alloc: Global,
    inputs: &StormInputs,
    detail: Option<u32>,
    monitors: Vec<Box<dyn Monitor>>,
) -> Result<Workspace, OutOfMemory>
    requires { IsStormOf inputs.now }
    ensures made { IfOk result (λ workspace. IsMadeFor inputs.now detail workspace.steps) }
    ensures count { IfOk result (λ workspace. length (monitors_of workspace.board) ≡ length monitors.items) }
    ensures plans { IfOk result (λ workspace. (views : List View) →
        map (λ m. (⟦<dyn Monitor as Monitor>⟧ m.vtable).outlook m.value views) (monitors_of workspace.board)
        ≡ map (λ m. plan m (roster_of inputs.now.case inputs.now.question.event) views) monitors.items) }
{
    let steps = make_steps_workspace(alloc, inputs, detail)?;
    let mut board = Board::new(monitors);
    board.begin(&steps.roster)?;
    Ok(Workspace { steps, board })
}
