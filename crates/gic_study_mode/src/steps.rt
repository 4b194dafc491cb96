//! The steps of a storm, seen one after another.
ghost use Rattle.std.specs.Prelude.{◌≡◌, [], map, length};
ghost use Rattle.gic_effective.specs.ViewLengths.{HasViewLengths};
ghost use Rattle.gic_view.specs.Peaks.{IsPeaksOf};
ghost use Rattle.gic_criteria.specs.Ranges.{IsWithinCriteria};
ghost use Rattle.gic_storm.specs.Steps.{steps_in};
ghost use Rattle.gic_course.specs.CourseOf.{CanShow};
ghost use Rattle.gic_course.specs.Steps.{IsStepOf};
ghost use Rattle.gic_monitor.specs.OnBoard.{monitors_of};
ghost use Rattle.gic_study_mode.specs.Seen.{IsSpaceForViews, IsSeen, HasShown, HasSeen, is_asked};

use crate::views::Views;
use gic_course::Course;
use gic_inputs::StormInputs;
use gic_monitor::{Board, Monitor};
use gic_view::{Peaks, StepView};

/// Whether the step is the asked one.
fn is_asked(asked: Option<u32>, number: u32) -> bool
    ensures { result ≡ is_asked asked number }
{
    match asked {
        Some(asked) => asked == number,
        None => false,
    }
}

/// Shows a step, and has the peaks and the monitors see its view.
fn see_step(
    inputs: &StormInputs,
    number: u32,
    course: &mut Course,
    view: &mut StepView,
    peaks: &mut Peaks,
    board: &mut Board,
)
    requires ranges { IsWithinCriteria inputs.now.question }
    requires shows { CanShow inputs.now course.old }
    requires step { IsStepOf inputs.now number }
    requires view { HasViewLengths inputs.now.case view.old }
    requires peaks { HasViewLengths inputs.now.case peaks.old }
    ensures shows { CanShow inputs.now course.new }
    ensures seen { IsSeen inputs.now number view.new
        (λ rest. map (λ m. (⟦<dyn Monitor as Monitor>⟧ m.vtable).outlook m.value rest) (monitors_of board.old))
        (λ rest. map (λ m. (⟦<dyn Monitor as Monitor>⟧ m.vtable).outlook m.value rest) (monitors_of board.new))
        peaks.old peaks.new }
{
    let width = inputs.question.width;
    course.show(inputs, number, width, view);
    peaks.see(view);
    board.see(view);
}

/// Shows a step. The view of the asked one stays.
fn see_next(
    inputs: &StormInputs,
    asked: Option<u32>,
    number: u32,
    course: &mut Course,
    views: &mut Views,
    board: &mut Board,
)
    requires ranges { IsWithinCriteria inputs.now.question }
    requires shows { CanShow inputs.now course.old }
    requires step { IsStepOf inputs.now number }
    requires space { IsSpaceForViews inputs.now.case views.old }
    ensures shows { CanShow inputs.now course.new }
    ensures shown { HasShown inputs.now asked number
        (λ rest. map (λ m. (⟦<dyn Monitor as Monitor>⟧ m.vtable).outlook m.value rest) (monitors_of board.old))
        (λ rest. map (λ m. (⟦<dyn Monitor as Monitor>⟧ m.vtable).outlook m.value rest) (monitors_of board.new))
        views.old views.new }
{
    if is_asked(asked, number) {
        see_step(
            inputs,
            number,
            course,
            &mut views.asked,
            &mut views.peaks,
            board,
        );
    } else {
        see_step(
            inputs,
            number,
            course,
            &mut views.other,
            &mut views.peaks,
            board,
        );
    }
}

/// Shows each step of the storm, in order, to the peaks and to the monitors. The view of the asked step stays. Takes no
/// memory.
pub(crate) fn see_steps(
    inputs: &StormInputs,
    asked: Option<u32>,
    course: &mut Course,
    views: &mut Views,
    board: &mut Board,
)
    requires ranges { IsWithinCriteria inputs.now.question }
    requires shows { CanShow inputs.now course.old }
    requires space { IsSpaceForViews inputs.now.case views.old }
    requires of_none { IsPeaksOf [] views.old.peaks }
    ensures seen { HasSeen inputs.now asked (length (steps_in inputs.now.storm.rows))
        (λ rest. map (λ m. (⟦<dyn Monitor as Monitor>⟧ m.vtable).outlook m.value rest) (monitors_of board.old))
        (λ rest. map (λ m. (⟦<dyn Monitor as Monitor>⟧ m.vtable).outlook m.value rest) (monitors_of board.new))
        views.new }
{
    for place in 0..inputs.storm.steps() {
        see_next(inputs, asked, place + 1, course, views, board);
    }
}
