//! The report of the mode.
ghost use Rattle.std.specs.Prelude.{All};
ghost use Rattle.gic_base.specs.Writes.{Writes};
ghost use Rattle.gic_view.specs.Absolute.{HasAbsolute};
ghost use Rattle.gic_criteria.specs.Ranges.{IsWithinRanges};
ghost use Rattle.gic_stand.specs.Needs.{Solved};
ghost use Rattle.gic_stand.specs.Serves.{Serves, shown};
ghost use Rattle.gic_stand.specs.Standing.{steps_of};
ghost use Rattle.gic_field.specs.Made.{IsMadeFor};
ghost use Rattle.gic_field.specs.RightField.{field_text, IsRightField};

use crate::text::{Setting, write_field};
use crate::workspace::Workspace;
use gic_base::{Sink, WriteFailed};
use gic_case::Case;
use gic_criteria::Question;
use gic_inputs::Inputs;
use gic_stand::{ReportFault, ended};
use gic_text::LineBuilder;
use gic_uniform::{expect_solvable, solve_view};
use gic_view::StepView;

/// Writes the report of this view.
fn write_view<S: Sink>(
    case: &Case,
    question: &Question,
    view: &StepView,
    line: &mut LineBuilder,
    out: &mut S,
) -> Result<(), WriteFailed>
    requires { All HasAbsolute view.now.effective }
    ensures { Writes S.written S.faults out.old out.new (field_text case.now question.now view.now) result }
{
    let setting = Setting {
        north: question.field.north,
        east: question.field.east,
        width: question.criteria.width,
        threshold: question.criteria.event.threshold(),
    };
    write_field(case, &setting, view, line, out)
}

/// Writes what the case shows in the field that is asked for, with all rows of the switchings in force, where its network
/// can be solved. Takes no memory.
pub fn field<S: Sink>(
    inputs: &Inputs<Question>,
    workspace: &mut Workspace,
    out: &mut S,
) -> Result<(), ReportFault>
    requires ranges { IsWithinRanges inputs.now.question }
    requires workspace { IsMadeFor inputs.now workspace.old }
    ensures { Serves Solved inputs.now.case (steps_of inputs.now) (IsRightField inputs.now)
        (shown S.written S.faults out.old) (shown S.written S.faults out.new) result }
{
    let case = &inputs.case;
    let question = &inputs.question;
    expect_solvable(case, &workspace.net, &mut workspace.solving)?;
    solve_view(
        case,
        &workspace.net,
        &workspace.volts,
        question.criteria.width,
        &mut workspace.solving,
        &mut workspace.view,
    );
    let writing = write_view(case, question, &workspace.view, &mut workspace.line, out);
    ended(writing)
}
