//! The report of the mode.
ghost use Rattle.gic_base.specs.Writes.{Writes};
ghost use Rattle.gic_text.specs.Lines.{lines_text};
ghost use Rattle.gic_volts.specs.VoltsText.{volts_report};
ghost use Rattle.gic_stand.specs.Needs.{Nothing};
ghost use Rattle.gic_stand.specs.Serves.{Serves, shown};
ghost use Rattle.gic_stand.specs.Standing.{steps_of};
ghost use Rattle.gic_volts.specs.Made.{IsMadeFor};
ghost use Rattle.gic_volts.specs.RightVolts.{IsRightVolts};

use crate::text::write_volts;
use crate::workspace::Workspace;
use gic_base::{Sink, WriteFailed};
use gic_case::Case;
use gic_criteria::UniformField;
use gic_inputs::Inputs;
use gic_stand::{ReportFault, ended};
use gic_text::LineBuilder;

/// Writes the report of these voltages.
fn write_lines<S: Sink>(
    case: &Case,
    field: &UniformField,
    nanovolts: &[i64],
    line: &mut LineBuilder,
    out: &mut S,
) -> Result<(), WriteFailed>
    ensures { Writes S.written S.faults out.old out.new
        (lines_text (volts_report case.now.lines field.now.north field.now.east nanovolts.now)) result }
{
    write_volts(case.lines(), field.north, field.east, nanovolts, line, out)
}

/// Writes the voltage of each line in nanovolts, in the field that is asked for. Takes no memory.
pub fn volts<S: Sink>(
    inputs: &Inputs<UniformField>,
    workspace: &mut Workspace,
    out: &mut S,
) -> Result<(), ReportFault>
    requires { IsMadeFor inputs.now workspace.old }
    ensures { Serves Nothing inputs.now.case (steps_of inputs.now) (IsRightVolts inputs.now)
        (shown S.written S.faults out.old) (shown S.written S.faults out.new) result }
{
    let writing = write_lines(
        &inputs.case,
        &inputs.question,
        &workspace.nanovolts,
        &mut workspace.line,
        out,
    );
    ended(writing)
}
