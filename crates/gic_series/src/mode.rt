//! The report of the mode.
ghost use Rattle.std.specs.Prelude.{◌≡◌, ◌<◌, length};
ghost use Rattle.gic_base.specs.Writes.{Writes};
ghost use Rattle.gic_criteria.specs.Ranges.{IsWithinCriteria};
ghost use Rattle.gic_stand.specs.Needs.{Solved};
ghost use Rattle.gic_stand.specs.Serves.{Serves, shown};
ghost use Rattle.gic_storm.specs.Steps.{steps_in};
ghost use Rattle.gic_course.specs.Steps.{storm_steps};
ghost use Rattle.gic_series.specs.Made.{IsMadeFor};
ghost use Rattle.gic_series.specs.RightSeries.{series_text, IsRightSeries};

use crate::rows::SeriesRows;
use crate::steps::fill_rows;
use crate::text::write_series;
use crate::workspace::Workspace;
use gic_base::{Sink, WriteFailed};
use gic_inputs::StormInputs;
use gic_stand::{ReportFault, ended};
use gic_text::LineBuilder;

/// Writes the report of these rows, one for each step.
fn write_rows<S: Sink>(
    inputs: &StormInputs,
    transformer: u16,
    rows: &SeriesRows,
    line: &mut LineBuilder,
    out: &mut S,
) -> Result<(), WriteFailed>
    requires transformer { transformer < length inputs.now.case.transformers }
    requires one_each { length rows.now ≡ length (steps_in inputs.now.storm.rows) }
    ensures { Writes S.written S.faults out.old out.new
        (series_text inputs.now.case inputs.now.question.width transformer rows.now) result }
{
    // A storm has few steps, so there are few rows.
    let _steps = inputs.storm.steps();
    let shown = &inputs.case.transformers()[transformer as usize];
    write_series(inputs.question.width, &shown.name, rows.rows(), line, out)
}

/// Writes the signed effective current, in milliamperes per phase, of the transformer at this place of the case at each
/// step of the storm, where the network can be solved at each step. Takes no memory.
pub fn series<S: Sink>(
    inputs: &StormInputs,
    transformer: u16,
    workspace: &mut Workspace,
    out: &mut S,
) -> Result<(), ReportFault>
    requires ranges { IsWithinCriteria inputs.now.question }
    requires transformer { transformer < length inputs.now.case.transformers }
    requires workspace { IsMadeFor inputs.now workspace.old }
    ensures { Serves Solved inputs.now.case (storm_steps inputs.now)
        (IsRightSeries inputs.now transformer)
        (shown S.written S.faults out.old) (shown S.written S.faults out.new) result }
{
    workspace.course.expect_solvable(inputs)?;
    fill_rows(
        inputs,
        transformer,
        &mut workspace.course,
        &mut workspace.rows,
    );
    let writing = write_rows(
        inputs,
        transformer,
        &workspace.rows,
        &mut workspace.line,
        out,
    );
    ended(writing)
}
