//! The rows of the steps of a storm, one after another.
ghost use Rattle.std.specs.Prelude.{◌≡◌, ◌<◌, length};
ghost use Rattle.gic_criteria.specs.Ranges.{IsWithinCriteria};
ghost use Rattle.gic_storm.specs.Steps.{steps_in};
ghost use Rattle.gic_course.specs.CourseOf.{CanShow};
ghost use Rattle.gic_course.specs.Steps.{IsStepOf};
ghost use Rattle.gic_series.specs.Rows.{series_row_of};
ghost use Rattle.gic_series.specs.RightSeries.{IsRightSeriesRow, AreRightRows};

use crate::rows::{SeriesRow, SeriesRows};
use gic_course::Course;
use gic_inputs::StormInputs;
use gic_switch::time_of_step;

/// The row of a step, counted from 1, of the transformer at this place.
fn row_of_step(
    inputs: &StormInputs,
    transformer: u16,
    number: u32,
    course: &mut Course,
) -> SeriesRow
    requires ranges { IsWithinCriteria inputs.now.question }
    requires transformer { transformer < length inputs.now.case.transformers }
    requires step { IsStepOf inputs.now number }
    requires shows { CanShow inputs.now course.old }
    ensures right { IsRightSeriesRow inputs.now transformer number (series_row_of result) }
    ensures shows { CanShow inputs.now course.new }
{
    let width = inputs.question.width;
    let effective = course.effective_at(inputs, number, transformer, width);
    SeriesRow {
        number,
        time: time_of_step(&inputs.storm, number),
        effective,
    }
}

/// Sets the row of each step, in order. Takes no memory.
pub(crate) fn fill_rows(
    inputs: &StormInputs,
    transformer: u16,
    course: &mut Course,
    rows: &mut SeriesRows,
)
    requires ranges { IsWithinCriteria inputs.now.question }
    requires transformer { transformer < length inputs.now.case.transformers }
    requires shows { CanShow inputs.now course.old }
    requires one_each { length rows.old ≡ length (steps_in inputs.now.storm.rows) }
    ensures { AreRightRows inputs.now transformer rows.new }
{
    for place in 0..inputs.storm.steps() {
        let row = row_of_step(inputs, transformer, place + 1, course);
        rows.set(place, row);
    }
}
