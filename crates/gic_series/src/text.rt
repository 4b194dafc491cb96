//! The report of one transformer's effective current at each step of a storm.
ghost use Rattle.std.specs.Prelude.{◌≤◌, length, map};
ghost use Rattle.gic_base.specs.Writes.{Writes};
ghost use Rattle.gic_base.specs.declared.limits.TheConstants.{MOST_ROWS};
ghost use Rattle.gic_text.specs.Lines.{line_text, lines_text};
ghost use Rattle.gic_series.specs.Rows.{series_row_of};
ghost use Rattle.gic_series.specs.SeriesText.{series_setting_line, series_step_line, series_report};

use crate::rows::SeriesRow;
use gic_base::{Name, Sink, WriteFailed, write_all};
use gic_report::{add_ends, write_word};
use gic_text::LineBuilder;

/// Writes the line of what is asked: the width of intervals in mA, the transformer's name, and how many steps there are.
#[tactic(auto, using(gic_text::proofs::Sizes::line_space))]
fn write_setting<S: Sink>(
    width: u32,
    name: &Name,
    steps: u32,
    line: &mut LineBuilder,
    out: &mut S,
) -> Result<(), WriteFailed>
    ensures { Writes S.written S.faults out.old out.new (line_text (series_setting_line width name.now steps)) result }
{
    line.start();
    line.word(b"width");
    line.number(i128::from(width));
    line.word(b"transformer");
    line.word(name.as_bytes());
    line.word(b"steps");
    line.number(i128::from(steps));
    write_all(out, line.finish())
}

/// Writes the line of a step.
#[tactic(auto, using(gic_text::proofs::Sizes::line_space))]
fn write_step<S: Sink>(
    row: &SeriesRow,
    line: &mut LineBuilder,
    out: &mut S,
) -> Result<(), WriteFailed>
    ensures { Writes S.written S.faults out.old out.new (line_text (series_step_line (series_row_of row.now))) result }
{
    line.start();
    line.word(b"step");
    line.number(i128::from(row.number));
    line.word(b"time");
    line.number(i128::from(row.time));
    add_ends(row.effective, line);
    write_all(out, line.finish())
}

/// Writes a line for each step.
fn write_steps<S: Sink>(
    rows: &[SeriesRow],
    line: &mut LineBuilder,
    out: &mut S,
) -> Result<(), WriteFailed>
    ensures { Writes S.written S.faults out.old out.new (lines_text (map series_step_line (map series_row_of rows.now))) result }
{
    for row in rows {
        write_step(row, line, out)?;
    }
    Ok(())
}

/// Writes the whole report.
pub(crate) fn write_series<S: Sink>(
    width: u32,
    name: &Name,
    rows: &[SeriesRow],
    line: &mut LineBuilder,
    out: &mut S,
) -> Result<(), WriteFailed>
    requires { length rows.now ≤ MOST_ROWS }
    ensures { Writes S.written S.faults out.old out.new (lines_text (series_report width name.now (map series_row_of rows.now))) result }
{
    write_word(b"series", line, out)?;
    write_setting(width, name, rows.len() as u32, line, out)?;
    write_steps(rows, line, out)?;
    write_word(b"end", line, out)
}
