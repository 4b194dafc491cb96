//! The report of the currents for the worst orientation of an event's field.
ghost use Rattle.std.specs.Prelude.{◌≡◌, map};
ghost use Rattle.gic_base.specs.Writes.{Writes};
ghost use Rattle.gic_text.specs.Lines.{lines_text};
ghost use Rattle.gic_worst.specs.Rows.{screen_row_of};
ghost use Rattle.gic_screen_mode.specs.ScreenText.{screen_report};

use gic_base::{Sink, WriteFailed};
use gic_case::Transformer;
use gic_report::write_word;
use gic_text::LineBuilder;
use gic_worst::{ScreenRow, Setting, write_setting, write_transformers};

/// Writes the whole report.
pub(crate) fn write_screen<S: Sink>(
    transformers: &[Transformer],
    setting: &Setting,
    rows: &[ScreenRow],
    line: &mut LineBuilder,
    out: &mut S,
) -> Result<(), WriteFailed>
    ensures { Writes S.written S.faults out.old out.new
        (lines_text (screen_report transformers.now setting.now.width setting.now.threshold setting.now.field (map screen_row_of rows.now))) result }
{
    write_word(b"screen", line, out)?;
    write_setting(setting, line, out)?;
    write_transformers(transformers, rows, setting.threshold, line, out)?;
    write_word(b"end", line, out)
}
