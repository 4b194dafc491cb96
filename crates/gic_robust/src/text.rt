//! The report of the mode.
ghost use Rattle.std.specs.Prelude.{map};
ghost use Rattle.gic_base.specs.Writes.{Writes};
ghost use Rattle.gic_text.specs.Lines.{line_text, lines_text};
ghost use Rattle.gic_worst.specs.Rows.{screen_row_of};
ghost use Rattle.gic_robust.specs.RobustText.{robust_setting_line, robust_report};

use gic_base::{Sink, WriteFailed, write_all};
use gic_case::Transformer;
use gic_report::write_word;
use gic_text::LineBuilder;
use gic_worst::{ScreenRow, Setting, write_transformers};

/// Writes the line of what is asked, with the tolerance of grounds in per cent.
#[tactic(auto, using(gic_text::proofs::Sizes::line_space))]
fn write_robust_setting<S: Sink>(
    setting: &Setting,
    tolerance: u8,
    line: &mut LineBuilder,
    out: &mut S,
) -> Result<(), WriteFailed>
    ensures { Writes S.written S.faults out.old out.new
        (line_text (robust_setting_line setting.now.width setting.now.threshold setting.now.field tolerance)) result }
{
    line.start();
    line.word(b"width");
    line.number(i128::from(setting.width));
    line.word(b"threshold");
    line.number(i128::from(setting.threshold));
    line.word(b"field");
    line.number(i128::from(setting.field));
    line.word(b"tolerance");
    line.number(i128::from(tolerance));
    write_all(out, line.finish())
}

/// Writes the whole report.
pub(crate) fn write_robust<S: Sink>(
    transformers: &[Transformer],
    setting: &Setting,
    tolerance: u8,
    rows: &[ScreenRow],
    line: &mut LineBuilder,
    out: &mut S,
) -> Result<(), WriteFailed>
    ensures { Writes S.written S.faults out.old out.new
        (lines_text (robust_report transformers.now setting.now.width setting.now.threshold setting.now.field tolerance (map screen_row_of rows.now))) result }
{
    write_word(b"robust", line, out)?;
    write_robust_setting(setting, tolerance, line, out)?;
    write_transformers(transformers, rows, setting.threshold, line, out)?;
    write_word(b"end", line, out)
}
