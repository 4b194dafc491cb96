//! The report of the potentials and the currents in one uniform field.
ghost use Rattle.std.specs.Prelude.{◌++◌, All};
ghost use Rattle.gic_base.specs.Writes.{Writes};
ghost use Rattle.gic_text.specs.Lines.{line_text, lines_text};
ghost use Rattle.gic_view.specs.Absolute.{HasAbsolute};
ghost use Rattle.gic_report.specs.ItemText.{signed_lines};
ghost use Rattle.gic_report.specs.VerdictText.{transformer_lines};
ghost use Rattle.gic_field.specs.FieldText.{field_setting_line, field_report};

use gic_base::{Sink, WriteFailed, write_all};
use gic_case::Case;
use gic_report::{write_signed, write_transformers, write_word};
use gic_text::LineBuilder;
use gic_view::StepView;

/// What is asked: a field's parts in mV/km, the width of intervals in mV and mA, and the threshold in mA per phase.
#[derive(Clone, Copy, Debug)]
pub(crate) struct Setting {
    pub(crate) north: i32,
    pub(crate) east: i32,
    pub(crate) width: u32,
    pub(crate) threshold: u32,
}

/// Writes the line of what is asked.
#[tactic(auto, using(gic_text::proofs::Sizes::line_space))]
fn write_setting<S: Sink>(
    setting: &Setting,
    line: &mut LineBuilder,
    out: &mut S,
) -> Result<(), WriteFailed>
    ensures { Writes S.written S.faults out.old out.new
        (line_text (field_setting_line setting.now.north setting.now.east setting.now.width setting.now.threshold)) result }
{
    line.start();
    line.word(b"north");
    line.number(i128::from(setting.north));
    line.word(b"east");
    line.number(i128::from(setting.east));
    line.word(b"width");
    line.number(i128::from(setting.width));
    line.word(b"threshold");
    line.number(i128::from(setting.threshold));
    write_all(out, line.finish())
}

/// Writes the signed items of the view, and then a line for each transformer.
fn write_items<S: Sink>(
    case: &Case,
    view: &StepView,
    threshold: u32,
    line: &mut LineBuilder,
    out: &mut S,
) -> Result<(), WriteFailed>
    requires { All HasAbsolute view.now.effective }
    ensures { Writes S.written S.faults out.old out.new
        (lines_text (signed_lines case.now view.now ++ transformer_lines threshold case.now.transformers view.now.effective)) result }
{
    write_signed(case, view, line, out)?;
    write_transformers(case.transformers(), view, threshold, line, out)
}

/// Writes the whole report.
pub(crate) fn write_field<S: Sink>(
    case: &Case,
    setting: &Setting,
    view: &StepView,
    line: &mut LineBuilder,
    out: &mut S,
) -> Result<(), WriteFailed>
    requires { All HasAbsolute view.now.effective }
    ensures { Writes S.written S.faults out.old out.new
        (lines_text (field_report case.now setting.now.north setting.now.east setting.now.width setting.now.threshold view.now)) result }
{
    write_word(b"field", line, out)?;
    write_setting(setting, line, out)?;
    write_items(case, view, setting.threshold, line, out)?;
    write_word(b"end", line, out)
}
