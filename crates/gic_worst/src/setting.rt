//! What is asked of a screen.
ghost use Rattle.std.specs.Prelude.{◌≡◌};
ghost use Rattle.gic_base.specs.Writes.{Writes};
ghost use Rattle.gic_criteria.specs.Event.{field_of, threshold_of};
ghost use Rattle.gic_text.specs.Lines.{line_text};
ghost use Rattle.gic_worst.specs.Setting.{event_setting_line};

use gic_base::{Sink, WriteFailed, write_all};
use gic_criteria::Criteria;
use gic_text::LineBuilder;

/// What is asked: the width of intervals in mA, the threshold in mA per phase, and the strength of the field in mV/km.
#[derive(Clone, Copy, Debug)]
pub struct Setting {
    pub width: u32,
    pub threshold: u32,
    pub field: i32,
}

/// The width that is asked for, and the threshold and the field of the event that is asked for.
pub fn setting_of(criteria: &Criteria) -> Setting
    ensures width { result.width ≡ criteria.now.width }
    ensures threshold { result.threshold ≡ threshold_of criteria.now.event }
    ensures field { result.field ≡ field_of criteria.now.event }
{
    Setting {
        width: criteria.width,
        threshold: criteria.event.threshold(),
        field: criteria.event.field(),
    }
}

/// Writes the line of what is asked.
#[tactic(auto, using(gic_text::proofs::Sizes::line_space))]
pub fn write_setting<S: Sink>(
    setting: &Setting,
    line: &mut LineBuilder,
    out: &mut S,
) -> Result<(), WriteFailed>
    ensures { Writes S.written S.faults out.old out.new
        (line_text (event_setting_line setting.now.width setting.now.threshold setting.now.field)) result }
{
    line.start();
    line.word(b"width");
    line.number(i128::from(setting.width));
    line.word(b"threshold");
    line.number(i128::from(setting.threshold));
    line.word(b"field");
    line.number(i128::from(setting.field));
    write_all(out, line.finish())
}
