//! The lines of the verdicts on transformers.
ghost use Rattle.std.specs.Prelude.{◌≡◌, ◌+◌, ◌≤◌, length, All};
ghost use Rattle.gic_base.specs.Writes.{Writes};
ghost use Rattle.gic_fixed.specs.Ends.{ends_of};
ghost use Rattle.gic_text.specs.Lines.{with_word, line_text, lines_text};
ghost use Rattle.gic_view.specs.Absolute.{HasAbsolute};
ghost use Rattle.gic_report.specs.VerdictText.{verdict_in, verdict_word, judged_line};
ghost use Rattle.gic_report.specs.VerdictText.{absolute_line, absolute_lines, transformer_line, transformer_lines};

use crate::cells::EffectiveCells;
use crate::items::add_ends;
use gic_base::{Name, Sink, WriteFailed, write_all};
use gic_case::Transformer;
use gic_criteria::{Verdict, verdict};
use gic_fixed::Interval;
use gic_text::LineBuilder;
use gic_view::StepView;

/// The verdict on a transformer whose absolute current in mA per phase, effective or for the worst orientation, is in this
/// interval, against a threshold in mA per phase.
pub fn verdict_in(transformer: &Transformer, current: Interval, threshold: u32) -> Verdict
    ensures { result ≡ verdict_in threshold transformer.now (ends_of current) }
{
    let has_effect = transformer.kind.has_effect();
    verdict(current, threshold, transformer.high_volts, has_effect)
}

/// How the report names a verdict.
fn verdict_word(verdict: Verdict) -> &'static str
    ensures word { result.now ≡ verdict_word verdict }
    ensures size { length result.now ≤ 9 }
{
    match verdict {
        Verdict::Below => "below",
        Verdict::Reaches => "reaches",
        Verdict::Undecided => "undecided",
        Verdict::Outside => "outside",
    }
}

/// Adds a verdict to the line, which has space for it.
#[tactic(auto, using(gic_text::proofs::Sizes::line_space))]
pub fn add_verdict(said: Verdict, line: &mut LineBuilder)
    requires { length line.old.bytes ≤ 400 }
    ensures word { line.new ≡ with_word line.old (verdict_word said) }
    ensures size { length line.new.bytes ≤ length line.old.bytes + 10 }
{
    line.word(verdict_word(said).as_bytes());
}

/// Writes the line of a verdict, by the transformer's name and its absolute effective interval.
#[tactic(auto, using(gic_text::proofs::Sizes::line_space), unfolding(crate::specs::VerdictText::judged_line))]
fn write_judged<S: Sink>(
    name: &Name,
    current: Interval,
    said: Verdict,
    line: &mut LineBuilder,
    out: &mut S,
) -> Result<(), WriteFailed>
    ensures { Writes S.written S.faults out.old out.new (line_text (judged_line name.now (ends_of current) said)) result }
{
    line.start();
    line.word(b"transformer");
    line.word(name.as_bytes());
    add_ends(current, line);
    add_verdict(said, line);
    write_all(out, line.finish())
}

/// Writes the line of a transformer, by its absolute effective interval.
fn write_absolute<S: Sink>(
    transformer: &Transformer,
    current: Interval,
    threshold: u32,
    line: &mut LineBuilder,
    out: &mut S,
) -> Result<(), WriteFailed>
    ensures { Writes S.written S.faults out.old out.new (line_text (absolute_line threshold transformer.now (ends_of current))) result }
{
    let said = verdict_in(transformer, current, threshold);
    write_judged(&transformer.name, current, said, line, out)
}

/// Writes the line of a transformer, by its signed effective interval.
fn write_transformer<S: Sink>(
    transformer: &Transformer,
    signed: Interval,
    threshold: u32,
    line: &mut LineBuilder,
    out: &mut S,
) -> Result<(), WriteFailed>
    requires { HasAbsolute (ends_of signed) }
    ensures { Writes S.written S.faults out.old out.new (line_text (transformer_line threshold transformer.now (ends_of signed))) result }
{
    write_absolute(transformer, signed.abs(), threshold, line, out)
}

/// Writes a line for each transformer of a view whose effective intervals are absolute: its interval and the verdict on
/// it against a threshold, both in mA per phase.
pub fn write_absolutes<S: Sink>(
    transformers: &[Transformer],
    view: &StepView,
    threshold: u32,
    line: &mut LineBuilder,
    out: &mut S,
) -> Result<(), WriteFailed>
    ensures { Writes S.written S.faults out.old out.new (lines_text (absolute_lines threshold transformers.now view.now.effective)) result }
{
    let mut cells = EffectiveCells::of(view);
    for transformer in transformers {
        write_absolute(transformer, cells.take(), threshold, line, out)?;
    }
    Ok(())
}

/// The same of a view whose effective intervals are signed, by their absolute intervals.
pub fn write_transformers<S: Sink>(
    transformers: &[Transformer],
    view: &StepView,
    threshold: u32,
    line: &mut LineBuilder,
    out: &mut S,
) -> Result<(), WriteFailed>
    requires { All HasAbsolute view.now.effective }
    ensures { Writes S.written S.faults out.old out.new
        (lines_text (transformer_lines threshold transformers.now view.now.effective)) result }
{
    let mut cells = EffectiveCells::of(view);
    for transformer in transformers {
        write_transformer(transformer, cells.take(), threshold, line, out)?;
    }
    Ok(())
}
