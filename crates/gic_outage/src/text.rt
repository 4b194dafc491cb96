//! The report of one item out at a time.
ghost use Rattle.std.specs.Prelude.{◌≡◌, ◌+◌, ◌≤◌, length, map, slice_get};
ghost use Rattle.gic_base.specs.Writes.{Writes};
ghost use Rattle.gic_fixed.specs.Ends.{ends_of};
ghost use Rattle.gic_view.specs.Kept.{optional_ends};
ghost use Rattle.gic_text.specs.Lines.{with_words, line_text, lines_text};
ghost use Rattle.gic_outage.specs.OutageText.{outcome_words, outcome_line, outcome_lines, greatest_line, none_line};
ghost use Rattle.gic_outage.specs.OutageText.{greatest_worst_line, greatest_worst_lines, plan_names, outage_report};

use crate::outcome::OutageOutcome;
use gic_base::{Name, Sink, WriteFailed, write_all};
use gic_case::{Case, Transformer};
use gic_criteria::Verdict;
use gic_fixed::Interval;
use gic_report::{add_counts, add_ends, add_verdict, verdict_in, write_word};
use gic_text::LineBuilder;
use gic_worst::{Setting, write_setting};

/// Adds how an outage ends to the line, which has space for it.
#[tactic(auto, using(gic_text::proofs::Sizes::line_space))]
fn add_outcome(outcome: &OutageOutcome, line: &mut LineBuilder)
    requires { length line.old.bytes ≤ 100 }
    ensures words { line.new ≡ with_words line.old (outcome_words outcome.now) }
    ensures size { length line.new.bytes ≤ length line.old.bytes + 200 }
{
    match outcome {
        OutageOutcome::Idle => line.word(b"idle"),
        OutageOutcome::Unearthed(node) => {
            line.word(b"unearthed");
            line.word(node.as_bytes());
        }
        OutageOutcome::Unresolved(node) => {
            line.word(b"unresolved");
            line.word(node.as_bytes());
        }
        OutageOutcome::Solved(counts) => add_counts(counts, line),
    }
}

/// Writes the line of an outage, by the name of its item.
#[tactic(auto, using(gic_text::proofs::Sizes::line_space), unfolding(crate::specs::OutageText::outcome_line))]
fn write_outcome<S: Sink>(
    name: &Name,
    outcome: &OutageOutcome,
    line: &mut LineBuilder,
    out: &mut S,
) -> Result<(), WriteFailed>
    ensures { Writes S.written S.faults out.old out.new (line_text (outcome_line name.now outcome.now)) result }
{
    line.start();
    line.word(b"outage");
    line.word(name.as_bytes());
    add_outcome(outcome, line);
    write_all(out, line.finish())
}

/// The name of the item at a place of the plan: the lines of the case come first, and then its transformers. None past the
/// last.
fn planned_name(case: &Case, place: usize) -> Option<Name>
    ensures { result ≡ slice_get (plan_names case.now) place }
{
    let lines = case.lines();
    if let Some(row) = lines.get(place) {
        return Some(row.name);
    }
    let transformers = case.transformers();
    if let Some(row) = transformers.get(place - lines.len()) {
        return Some(row.name);
    }
    None
}

/// Writes a line for each outage, in the order of the plan.
fn write_outcomes<S: Sink>(
    case: &Case,
    outcomes: &[OutageOutcome],
    line: &mut LineBuilder,
    out: &mut S,
) -> Result<(), WriteFailed>
    ensures { Writes S.written S.faults out.old out.new (lines_text (outcome_lines (plan_names case.now) outcomes.now)) result }
{
    for (place, outcome) in outcomes.iter().enumerate() {
        let Some(name) = planned_name(case, place) else {
            return Ok(());
        };
        write_outcome(&name, outcome, line, out)?;
    }
    Ok(())
}

/// Writes the line of a transformer that no outage shows.
#[tactic(auto, using(gic_text::proofs::Sizes::line_space))]
fn write_none<S: Sink>(name: &Name, line: &mut LineBuilder, out: &mut S) -> Result<(), WriteFailed>
    ensures { Writes S.written S.faults out.old out.new (line_text (none_line name.now)) result }
{
    line.start();
    line.word(b"transformer");
    line.word(name.as_bytes());
    line.word(b"none");
    write_all(out, line.finish())
}

/// Writes the line of a greatest worst interval and the verdict on it, by the transformer's name.
#[tactic(auto, using(gic_text::proofs::Sizes::line_space), unfolding(crate::specs::OutageText::greatest_line))]
fn write_worst<S: Sink>(
    name: &Name,
    worst: Interval,
    said: Verdict,
    line: &mut LineBuilder,
    out: &mut S,
) -> Result<(), WriteFailed>
    ensures { Writes S.written S.faults out.old out.new (line_text (greatest_line name.now (ends_of worst) said)) result }
{
    line.start();
    line.word(b"transformer");
    line.word(name.as_bytes());
    line.word(b"worst");
    add_ends(worst, line);
    add_verdict(said, line);
    write_all(out, line.finish())
}

/// Writes the line of a transformer, by its greatest worst interval, if there is one.
fn write_greatest<S: Sink>(
    transformer: &Transformer,
    greatest: Option<Interval>,
    threshold: u32,
    line: &mut LineBuilder,
    out: &mut S,
) -> Result<(), WriteFailed>
    ensures { Writes S.written S.faults out.old out.new
        (line_text (greatest_worst_line threshold transformer.now (optional_ends greatest))) result }
{
    let name = &transformer.name;
    let Some(worst) = greatest else {
        return write_none(name, line, out);
    };
    let said = verdict_in(transformer, worst, threshold);
    write_worst(name, worst, said, line, out)
}

/// Writes a line for each transformer.
fn write_transformers<S: Sink>(
    case: &Case,
    greatest: &[Option<Interval>],
    threshold: u32,
    line: &mut LineBuilder,
    out: &mut S,
) -> Result<(), WriteFailed>
    ensures { Writes S.written S.faults out.old out.new
        (lines_text (greatest_worst_lines threshold case.now.transformers (map optional_ends greatest.now))) result }
{
    for (transformer, cell) in case.transformers().iter().zip(greatest) {
        write_greatest(transformer, *cell, threshold, line, out)?;
    }
    Ok(())
}

/// Writes the whole report.
pub(crate) fn write_outage<S: Sink>(
    case: &Case,
    setting: &Setting,
    outcomes: &[OutageOutcome],
    greatest: &[Option<Interval>],
    line: &mut LineBuilder,
    out: &mut S,
) -> Result<(), WriteFailed>
    ensures { Writes S.written S.faults out.old out.new
        (lines_text (outage_report case.now setting.now.width setting.now.threshold setting.now.field
        outcomes.now (map optional_ends greatest.now))) result }
{
    write_word(b"outage", line, out)?;
    write_setting(setting, line, out)?;
    write_outcomes(case, outcomes, line, out)?;
    write_transformers(case, greatest, setting.threshold, line, out)?;
    write_word(b"end", line, out)
}
