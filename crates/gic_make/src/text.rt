//! The report of a made case.
ghost use Rattle.gic_base.specs.Writes.{Writes};
ghost use Rattle.gic_text.specs.Lines.{line_text, lines_text};
ghost use Rattle.gic_report.specs.Counts.{counts_words};
ghost use Rattle.gic_make.specs.MakeText.{seed_line, walk_line, summary_lines, make_text};

use gic_base::{Sink, WriteFailed, write_all};
use gic_report::{Counts, add_counts, write_sizes, write_word};
use gic_text::LineBuilder;

/// What a made case shows in short: the numbers of its nodes and its elements, the greatest entry of its least capped
/// vector, and how many of its transformers have each verdict.
#[derive(Clone, Copy, Debug)]
pub(crate) struct Summary {
    pub(crate) nodes: u16,
    pub(crate) elements: u16,
    pub(crate) walk: u16,
    pub(crate) counts: Counts,
}

/// Writes the line of what is asked.
#[tactic(auto, using(gic_text::proofs::Sizes::line_space))]
fn write_seed<S: Sink>(
    seed: u32,
    size: u16,
    line: &mut LineBuilder,
    out: &mut S,
) -> Result<(), WriteFailed>
    ensures { Writes S.written S.faults out.old out.new (line_text (seed_line seed size)) result }
{
    line.start();
    line.word(b"seed");
    line.number(i128::from(seed));
    line.word(b"size");
    line.number(i128::from(size));
    write_all(out, line.finish())
}

/// Writes the line of the walk.
#[tactic(auto, using(gic_text::proofs::Sizes::line_space))]
fn write_walk<S: Sink>(walk: u16, line: &mut LineBuilder, out: &mut S) -> Result<(), WriteFailed>
    ensures { Writes S.written S.faults out.old out.new (line_text (walk_line walk)) result }
{
    line.start();
    line.word(b"walk");
    line.number(i128::from(walk));
    write_all(out, line.finish())
}

/// Writes the line of the counts.
#[tactic(auto, using(gic_text::proofs::Sizes::line_space))]
fn write_counts<S: Sink>(
    counts: &Counts,
    line: &mut LineBuilder,
    out: &mut S,
) -> Result<(), WriteFailed>
    ensures { Writes S.written S.faults out.old out.new (line_text (counts_words counts.now)) result }
{
    line.start();
    add_counts(counts, line);
    write_all(out, line.finish())
}

/// Writes the lines of a summary.
fn write_summary<S: Sink>(
    summary: &Summary,
    line: &mut LineBuilder,
    out: &mut S,
) -> Result<(), WriteFailed>
    ensures { Writes S.written S.faults out.old out.new (lines_text (summary_lines summary.now)) result }
{
    write_sizes(summary.nodes, summary.elements as usize, line, out)?;
    write_walk(summary.walk, line, out)?;
    write_counts(&summary.counts, line, out)
}

/// Writes the whole report.
pub(crate) fn write_make<S: Sink>(
    seed: u32,
    size: u16,
    summary: &Summary,
    line: &mut LineBuilder,
    out: &mut S,
) -> Result<(), WriteFailed>
    ensures { Writes S.written S.faults out.old out.new (make_text seed size summary.now) result }
{
    write_word(b"make", line, out)?;
    write_seed(seed, size, line, out)?;
    write_summary(summary, line, out)?;
    write_word(b"end", line, out)
}
