//! The lines of transformers.
ghost use Rattle.std.specs.Prelude.{◌≡◌, ◌+◌, ◌≤◌, ◌∷◌, length, map};
ghost use Rattle.gic_base.specs.Writes.{Writes};
ghost use Rattle.gic_fixed.specs.Ends.{ends_of};
ghost use Rattle.gic_text.specs.Lines.{with_words, line_text, lines_text};
ghost use Rattle.gic_report.specs.ItemText.{ends_words};
ghost use Rattle.gic_worst.specs.Rows.{screen_row_of};
ghost use Rattle.gic_worst.specs.ScreenLines.{screened_line, screened_transformer_line, screened_transformer_lines};

use crate::rows::ScreenRow;
use gic_base::{Name, Sink, WriteFailed, write_all};
use gic_case::Transformer;
use gic_criteria::Verdict;
use gic_fixed::Interval;
use gic_report::{add_ends, add_verdict, verdict_in};
use gic_text::LineBuilder;

/// Adds what an interval is of, in at most 5 bytes, and its two ends.
#[tactic(auto, using(gic_text::proofs::Sizes::line_space))]
fn add_current(of: &[u8], interval: Interval, line: &mut LineBuilder)
    requires space { length line.old.bytes ≤ 300 }
    requires short { length of.now ≤ 5 }
    ensures words { line.new ≡ with_words line.old (of.now ∷ ends_words (ends_of interval)) }
    ensures size { length line.new.bytes ≤ length line.old.bytes + 88 }
{
    line.word(of);
    add_ends(interval, line);
}

/// Writes the line of a row and its verdict, by the transformer's name.
#[tactic(auto, using(gic_text::proofs::Sizes::line_space), unfolding(crate::specs::ScreenLines::screened_line))]
fn write_row<S: Sink>(
    name: &Name,
    row: &ScreenRow,
    said: Verdict,
    line: &mut LineBuilder,
    out: &mut S,
) -> Result<(), WriteFailed>
    ensures { Writes S.written S.faults out.old out.new (line_text (screened_line name.now (screen_row_of row.now) said)) result }
{
    line.start();
    line.word(b"transformer");
    line.word(name.as_bytes());
    add_current(b"north", row.north, line);
    add_current(b"east", row.east, line);
    add_current(b"worst", row.worst, line);
    add_verdict(said, line);
    write_all(out, line.finish())
}

/// Writes the line of a transformer, with the verdict of its worst interval.
fn write_transformer<S: Sink>(
    transformer: &Transformer,
    row: &ScreenRow,
    threshold: u32,
    line: &mut LineBuilder,
    out: &mut S,
) -> Result<(), WriteFailed>
    ensures { Writes S.written S.faults out.old out.new
        (line_text (screened_transformer_line threshold transformer.now (screen_row_of row.now))) result }
{
    let said = verdict_in(transformer, row.worst, threshold);
    write_row(&transformer.name, row, said, line, out)
}

/// Writes a line for each transformer, with the verdict of its worst interval.
pub fn write_transformers<S: Sink>(
    transformers: &[Transformer],
    rows: &[ScreenRow],
    threshold: u32,
    line: &mut LineBuilder,
    out: &mut S,
) -> Result<(), WriteFailed>
    ensures { Writes S.written S.faults out.old out.new
        (lines_text (screened_transformer_lines threshold transformers.now (map screen_row_of rows.now))) result }
{
    for (transformer, row) in transformers.iter().zip(rows) {
        write_transformer(transformer, row, threshold, line, out)?;
    }
    Ok(())
}
