//! The report of the voltages along the lines.
ghost use Rattle.gic_base.specs.Writes.{Writes};
ghost use Rattle.gic_text.specs.Lines.{line_text, lines_text};
ghost use Rattle.gic_volts.specs.VoltsText.{volts_line, volts_lines, volts_report};

use gic_base::{Name, Sink, WriteFailed, write_all};
use gic_case::Line;
use gic_report::{write_field_line, write_word};
use gic_text::LineBuilder;

/// Writes the line of a voltage.
#[tactic(auto, using(gic_text::proofs::Sizes::line_space))]
fn write_volts_line<S: Sink>(
    name: &Name,
    nanovolts: i64,
    line: &mut LineBuilder,
    out: &mut S,
) -> Result<(), WriteFailed>
    ensures { Writes S.written S.faults out.old out.new (line_text (volts_line name.now nanovolts)) result }
{
    line.start();
    line.word(b"line");
    line.word(name.as_bytes());
    line.number(i128::from(nanovolts));
    write_all(out, line.finish())
}

/// Writes a line for each line of the case.
fn write_volts_lines<S: Sink>(
    lines: &[Line],
    nanovolts: &[i64],
    line: &mut LineBuilder,
    out: &mut S,
) -> Result<(), WriteFailed>
    ensures { Writes S.written S.faults out.old out.new (lines_text (volts_lines lines.now nanovolts.now)) result }
{
    for (item, number) in lines.iter().zip(nanovolts) {
        write_volts_line(&item.name, *number, line, out)?;
    }
    Ok(())
}

/// Writes the whole report.
pub(crate) fn write_volts<S: Sink>(
    lines: &[Line],
    north: i32,
    east: i32,
    nanovolts: &[i64],
    line: &mut LineBuilder,
    out: &mut S,
) -> Result<(), WriteFailed>
    ensures { Writes S.written S.faults out.old out.new (lines_text (volts_report lines.now north east nanovolts.now)) result }
{
    write_word(b"volts", line, out)?;
    write_field_line(north, east, line, out)?;
    write_volts_lines(lines, nanovolts, line, out)?;
    write_word(b"end", line, out)
}
