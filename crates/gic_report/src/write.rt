//! Lines that several reports have.
ghost use Rattle.std.specs.Prelude.{◌<◌, length};
ghost use Rattle.gic_base.specs.Writes.{Writes};
ghost use Rattle.gic_text.specs.Lines.{line_text};
ghost use Rattle.gic_report.specs.SharedLines.{word_line, field_line, sizes_line};

use gic_base::{Sink, WriteFailed, write_all};
use gic_text::LineBuilder;

/// Writes a line of one word.
pub fn write_word<S: Sink>(
    word: &[u8],
    line: &mut LineBuilder,
    out: &mut S,
) -> Result<(), WriteFailed>
    requires { length word.now < 512 }
    ensures { Writes S.written S.faults out.old out.new (line_text (word_line word.now)) result }
{
    line.start();
    line.word(word);
    write_all(out, line.finish())
}

/// Writes the line of a uniform field, in mV/km.
#[tactic(auto, using(gic_text::proofs::Sizes::line_space))]
pub fn write_field_line<S: Sink>(
    north: i32,
    east: i32,
    line: &mut LineBuilder,
    out: &mut S,
) -> Result<(), WriteFailed>
    ensures { Writes S.written S.faults out.old out.new (line_text (field_line north east)) result }
{
    line.start();
    line.word(b"north");
    line.number(i128::from(north));
    line.word(b"east");
    line.number(i128::from(east));
    write_all(out, line.finish())
}

/// Writes the line of the numbers of nodes and elements.
#[tactic(auto, using(gic_text::proofs::Sizes::line_space))]
pub fn write_sizes<S: Sink>(
    nodes: u16,
    elements: usize,
    line: &mut LineBuilder,
    out: &mut S,
) -> Result<(), WriteFailed>
    ensures { Writes S.written S.faults out.old out.new (line_text (sizes_line nodes elements)) result }
{
    line.start();
    line.word(b"nodes");
    line.number(i128::from(nodes));
    line.word(b"elements");
    line.number(elements as i128);
    write_all(out, line.finish())
}
