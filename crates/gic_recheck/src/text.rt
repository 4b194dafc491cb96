//! The report of the potentials that a certificate shows.
ghost use Rattle.std.specs.Prelude.{◌++◌, [], map};
ghost use Rattle.std.specs.Option.{option_to_list};
ghost use Rattle.gic_base.specs.Writes.{Writes};
ghost use Rattle.gic_case.specs.Lists.{node_names};
ghost use Rattle.gic_recheck.specs.RecheckText.{potential_line, potential_lines, recheck_report};
ghost use Rattle.gic_text.specs.Lines.{lines_text};
ghost use Rattle.gic_view.specs.Kept.{optional_ends};

use gic_base::{Name, Sink, WriteFailed, write_all};
use gic_case::{Case, NodeNames};
use gic_fixed::Interval;
use gic_report::{add_ends, write_field_line, write_word};
use gic_text::LineBuilder;

/// Writes the line of a node, where it has an interval.
#[tactic(auto, using(gic_text::proofs::Sizes::line_space))]
fn write_potential<S: Sink>(
    name: &Name,
    interval: Option<Interval>,
    line: &mut LineBuilder,
    out: &mut S,
) -> Result<(), WriteFailed>
    ensures { Writes S.written S.faults out.old out.new
        (lines_text (option_to_list (potential_line name.now (optional_ends interval)))) result }
{
    let Some(ends) = interval else {
        return Ok(());
    };
    line.start();
    line.word(b"node");
    line.word(name.as_bytes());
    add_ends(ends, line);
    write_all(out, line.finish())
}

/// Writes a line for each node that has an interval.
fn write_potentials<S: Sink>(
    case: &Case,
    intervals: &[Option<Interval>],
    line: &mut LineBuilder,
    out: &mut S,
) -> Result<(), WriteFailed>
    ensures { Writes S.written S.faults out.old out.new
        (lines_text (potential_lines (node_names case.now) (map optional_ends intervals.now))) result }
{
    for (name, interval) in NodeNames::of(case).zip(intervals) {
        write_potential(&name, *interval, line, out)?;
    }
    Ok(())
}

/// Writes the whole report, for a field in mV/km and intervals in mV by nodes.
pub(crate) fn write_recheck<S: Sink>(
    case: &Case,
    north: i32,
    east: i32,
    intervals: &[Option<Interval>],
    line: &mut LineBuilder,
    out: &mut S,
) -> Result<(), WriteFailed>
    ensures { Writes S.written S.faults out.old out.new
        (lines_text (recheck_report case.now north east (map optional_ends intervals.now))) result }
{
    write_word(b"recheck", line, out)?;
    write_field_line(north, east, line, out)?;
    write_potentials(case, intervals, line, out)?;
    write_word(b"end", line, out)
}
