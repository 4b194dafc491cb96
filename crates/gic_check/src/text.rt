//! The report of the live and the dead nodes.
ghost use Rattle.std.specs.Prelude.{◌≡◌, ◌≤◌, length};
ghost use Rattle.gic_base.specs.Writes.{Writes};
ghost use Rattle.gic_text.specs.Lines.{line_text, lines_text};
ghost use Rattle.gic_case.specs.Lists.{node_names};
ghost use Rattle.gic_check.specs.CheckText.{state_word, state_line, state_lines, live_count, live_count_line, check_report};

use gic_base::{Name, Sink, WriteFailed, write_all};
use gic_case::{Case, NodeNames};
use gic_report::write_word;
use gic_text::LineBuilder;

/// How the report says whether a node is live.
fn state_word(live: bool) -> &'static str
    ensures word { result.now ≡ state_word live }
    ensures size { length result.now ≤ 4 }
{
    if live { "live" } else { "dead" }
}

/// Writes the line of a node.
#[tactic(auto, using(gic_text::proofs::Sizes::line_space))]
fn write_state<S: Sink>(
    name: &Name,
    live: bool,
    line: &mut LineBuilder,
    out: &mut S,
) -> Result<(), WriteFailed>
    ensures { Writes S.written S.faults out.old out.new (line_text (state_line name.now live)) result }
{
    line.start();
    line.word(b"node");
    line.word(name.as_bytes());
    line.word(state_word(live).as_bytes());
    write_all(out, line.finish())
}

/// Writes a line for each node.
fn write_states<S: Sink>(
    case: &Case,
    live: &[bool],
    line: &mut LineBuilder,
    out: &mut S,
) -> Result<(), WriteFailed>
    ensures { Writes S.written S.faults out.old out.new (lines_text (state_lines (node_names case.now) live.now)) result }
{
    for (name, is_live) in NodeNames::of(case).zip(live) {
        write_state(&name, *is_live, line, out)?;
    }
    Ok(())
}

/// The number of live nodes.
fn live_count(live: &[bool]) -> usize
    ensures { result ≡ live_count live.now }
{
    live.iter().filter(|is_live| **is_live).count()
}

/// Writes the number of live nodes.
#[tactic(auto, using(gic_text::proofs::Sizes::line_space))]
fn write_live_count<S: Sink>(
    live: &[bool],
    line: &mut LineBuilder,
    out: &mut S,
) -> Result<(), WriteFailed>
    ensures { Writes S.written S.faults out.old out.new (line_text (live_count_line (live_count live.now))) result }
{
    line.start();
    line.word(b"live");
    line.number(live_count(live) as i128);
    write_all(out, line.finish())
}

/// Writes the whole report.
pub(crate) fn write_check<S: Sink>(
    case: &Case,
    live: &[bool],
    line: &mut LineBuilder,
    out: &mut S,
) -> Result<(), WriteFailed>
    ensures { Writes S.written S.faults out.old out.new (lines_text (check_report case.now live.now)) result }
{
    write_word(b"check", line, out)?;
    write_states(case, live, line, out)?;
    write_live_count(live, line, out)?;
    write_word(b"end", line, out)
}
