//! The lines of the items of a view: nodes, grounds, lines, windings, neutral devices and effective currents.
ghost use Rattle.std.specs.Prelude.{◌≡◌, ◌+◌, ◌≤◌, length};
ghost use Rattle.gic_base.specs.Writes.{Writes};
ghost use Rattle.gic_fixed.specs.Ends.{ends_of};
ghost use Rattle.gic_view.specs.Kept.{optional_ends};
ghost use Rattle.gic_text.specs.Lines.{with_words, line_text, lines_text};
ghost use Rattle.gic_case.specs.Lists.{node_names};
ghost use Rattle.gic_report.specs.ItemText.{ends_words, cell_words, shown_words, left_behind};
ghost use Rattle.gic_report.specs.ItemText.{item_row_words, item_row_line, row_lines, item_rows_of};
ghost use Rattle.gic_report.specs.ItemText.{node_line, node_lines, effective_line, effective_lines, signed_lines};

use crate::cells::{Cells, EffectiveCells};
use crate::role::role_word;
use crate::rows::{ItemRow, ItemRows};
use gic_base::{Name, Sink, WriteFailed, write_all};
use gic_case::{Case, NodeNames, Transformer};
use gic_fixed::Interval;
use gic_model::Role;
use gic_text::LineBuilder;
use gic_view::StepView;

/// Adds the two ends of an interval to the line, which has space for them.
#[tactic(auto, using(gic_text::proofs::Sizes::line_space))]
pub fn add_ends(interval: Interval, line: &mut LineBuilder)
    requires { length line.old.bytes ≤ 400 }
    ensures words { line.new ≡ with_words line.old (ends_words (ends_of interval)) }
    ensures size { length line.new.bytes ≤ length line.old.bytes + 82 }
{
    line.number(interval.lo);
    line.number(interval.hi);
}

/// Adds the two ends of an interval to the line, or the word that stands for none.
#[tactic(auto, using(gic_text::proofs::Sizes::line_space))]
fn add_cell(cell: Option<Interval>, absent: &[u8], line: &mut LineBuilder)
    requires space { length line.old.bytes ≤ 400 }
    requires absent { length absent.now ≤ 20 }
    ensures words { line.new ≡ with_words line.old (cell_words absent.now (optional_ends cell)) }
    ensures size { length line.new.bytes ≤ length line.old.bytes + 82 }
{
    match cell {
        None => line.word(absent),
        Some(interval) => add_ends(interval, line),
    }
}

/// Adds what a row shows to the line, and takes its interval where it isn't blocked.
#[tactic(auto, using(gic_text::proofs::Sizes::line_space))]
fn add_shown(blocked: bool, cells: &mut Cells<'_>, line: &mut LineBuilder)
    requires space { length line.old.bytes ≤ 400 }
    ensures words { line.new ≡ with_words line.old (shown_words blocked cells.old) }
    ensures left { cells.new ≡ left_behind blocked cells.old }
    ensures size { length line.new.bytes ≤ length line.old.bytes + 82 }
{
    if blocked {
        line.word(b"blocked");
        return;
    }
    add_cell(cells.take(), b"open", line);
}

/// Adds the words that name a row to the line.
#[tactic(auto, using(gic_text::proofs::Sizes::line_space))]
fn add_row_words(row: &ItemRow, line: &mut LineBuilder)
    requires { length line.old.bytes ≤ 400 }
    ensures words { line.new ≡ with_words line.old (item_row_words row.now) }
    ensures size { length line.new.bytes ≤ length line.old.bytes + 49 }
{
    let name = row.name.as_bytes();
    match row.role {
        Role::Ground => {
            line.word(b"ground");
            line.word(name);
        }
        Role::Line => {
            line.word(b"line");
            line.word(name);
        }
        Role::Neutral => {
            line.word(b"neutral");
            line.word(name);
        }
        Role::High | Role::Low | Role::Series | Role::Common | Role::Third => {
            line.word(b"winding");
            line.word(name);
            line.word(role_word(row.role).as_bytes());
        }
    }
}

/// Writes the line of a row.
#[tactic(auto, using(gic_text::proofs::Sizes::line_space))]
fn write_row<S: Sink>(
    row: &ItemRow,
    cells: &mut Cells<'_>,
    line: &mut LineBuilder,
    out: &mut S,
) -> Result<(), WriteFailed>
    ensures written { Writes S.written S.faults out.old out.new (line_text (item_row_line row.now cells.old)) result }
    ensures left { cells.new ≡ left_behind row.now.blocked cells.old }
{
    line.start();
    add_row_words(row, line);
    add_shown(row.blocked, cells, line);
    write_all(out, line.finish())
}

/// Writes a line for each node: its interval in mV, or `dead`.
pub fn write_nodes<S: Sink>(
    case: &Case,
    view: &StepView,
    line: &mut LineBuilder,
    out: &mut S,
) -> Result<(), WriteFailed>
    ensures { Writes S.written S.faults out.old out.new (lines_text (node_lines (node_names case.now) view.now.nodes)) result }
{
    let mut cells = Cells::of_nodes(view);
    for name in NodeNames::of(case) {
        write_node(&name, cells.take(), line, out)?;
    }
    Ok(())
}

/// Writes the line of a node.
#[tactic(auto, using(gic_text::proofs::Sizes::line_space))]
fn write_node<S: Sink>(
    name: &Name,
    cell: Option<Interval>,
    line: &mut LineBuilder,
    out: &mut S,
) -> Result<(), WriteFailed>
    ensures { Writes S.written S.faults out.old out.new (line_text (node_line name.now (optional_ends cell))) result }
{
    line.start();
    line.word(b"node");
    line.word(name.as_bytes());
    add_cell(cell, b"dead", line);
    write_all(out, line.finish())
}

/// Writes the rows of the items of a case: grounds, lines, windings and neutral devices, each with its interval in mA,
/// `open` or `blocked`.
pub fn write_rows<S: Sink>(
    case: &Case,
    view: &StepView,
    line: &mut LineBuilder,
    out: &mut S,
) -> Result<(), WriteFailed>
    ensures { Writes S.written S.faults out.old out.new (lines_text (row_lines (item_rows_of case.now) view.now.elements)) result }
{
    let mut cells = Cells::of_elements(view);
    for row in ItemRows::of(case) {
        write_row(&row, &mut cells, line, out)?;
    }
    Ok(())
}

/// Writes the line of a transformer's effective current.
#[tactic(auto, using(gic_text::proofs::Sizes::line_space))]
fn write_effective<S: Sink>(
    name: &Name,
    signed: Interval,
    line: &mut LineBuilder,
    out: &mut S,
) -> Result<(), WriteFailed>
    ensures { Writes S.written S.faults out.old out.new (line_text (effective_line name.now (ends_of signed))) result }
{
    line.start();
    line.word(b"effective");
    line.word(name.as_bytes());
    add_ends(signed, line);
    write_all(out, line.finish())
}

/// Writes a line for the effective current of each transformer.
fn write_effectives<S: Sink>(
    transformers: &[Transformer],
    view: &StepView,
    line: &mut LineBuilder,
    out: &mut S,
) -> Result<(), WriteFailed>
    ensures { Writes S.written S.faults out.old out.new (lines_text (effective_lines transformers.now view.now.effective)) result }
{
    let mut cells = EffectiveCells::of(view);
    for transformer in transformers {
        write_effective(&transformer.name, cells.take(), line, out)?;
    }
    Ok(())
}

/// Writes the signed items of a view: nodes, rows and effective currents.
pub fn write_signed<S: Sink>(
    case: &Case,
    view: &StepView,
    line: &mut LineBuilder,
    out: &mut S,
) -> Result<(), WriteFailed>
    ensures { Writes S.written S.faults out.old out.new (lines_text (signed_lines case.now view.now)) result }
{
    write_nodes(case, view, line, out)?;
    write_rows(case, view, line, out)?;
    write_effectives(case.transformers(), view, line, out)
}
