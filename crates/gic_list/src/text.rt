//! The report of the elements of a network.
ghost use Rattle.std.specs.Prelude.{◌≡◌, ◌≤◌, ◌+◌, length, map, Contains};
ghost use Rattle.gic_base.specs.Writes.{Writes};
ghost use Rattle.gic_text.specs.Lines.{line_text, lines_text, with_word};
ghost use Rattle.gic_winding.specs.ElementList.{elements_of};
ghost use Rattle.gic_list.specs.ListText.{end_name, element_line, list_report};

use crate::names::node_name;
use gic_base::{Sink, WriteFailed, write_all};
use gic_case::Case;
use gic_model::{Element, End};
use gic_report::{item_name, role_word, write_sizes, write_word};
use gic_text::LineBuilder;

/// Adds the name of the end to which an element runs to the line.
fn add_end(case: &Case, element: &Element, line: &mut LineBuilder)
    requires element { Contains (elements_of case.now).list element.now }
    requires space { length line.old.bytes + 33 ≤ 512 }
    ensures word { line.new ≡ with_word line.old (end_name case.now element.now.to) }
    ensures size { length line.new.bytes ≤ length line.old.bytes + 33 }
{
    match element.to {
        End::Node(node) => line.word(node_name(case, element, node).as_bytes()),
        End::Earth => line.word(b"*"),
    }
}

/// Writes the line of an element.
#[tactic(auto, using(gic_text::proofs::Sizes::line_space), unfolding(crate::specs::ListText::element_line))]
fn write_element<S: Sink>(
    case: &Case,
    element: &Element,
    line: &mut LineBuilder,
    out: &mut S,
) -> Result<(), WriteFailed>
    requires { Contains (elements_of case.now).list element.now }
    ensures { Writes S.written S.faults out.old out.new (line_text (element_line case.now element.now)) result }
{
    line.start();
    line.word(b"element");
    line.word(item_name(case, element.item).as_bytes());
    line.word(role_word(element.role).as_bytes());
    line.word(node_name(case, element, element.from).as_bytes());
    add_end(case, element, line);
    line.number(i128::from(element.times));
    line.number(i128::from(element.micro_ohm));
    write_all(out, line.finish())
}

/// Writes a line for each element.
fn write_elements<S: Sink>(
    case: &Case,
    elements: &[Element],
    line: &mut LineBuilder,
    out: &mut S,
) -> Result<(), WriteFailed>
    requires { elements.now ≡ (elements_of case.now).list }
    ensures { Writes S.written S.faults out.old out.new (lines_text (map (element_line case.now) elements.now)) result }
{
    for element in elements {
        write_element(case, element, line, out)?;
    }
    Ok(())
}

/// Writes the whole report.
pub(crate) fn write_list<S: Sink>(
    case: &Case,
    nodes: u16,
    elements: &[Element],
    line: &mut LineBuilder,
    out: &mut S,
) -> Result<(), WriteFailed>
    requires { elements.now ≡ (elements_of case.now).list }
    ensures { Writes S.written S.faults out.old out.new (lines_text (list_report case.now nodes elements.now)) result }
{
    write_word(b"list", line, out)?;
    write_sizes(nodes, elements.len(), line, out)?;
    write_elements(case, elements, line, out)?;
    write_word(b"end", line, out)
}
