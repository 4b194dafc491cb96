//! Writes the text of a certificate.
ghost use Rattle.std.specs.Prelude.{◌≡◌, ◌<◌, length};
ghost use Rattle.gic_base.specs.Writes.{Writes};
ghost use Rattle.gic_text.specs.Lines.{line_text, lines_text};
ghost use Rattle.gic_case.specs.Lists.{node_names};
ghost use Rattle.gic_cert.specs.Text.{nodes_line, written_line, written_lines, cert_text};
ghost use Rattle.gic_cert.specs.Written.{written_at};
ghost use Rattle.gic_cert.specs.Rows.{row_written, IsNodeRow};

use crate::cert::Cert;
use crate::rows::{Field, NodeRow};
use gic_base::{Name, NodeId, Sink, WriteFailed, write_all};
use gic_case::{Case, NodeNames, node_count};
use gic_report::write_word;
use gic_text::LineBuilder;

/// Writes the line of the number of nodes and the field.
#[tactic(auto, using(gic_text::proofs::Sizes::line_space), unfolding(crate::specs::Text::nodes_line))]
fn write_nodes_line<S: Sink>(
    count: usize,
    field: &Field,
    line: &mut LineBuilder,
    out: &mut S,
) -> Result<(), WriteFailed>
    ensures { Writes S.written S.faults out.old out.new (line_text (nodes_line count field.now.north field.now.east)) result }
{
    line.start();
    line.word(b"nodes");
    line.number(count as i128);
    line.word(b"north");
    line.number(i128::from(field.north));
    line.word(b"east");
    line.number(i128::from(field.east));
    write_all(out, line.finish())
}

/// Writes the second line of a certificate.
fn write_field<S: Sink>(cert: &Cert, line: &mut LineBuilder, out: &mut S) -> Result<(), WriteFailed>
    ensures { Writes S.written S.faults out.old out.new
        (line_text (nodes_line (length cert.now.nodes) cert.now.north cert.now.east)) result }
{
    write_nodes_line(cert.count(), cert.field(), line, out)
}

/// Writes the line of a node.
#[tactic(auto, using(gic_text::proofs::Sizes::line_space))]
fn write_node<S: Sink>(
    name: &Name,
    row: &NodeRow,
    line: &mut LineBuilder,
    out: &mut S,
) -> Result<(), WriteFailed>
    requires { IsNodeRow row.now }
    ensures { Writes S.written S.faults out.old out.new (line_text (written_line name.now (row_written row.now))) result }
{
    line.start();
    line.word(b"cert");
    line.word(name.as_bytes());
    if row.entry == 0 {
        line.word(b"dead");
        return write_all(out, line.finish());
    }
    line.number(i128::from(row.entry));
    line.number(row.guess);
    line.number(row.radius as i128);
    write_all(out, line.finish())
}

/// Writes the line of the node at this place.
fn write_node_at<S: Sink>(
    name: &Name,
    cert: &Cert,
    node: NodeId,
    line: &mut LineBuilder,
    out: &mut S,
) -> Result<(), WriteFailed>
    requires { node.0 < length cert.now.nodes }
    ensures { Writes S.written S.faults out.old out.new (line_text (written_line name.now (written_at cert.now node.0))) result }
{
    let row = cert.row(node);
    write_node(name, &row, line, out)
}

/// Writes a line for each node.
fn write_nodes<S: Sink>(
    case: &Case,
    cert: &Cert,
    line: &mut LineBuilder,
    out: &mut S,
) -> Result<(), WriteFailed>
    requires { length cert.now.nodes ≡ length (node_names case.now) }
    ensures { Writes S.written S.faults out.old out.new (lines_text (written_lines (node_names case.now) cert.now.nodes)) result }
{
    // A case has few nodes, so the count of them below is one of 16 bits.
    let _count = node_count(case);
    let mut node: u16 = 0;
    for name in NodeNames::of(case) {
        write_node_at(&name, cert, NodeId(node), line, out)?;
        node += 1;
    }
    Ok(())
}

/// Writes the text of a certificate, which has the case's number of nodes. Takes no memory.
pub fn write_cert<S: Sink>(
    case: &Case,
    cert: &Cert,
    line: &mut LineBuilder,
    out: &mut S,
) -> Result<(), WriteFailed>
    requires { length cert.now.nodes ≡ length (node_names case.now) }
    ensures { Writes S.written S.faults out.old out.new (cert_text (node_names case.now) cert.now) result }
{
    write_word(b"certificate", line, out)?;
    write_field(cert, line, out)?;
    write_nodes(case, cert, line, out)?;
    write_word(b"end", line, out)
}
