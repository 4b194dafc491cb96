//! Reads the lines of a certificate.
ghost use Rattle.std.specs.Prelude.{◌≡◌, ◌+◌, ◌≤◌, List, [], ◌∷◌, map, length, unsigned_abs, All, IfOk, IfErr, OnOk};
ghost use Rattle.gic_base.specs.declared.limits.TheConstants.{MOST_FIELD};
ghost use Rattle.gic_cert.specs.declared.limits.TheConstants.{MOST_WRITTEN_NODES};
ghost use Rattle.gic_cert.specs.Cuts.{lines_cut};
ghost use Rattle.gic_cert.specs.Reading.{NamedNode, breaks_behind, nodes_in, breaks_second, certificate_refusals, cert_behind, cert_in};
ghost use Rattle.gic_cert.specs.Reading.{TellsFirst};
ghost use Rattle.gic_cert.specs.Rows.{row_written, named_nodes, IsNodeRow};

use crate::cutting::next_line;
use crate::lines::{is_only, read_field, read_node};
use crate::refusal::CertRefusal;
use crate::rows::{Field, NodeName, NodeRow};
use gic_base::ReadFault;
use std::alloc::Global;

/// What the line of a node says, and the text behind it.
#[derive(Clone, Copy, Debug)]
struct NodeLine<'a> {
    row: NodeRow,
    left: &'a [u8],
}

/// Reads the line of a node at the beginning of a text.
fn read_line<'a>(
    alloc: Global,
    text: &'a [u8],
    row: u32,
    node: &NodeName,
) -> Result<NodeLine<'a>, ReadFault<CertRefusal>>
    ensures kept { IfOk result (λ line. (others : List NamedNode) →
        breaks_behind row ((node.now.name, node.now.live) ∷ others) (lines_cut text.now) ≡ breaks_behind (row + 1) others (lines_cut line.left.now)) }
    ensures value { IfOk result (λ line. (others : List NamedNode) →
        nodes_in ((node.now.name, node.now.live) ∷ others) (lines_cut text.now) ≡ row_written line.row ∷ nodes_in others (lines_cut line.left.now)) }
    ensures range { IfOk result (λ line. IsNodeRow line.row) }
    ensures first { IfErr result (λ refusal. (others : List NamedNode) →
        TellsFirst (breaks_behind row ((node.now.name, node.now.live) ∷ others) (lines_cut text.now)) refusal) }
{
    if text.is_empty() {
        return Err(ReadFault::Refused(CertRefusal::Shape { row }));
    }
    let line = next_line(alloc, text)?;
    let read = read_node(line.words.as_slice(), row, &node.name, node.live)?;
    Ok(NodeLine {
        row: read,
        left: line.left,
    })
}

/// Reads the end of a certificate, behind which nothing stands.
fn read_end(alloc: Global, text: &[u8], row: u32) -> Result<(), ReadFault<CertRefusal>>
    requires { row ≤ MOST_WRITTEN_NODES + 3 }
    ensures kept { OnOk result (breaks_behind row [] (lines_cut text.now) ≡ []) }
    ensures value { OnOk result (nodes_in [] (lines_cut text.now) ≡ []) }
    ensures first { IfErr result (TellsFirst (breaks_behind row [] (lines_cut text.now))) }
{
    if text.is_empty() {
        return Err(ReadFault::Refused(CertRefusal::Shape { row }));
    }
    let line = next_line(alloc, text)?;
    if !is_only(line.words.as_slice(), b"end") {
        return Err(ReadFault::Refused(CertRefusal::Shape { row }));
    }
    if line.left.is_empty() {
        Ok(())
    } else {
        Err(ReadFault::Refused(CertRefusal::Shape { row: row + 1 }))
    }
}

/// Reads the lines behind the first two: one for each node, and the end.
fn read_behind(
    alloc: Global,
    text: &[u8],
    nodes: &[NodeName],
) -> Result<Vec<NodeRow>, ReadFault<CertRefusal>>
    requires few { length nodes.now ≤ MOST_WRITTEN_NODES }
    ensures kept { IfOk result (λ rows. breaks_behind 3 (named_nodes nodes.now) (lines_cut text.now) ≡ []) }
    ensures value { IfOk result (λ rows. map row_written rows.items ≡ nodes_in (named_nodes nodes.now) (lines_cut text.now)) }
    ensures count { IfOk result (λ rows. length rows.items ≤ length nodes.now) }
    ensures range { IfOk result (λ rows. All IsNodeRow rows.items) }
    ensures first { IfErr result (TellsFirst (breaks_behind 3 (named_nodes nodes.now) (lines_cut text.now))) }
{
    let mut rows = Vec::new(alloc);
    let mut left = text;
    for place in 0..nodes.len() {
        let line = read_line(alloc, left, place as u32 + 3, &nodes[place])?;
        rows.push(line.row)?;
        left = line.left;
    }
    read_end(alloc, left, nodes.len() as u32 + 3)?;
    Ok(rows)
}

/// A certificate as it is read: its field, and its nodes row by row.
#[derive(Drop)]
pub(crate) struct ReadCert {
    pub(crate) field: Field,
    pub(crate) rows: Vec<NodeRow>,
}

/// Reads the lines behind the first, over these nodes.
#[tactic(auto, using(crate::proofs::ReadLaws::reading))]
fn read_second(
    alloc: Global,
    text: &[u8],
    nodes: &[NodeName],
) -> Result<ReadCert, ReadFault<CertRefusal>>
    requires few { length nodes.now ≤ MOST_WRITTEN_NODES }
    ensures kept { IfOk result (λ read. breaks_second (named_nodes nodes.now) (lines_cut text.now) ≡ []) }
    ensures value { IfOk result (λ read. record { north = read.field.north; east = read.field.east; nodes = map row_written read.rows.items }
        ≡ cert_behind (named_nodes nodes.now) (lines_cut text.now)) }
    ensures field { IfOk result (λ read. (unsigned_abs read.field.north ≤ MOST_FIELD) × (unsigned_abs read.field.east ≤ MOST_FIELD)) }
    ensures count { IfOk result (λ read. length read.rows.items ≤ length nodes.now) }
    ensures range { IfOk result (λ read. All IsNodeRow read.rows.items) }
    ensures first { IfErr result (TellsFirst (breaks_second (named_nodes nodes.now) (lines_cut text.now))) }
{
    if text.is_empty() {
        return Err(ReadFault::Refused(CertRefusal::Shape { row: 2 }));
    }
    let line = next_line(alloc, text)?;
    let field = read_field(line.words.as_slice(), nodes.len() as u16)?;
    let rows = read_behind(alloc, line.left, nodes)?;
    Ok(ReadCert { field, rows })
}

/// Reads all lines, over these nodes.
pub(crate) fn read_rows(
    alloc: Global,
    bytes: &[u8],
    nodes: &[NodeName],
) -> Result<ReadCert, ReadFault<CertRefusal>>
    requires few { length nodes.now ≤ MOST_WRITTEN_NODES }
    ensures kept { IfOk result (λ read. certificate_refusals (named_nodes nodes.now) (lines_cut bytes.now) ≡ []) }
    ensures value { IfOk result (λ read. record { north = read.field.north; east = read.field.east; nodes = map row_written read.rows.items }
        ≡ cert_in (named_nodes nodes.now) (lines_cut bytes.now)) }
    ensures field { IfOk result (λ read. (unsigned_abs read.field.north ≤ MOST_FIELD) × (unsigned_abs read.field.east ≤ MOST_FIELD)) }
    ensures count { IfOk result (λ read. length read.rows.items ≤ length nodes.now) }
    ensures range { IfOk result (λ read. All IsNodeRow read.rows.items) }
    ensures first { IfErr result (TellsFirst (certificate_refusals (named_nodes nodes.now) (lines_cut bytes.now))) }
{
    if bytes.is_empty() {
        return Err(ReadFault::Refused(CertRefusal::Shape { row: 1 }));
    }
    let line = next_line(alloc, bytes)?;
    if !is_only(line.words.as_slice(), b"certificate") {
        return Err(ReadFault::Refused(CertRefusal::Shape { row: 1 }));
    }
    read_second(alloc, line.left, nodes)
}
