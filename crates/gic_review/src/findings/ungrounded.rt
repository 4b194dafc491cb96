//! Substations without a ground, to which windings run.
ghost use Rattle.std.specs.Prelude.{◌≡◌, ◌<◌, ◌≤◌, ◌==◌, ◌++◌, ◌||◌, ℕ, false, length, slice_index_or, IfOk, OnOk};
ghost use Rattle.gic_model.specs.Network.{is_node};
ghost use Rattle.gic_model.specs.Limits.{IsElementWithin, IsEndWithin};
ghost use Rattle.gic_review.specs.Ungrounded.{is_of_transformer, is_end_of, is_winding_end, ungrounded_told, ungrounded_of};

use crate::findings::finding::Finding;
use gic_base::{NodeId, OutOfMemory};
use gic_case::{Case, Substation};
use gic_model::{Element, Elements, End, Item};
use std::alloc::Global;

/// Whether an element is a winding or a neutral resistor.
fn is_of_transformer(item: Item) -> bool
    ensures { result ≡ is_of_transformer item }
{
    match item {
        Item::Ground(_) | Item::Line(_) => false,
        Item::Transformer(_) | Item::Neutral(_) => true,
    }
}

/// Marks a node.
fn mark(marks: &mut [bool], node: NodeId)
    requires { node.0 < length marks.old }
    ensures count { length marks.new ≡ length marks.old }
    ensures marked { (k : ℕ) → k < length marks.old →
        slice_index_or marks.new k false ≡ (slice_index_or marks.old k false || (node.0 == k)) }
{
    marks[node.0 as usize] = true;
}

/// Marks an end, if it is a node.
fn mark_end(marks: &mut [bool], end: End)
    requires { IsEndWithin (length marks.old) end }
    ensures count { length marks.new ≡ length marks.old }
    ensures marked { (k : ℕ) → k < length marks.old →
        slice_index_or marks.new k false ≡ (slice_index_or marks.old k false || is_node end k) }
{
    let End::Node(node) = end else {
        return;
    };
    mark(marks, node);
}

/// Marks the ends of a winding or of a neutral resistor.
fn mark_winding(marks: &mut [bool], element: &Element)
    requires { IsElementWithin (length marks.old) element.now }
    ensures count { length marks.new ≡ length marks.old }
    ensures marked { (k : ℕ) → k < length marks.old →
        slice_index_or marks.new k false ≡ (slice_index_or marks.old k false || is_end_of element.now k) }
{
    if !is_of_transformer(element.item) {
        return;
    }
    mark(marks, element.from);
    mark_end(marks, element.to);
}

/// For each node whether a winding or a neutral resistor ends there.
fn winding_ends(alloc: Global, elements: &Elements) -> Result<Vec<bool>, OutOfMemory>
    ensures count { IfOk result (λ v. length v.items ≡ elements.now.nodes) }
    ensures marked { IfOk result (λ v. (k : ℕ) → k < elements.now.nodes →
        slice_index_or v.items k false ≡ is_winding_end elements.now.list k) }
{
    let mut marks = vec![in alloc; false; elements.nodes() as usize]?;
    for element in elements.list() {
        mark_winding(&mut marks, element);
    }
    Ok(marks)
}

/// Adds the substation where it has no ground, and a winding or a neutral resistor ends at its node.
fn push_if_ungrounded(
    findings: &mut Vec<Finding>,
    substation: &Substation,
    is_end: bool,
) -> Result<(), OutOfMemory>
    ensures { OnOk result (findings.new.items ≡ findings.old.items ++ ungrounded_told substation.now is_end) }
{
    if substation.ground.is_none() && is_end {
        let name = substation.name;
        findings.push(Finding::Ungrounded { name })?;
    }
    Ok(())
}

/// Adds the substations without a ground at whose nodes a winding or a neutral resistor ends.
pub(crate) fn push_ungrounded(
    alloc: Global,
    findings: &mut Vec<Finding>,
    case: &Case,
    elements: &Elements,
) -> Result<(), OutOfMemory>
    requires { length case.now.substations ≤ elements.now.nodes }
    ensures { OnOk result (findings.new.items ≡ findings.old.items ++ ungrounded_of case.now.substations elements.now.list) }
{
    let ends = winding_ends(alloc, elements)?;
    for (node, substation) in case.substations().iter().enumerate() {
        push_if_ungrounded(findings, substation, ends[node])?;
    }
    Ok(())
}
