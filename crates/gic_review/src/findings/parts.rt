//! The parts of a network.
ghost use Rattle.std.specs.Prelude.{◌≡◌, ◌<◌, ◌≤◌, ◌++◌, length, All, IfOk, OnOk, map, ℕ, slice_index, count_by, ◌==◌};
ghost use Rattle.gic_base.specs.declared.limits.TheConstants.{MOST_NODES};
ghost use Rattle.gic_case.specs.Lists.{node_names};
ghost use Rattle.gic_review.specs.Parts.{part_told, parts_told, are_several, findings_of_parts, ArePartSizes};
ghost use Rattle.gic_review.specs.PartSizes.{times_first, part_size, sizes_by, sizes_of};

use crate::findings::finding::Finding;
use crate::findings::union::firsts;
use gic_base::{Name, OutOfMemory};
use gic_case::{Case, NodeNames};
use gic_model::Elements;
use std::alloc::Global;

/// For each node how many nodes have it as their first.
fn counts(alloc: Global, firsts: &[u16]) -> Result<Vec<u16>, OutOfMemory>
    requires few { length firsts.now ≤ MOST_NODES }
    requires inside { All (λ first. first < length firsts.now) firsts.now }
    ensures count { IfOk result (λ v. length v.items ≡ length firsts.now) }
    ensures counted { IfOk result (λ v. (k : ℕ) → k < length firsts.now → slice_index v.items k ≡ times_first firsts.now k) }
{
    let mut counts = vec![in alloc; 0u16; firsts.len()]?;
    for first in firsts {
        counts[*first as usize] += 1;
    }
    Ok(counts)
}

/// The size of the part whose first node is that of this many nodes: a node that nothing is joined to is no part.
fn part_size(count: u16) -> u16
    ensures { result ≡ part_size count }
{
    if count >= 2 { count } else { 0 }
}

/// Takes the counts to the sizes of parts.
fn size_parts(counts: &mut [u16])
    ensures { counts.new ≡ map part_size counts.old }
{
    for count in counts.iter_mut() {
        *count = part_size(*count);
    }
}

/// For each node how many nodes the part has whose first node it is, and 0 where it is no such node.
fn sizes(alloc: Global, firsts: &[u16]) -> Result<Vec<u16>, OutOfMemory>
    requires few { length firsts.now ≤ MOST_NODES }
    requires inside { All (λ first. first < length firsts.now) firsts.now }
    ensures { IfOk result (λ v. v.items ≡ sizes_by firsts.now) }
{
    let mut sizes = counts(alloc, firsts)?;
    size_parts(&mut sizes);
    Ok(sizes)
}

/// Adds the part of which this is the first node, if it is one.
fn push_part(findings: &mut Vec<Finding>, first: Name, nodes: u16) -> Result<(), OutOfMemory>
    ensures { OnOk result (findings.new.items ≡ findings.old.items ++ part_told first nodes) }
{
    if nodes != 0 {
        findings.push(Finding::Part { nodes, first })?;
    }
    Ok(())
}

/// Adds each part.
fn push_each_part(
    findings: &mut Vec<Finding>,
    case: &Case,
    sizes: &[u16],
) -> Result<(), OutOfMemory>
    ensures { OnOk result (findings.new.items ≡ findings.old.items ++ parts_told (node_names case.now) sizes.now) }
{
    for (name, size) in NodeNames::of(case).zip(sizes) {
        push_part(findings, name, *size)?;
    }
    Ok(())
}

/// Whether there is more than one part.
fn are_several(sizes: &[u16]) -> bool
    ensures { result ≡ are_several sizes.now }
{
    sizes.iter().filter(|size| **size != 0).count() >= 2
}

/// Adds the parts of the network, where there is more than one.
pub(crate) fn push_parts(
    alloc: Global,
    findings: &mut Vec<Finding>,
    case: &Case,
    elements: &Elements,
) -> Result<(), OutOfMemory>
    ensures { OnOk result (findings.new.items ≡ findings.old.items ++ findings_of_parts (node_names case.now) (sizes_of elements.now)) }
{
    let firsts = firsts(alloc, elements)?;
    let sizes = sizes(alloc, &firsts)?;
    if !are_several(&sizes) {
        return Ok(());
    }
    push_each_part(findings, case, &sizes)
}
