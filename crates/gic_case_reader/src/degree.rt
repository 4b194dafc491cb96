//! The nodes at which elements end.
ghost use Rattle.std.specs.Prelude.{◌≡◌, ℕ, ◌<◌, ◌^◌, ◌++◌, OnOk, IfOk, length, slice_index, vec_len};
ghost use Rattle.gic_base.specs.Refusals.{AnswersRead, settle};
ghost use Rattle.gic_case.specs.Lists.{earthing_ends, line_ends, transformer_ends, element_ends, degree_of};
ghost use Rattle.gic_case_reader.specs.Rules.{breaks_degree};

use crate::ends::{push_device_ends, push_winding_ends};
use crate::refusal::CaseRefusal;
use gic_base::limits::MOST_AT_A_NODE;
use gic_base::{NodeId, ReadFault};
use gic_case::{CaseLists, Line, Substation};
use std::alloc::{AllocError, Global};

/// Adds the nodes at which the earthings end.
fn push_earthing_ends(ends: &mut Vec<u32>, substations: &[Substation]) -> Result<(), AllocError>
    requires { length substations.now < 2 ^ 16 }
    ensures { OnOk result (ends.new.items ≡ ends.old.items ++ earthing_ends substations.now) }
{
    for (node, substation) in substations.iter().enumerate() {
        if substation.ground.is_some() {
            ends.push(node as u32)?;
        }
    }
    Ok(())
}

/// Adds the nodes at which the lines end, where the buses follow the node `first_bus - 1`.
fn push_line_ends(ends: &mut Vec<u32>, first_bus: u32, lines: &[Line]) -> Result<(), AllocError>
    requires { first_bus < 2 ^ 16 }
    ensures { OnOk result (ends.new.items ≡ ends.old.items ++ line_ends first_bus lines.now) }
{
    for line in lines {
        if !line.blocked {
            ends.push(first_bus + u32::from(line.from))?;
            ends.push(first_bus + u32::from(line.to))?;
        }
    }
    Ok(())
}

/// Adds the nodes at which the windings and the neutral resistors of the transformers end.
fn push_transformer_ends(
    alloc: Global,
    ends: &mut Vec<u32>,
    network: &CaseLists,
) -> Result<(), AllocError>
    ensures { OnOk result (ends.new.items ≡ ends.old.items ++ transformer_ends network.now) }
{
    let first_bus = network.substations.len() as u32;
    let neutrals = network.neutrals(alloc)?;
    push_winding_ends(ends, first_bus, neutrals.as_slice())?;
    push_device_ends(ends, network.buses.as_slice(), neutrals.as_slice())?;
    Ok(())
}

/// The nodes at which the elements end, a node once for each end.
#[tactic(auto, unfolding(gic_case::specs::Lists::element_ends))]
fn element_ends(alloc: Global, network: &CaseLists) -> Result<Vec<u32>, AllocError>
    ensures ends { IfOk result (λ v. v.items ≡ element_ends network.now) }
    ensures few { IfOk result (λ v. vec_len v < 2 ^ 32) }
{
    let mut ends = Vec::new(alloc);
    push_earthing_ends(&mut ends, network.substations.as_slice())?;
    let first_bus = network.substations.len() as u32;
    push_line_ends(&mut ends, first_bus, network.lines.as_slice())?;
    push_transformer_ends(alloc, &mut ends, network)?;
    Ok(ends)
}

/// How many of the ends are at each node.
fn degrees(alloc: Global, nodes: usize, ends: &[u32]) -> Result<Vec<u32>, AllocError>
    requires { length ends.now < 2 ^ 32 }
    ensures count { IfOk result (λ v. vec_len v ≡ nodes) }
    ensures degrees { IfOk result (λ v. (k : ℕ) → k < nodes → slice_index v.items k ≡ degree_of ends.now k) }
{
    let mut counts = vec![in alloc; 0u32; nodes]?;
    for end in ends {
        let node = *end as usize;
        if node < counts.len() {
            counts[node] += 1;
        }
    }
    Ok(counts)
}

/// Whether at most [`MOST_AT_A_NODE`] elements end at each node.
pub(crate) fn few_ends(alloc: Global, network: &CaseLists) -> Result<(), ReadFault<CaseRefusal>>
    ensures { AnswersRead (λ u. u) result (settle (breaks_degree network.now) (tt {0})) }
{
    let ends = element_ends(alloc, network)?;
    let nodes = network.node_count();
    let counts = degrees(alloc, usize::from(nodes), ends.as_slice())?;
    for (node, count) in counts.iter().enumerate() {
        if *count as usize > MOST_AT_A_NODE {
            let node = network.node_name(NodeId(node as u16));
            return Err(ReadFault::Refused(CaseRefusal::Degree { node }));
        }
    }
    Ok(())
}
