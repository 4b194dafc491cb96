//! Nodes that elements join. Each node points at one that belongs to it and comes no later; the node at which the pointers
//! end is the first of those that belong together.
ghost use Rattle.std.specs.Prelude.{◌≡◌, ◌<◌, ◌≤◌, ℕ, List, length, slice_index, fold, IfOk, All};
ghost use Rattle.std.specs.List.{range_with_len};
ghost use Rattle.gic_base.specs.declared.limits.TheConstants.{MOST_NODES};
ghost use Rattle.gic_model.specs.Limits.{IsElementWithin};
ghost use Rattle.gic_review.specs.Union.{ArePointers, LeadTo, united, firsts_with, firsts_of};

use gic_base::OutOfMemory;
use gic_model::{Element, Elements, End};
use std::alloc::Global;

/// The node at which the pointers from a node end.
fn first_of(pointers: &[u16], node: u16) -> u16
    requires node { node < length pointers.now }
    requires pointers { ArePointers pointers.now }
    ensures before { result ≤ node }
    ensures itself { slice_index pointers.now result ≡ result }
    ensures first { (firsts : List ℕ) → LeadTo pointers.now firsts → result ≡ slice_index firsts node }
{
    let mut at = node;
    while pointers[at as usize] != at {
        at = pointers[at as usize];
    }
    at
}

/// Joins what belongs to two nodes, and points both at the first of all.
fn unite(pointers: &mut [u16], one: u16, other: u16)
    requires one { one < length pointers.old }
    requires other { other < length pointers.old }
    requires pointers { ArePointers pointers.old }
    ensures count { length pointers.new ≡ length pointers.old }
    ensures pointers { ArePointers pointers.new }
    ensures united { (firsts : List ℕ) → LeadTo pointers.old firsts → LeadTo pointers.new (united firsts one other) }
{
    let a = first_of(pointers, one);
    let b = first_of(pointers, other);
    let first = a.min(b);
    pointers[a.max(b) as usize] = first;
    pointers[one as usize] = first;
    pointers[other as usize] = first;
}

/// Joins what belongs to the two nodes of an element.
fn unite_ends(pointers: &mut [u16], element: &Element)
    requires element { IsElementWithin (length pointers.old) element.now }
    requires pointers { ArePointers pointers.old }
    ensures count { length pointers.new ≡ length pointers.old }
    ensures pointers { ArePointers pointers.new }
    ensures united { (firsts : List ℕ) → LeadTo pointers.old firsts → LeadTo pointers.new (firsts_with firsts element.now) }
{
    let End::Node(node) = element.to else {
        return;
    };
    unite(pointers, element.from.0, node.0);
}

/// Points each node at the first of those that belong to it.
fn point_at_firsts(pointers: &mut [u16])
    requires pointers { ArePointers pointers.old }
    ensures count { length pointers.new ≡ length pointers.old }
    ensures pointers { ArePointers pointers.new }
    ensures firsts { (firsts : List ℕ) → LeadTo pointers.old firsts → pointers.new ≡ firsts }
{
    for node in 0..pointers.len() {
        let next = pointers[node];
        pointers[node] = pointers[next as usize];
    }
}

/// Each node on its own.
fn own_pointers(alloc: Global, nodes: u16) -> Result<Vec<u16>, OutOfMemory>
    ensures { IfOk result (λ v. v.items ≡ range_with_len 0 nodes) }
{
    let mut pointers = Vec::new(alloc);
    for node in 0..nodes {
        pointers.push(node)?;
    }
    Ok(pointers)
}

/// Joins what belongs to the nodes of each element.
fn unite_all(pointers: &mut [u16], elements: &Elements)
    requires { pointers.old ≡ range_with_len 0 elements.now.nodes }
    ensures pointers { ArePointers pointers.new }
    ensures firsts { LeadTo pointers.new (firsts_of elements.now) }
{
    for element in elements.list() {
        unite_ends(pointers, element);
    }
}

/// Points each node at the first of those that belong together with it.
fn find_firsts(pointers: &mut [u16], elements: &Elements)
    requires { pointers.old ≡ range_with_len 0 elements.now.nodes }
    ensures firsts { pointers.new ≡ firsts_of elements.now }
    ensures pointers { ArePointers pointers.new }
{
    unite_all(pointers, elements);
    point_at_firsts(pointers);
}

/// For each node the first of those that belong together with it.
pub(crate) fn firsts(alloc: Global, elements: &Elements) -> Result<Vec<u16>, OutOfMemory>
    ensures firsts { IfOk result (λ v. v.items ≡ firsts_of elements.now) }
    ensures few { IfOk result (λ v. length v.items ≤ MOST_NODES) }
    ensures inside { IfOk result (λ v. All (λ first. first < length v.items) v.items) }
{
    let mut pointers = own_pointers(alloc, elements.nodes())?;
    find_firsts(&mut pointers, elements);
    Ok(pointers)
}
