//! Raising entries under a cap. Which nodes are looked at out of their order, and how many looks are left for that, saves
//! passes and is promised nowhere.
ghost use Rattle.std.specs.Prelude.{◌≡◌, ◌+◌, ◌<◌, ◌≤◌, ◌↔◌, length, slice_index, slice_set, sum, IsTrue, IsFalse};
ghost use Rattle.gic_net.specs.Net.{standing};
ghost use Rattle.gic_bound.specs.Caps.{cap_entry, IsCapFor, IsUnderCap};
ghost use Rattle.gic_bound.specs.Entries.{AreCapped};
ghost use Rattle.gic_bound.specs.Raising.{IsTooSmall};
ghost use Rattle.gic_bound.specs.Shares.{entries_where_live};
ghost use Rattle.gic_bound.specs.Starting.{IsLeastHeld, IsUnderHeld, KeepsShifts};

use crate::cap::Cap;
use crate::row::meets_row_rule;
use crate::vector::BoundVector;
use gic_base::NodeId;
use gic_base::limits::FULL_WALK;
use gic_model::{Element, End};
use gic_net::Net;

/// How many nodes a pass looks at out of their order, for each node that there is.
const LOOKS: u32 = 8;

/// Raises entries that are too small until none below the cap is. Entries that are at the cap stay, whether they are too
/// small or not. The neighbours of a raised node are looked at next, as far as there is space for those that wait: space
/// for as many as there are nodes serves where little has to be raised, and none where much has.
pub fn raise_under(net: &Net, cap: &Cap, out: &mut BoundVector, waiting: &mut [u16])
    requires { IsUnderCap net.now cap.now out.old }
    ensures least { IsLeastHeld (standing net.now) (slice_index out.old) (cap_entry (standing net.now) cap.now) (slice_index out.new) }
    ensures shifts { KeepsShifts (standing net.now) (slice_index out.old) (slice_index out.new) }
    ensures same_length { length out.new ≡ length out.old }
{
    net.within_limits();
    keeps_full(net, cap);
    while raise_all(net, cap, out, waiting) {}
}

/// Raises each entry that is too small, node by node, and answers whether there was one.
pub fn raise_all(net: &Net, cap: &Cap, out: &mut BoundVector, waiting: &mut [u16]) -> bool
    requires { IsUnderCap net.now cap.now out.old }
    ensures under { IsUnderHeld (standing net.now) (slice_index out.old) (cap_entry (standing net.now) cap.now)
        (slice_index out.new) }
    ensures least { IsFalse result → IsLeastHeld (standing net.now) (slice_index out.old)
        (cap_entry (standing net.now) cap.now) (slice_index out.new) }
    ensures higher { IsTrue result → sum out.old < sum out.new }
    ensures same_length { length out.new ≡ length out.old }
{
    let mut raised = false;
    let mut looks = LOOKS * net.nodes() as u32;
    for node in 0..net.nodes() {
        if raise_if_small(net, cap, out, NodeId(node)) {
            looks = follow(net, cap, out, NodeId(node), waiting, looks);
            raised = true;
        }
    }
    raised
}

/// Raises entries that are too small round a node that was raised, and round those that this raises, as far as there is
/// space for nodes that wait and looks are left. Answers how many are left then.
fn follow(
    net: &Net,
    cap: &Cap,
    out: &mut BoundVector,
    node: NodeId,
    waiting: &mut [u16],
    looks: u32,
) -> u32
    requires under_cap { IsUnderCap net.now cap.now out.old }
    requires node { node.0 < net.now.network.nodes }
    ensures under { IsUnderHeld (standing net.now) (slice_index out.old) (cap_entry (standing net.now) cap.now)
        (slice_index out.new) }
    ensures not_lower { sum out.old ≤ sum out.new }
    ensures same_length { length out.new ≡ length out.old }
{
    if waiting.is_empty() || looks == 0 {
        return looks;
    }
    let last = net.nodes() - 1;
    let mut count = wait_round(net, node, waiting, 0);
    for looked in 0..looks {
        if count == 0 {
            return looks - looked;
        }
        count -= 1;
        let next = NodeId(waiting[count].min(last));
        if raise_if_small(net, cap, out, next) {
            count = wait_round(net, next, waiting, count);
        }
    }
    0
}

/// Raises the entry at a node by 1 if it is too small, and answers whether it was.
#[inline(always)]
fn raise_if_small(net: &Net, cap: &Cap, out: &mut BoundVector, node: NodeId) -> bool
    requires under_cap { IsUnderCap net.now cap.now out.old }
    requires node { node.0 < net.now.network.nodes }
    ensures under { IsUnderHeld (standing net.now) (slice_index out.old) (cap_entry (standing net.now) cap.now)
        (slice_index out.new) }
    ensures small { IsTrue result ↔ IsTooSmall (standing net.now) (cap_entry (standing net.now) cap.now) (slice_index out.old) node.0 }
    ensures higher { IsTrue result → sum out.old < sum out.new }
    ensures same { IsFalse result → out.new ≡ out.old }
    ensures same_length { length out.new ≡ length out.old }
{
    net.within_limits();
    keeps_full(net, cap);
    if !is_too_small(net, cap, out, node) {
        return false;
    }
    raise(out, node);
    true
}

/// Raises the entry at a node by 1.
fn raise(vector: &mut BoundVector, node: NodeId)
    requires node { node.0 < length vector.old }
    requires space { slice_index vector.old node.0 < FULL_WALK }
    ensures { vector.new ≡ slice_set vector.old node.0 (slice_index vector.old node.0 + 1) }
{
    let entry = vector.entry(node);
    vector.set(node, entry + 1);
}

/// Whether the entry at a node is too small.
#[inline(always)]
fn is_too_small(net: &Net, cap: &Cap, vector: &BoundVector, node: NodeId) -> bool
    requires cap { IsCapFor net.now.network.nodes cap.now }
    requires nodes { length vector.now ≡ net.now.network.nodes }
    requires node { node.0 < net.now.network.nodes }
    ensures { IsTrue result ↔ IsTooSmall (standing net.now) (cap_entry (standing net.now) cap.now) (slice_index vector.now) node.0 }
{
    net.live(node)
        && vector.entry(node) < most_at(net, cap, node)
        && !meets_row_rule(net, vector, node)
}

/// The greatest entry that the cap lets a node have.
fn most_at(net: &Net, cap: &Cap, node: NodeId) -> u16
    requires cap { IsCapFor net.now.network.nodes cap.now }
    requires node { node.0 < net.now.network.nodes }
    ensures { result ≡ cap_entry (standing net.now) cap.now node.0 }
{
    match cap {
        Cap::Full => full_where_live(net, node),
        Cap::Entries(vector) => vector.entry(node),
    }
}

/// [`FULL_WALK`] at a live node, and 0 at a dead one.
fn full_where_live(net: &Net, node: NodeId) -> u16
    requires { node.0 < net.now.network.nodes }
    ensures { result ≡ entries_where_live (standing net.now) (λ k. FULL_WALK) node.0 }
{
    if net.live(node) { FULL_WALK } else { 0 }
}

/// No cap lets an entry be above [`FULL_WALK`].
fn keeps_full(net: &Net, cap: &Cap)
    ensures { AreCapped (cap_entry (standing net.now) cap.now) }
{
    match cap {
        Cap::Full => {}
        Cap::Entries(vector) => vector.is_capped(),
    }
}

/// Lets a node and its neighbours wait, as far as there is space behind those that do, and answers how many wait then.
fn wait_round(net: &Net, node: NodeId, waiting: &mut [u16], count: usize) -> usize
    requires node { node.0 < net.now.network.nodes }
    requires count { count ≤ length waiting.old }
    ensures { result ≤ length waiting.new }
{
    let mut many = count;
    for place in 0..net.degree(node) {
        let element = net.element(net.element_at(node, place));
        many = wait(neighbour(node, &element), waiting, many);
    }
    wait(node.0, waiting, many)
}

/// Lets a node wait, if there is space.
fn wait(node: u16, waiting: &mut [u16], count: usize) -> usize
    requires { count ≤ length waiting.old }
    ensures { result ≤ length waiting.new }
{
    if count >= waiting.len() {
        return count;
    }
    waiting[count] = node;
    count + 1
}

/// The node at the other end of an element, and the node itself at an earthing.
fn neighbour(node: NodeId, element: &Element) -> u16 {
    match element.other_end(node) {
        End::Node(other) => other.0,
        End::Earth => node.0,
    }
}
