//! Vectors to start from: the test of a proposed one, and how a capped one sinks.
ghost use Rattle.std.specs.Prelude.{◌≡◌, ℕ, ◌<◌, ◌≤◌, ◌↔◌, length, slice_index, IsTrue};
ghost use Rattle.gic_model.specs.Bound.{IsCappedVector, IsLeastCappedVector};
ghost use Rattle.gic_net.specs.Net.{standing};
ghost use Rattle.gic_bound.specs.Raising.{IsUnderCapped};
ghost use Rattle.gic_bound.specs.Starting.{AreForNodes, IsInRange, lowered, IsSunk, IsHeldAlone};

use crate::cap::Cap;
use crate::laws::starts_law;
use crate::lifting::raise_under;
use crate::vector::BoundVector;
use gic_base::NodeId;
use gic_base::limits::FULL_WALK;
use gic_net::Net;

/// Whether the vector is held alone: whether raising from the vector less 1, with the vector as the cap, leads back to it.
/// The other vector then has what that leads to.
pub fn is_held_alone(
    net: &Net,
    vector: &BoundVector,
    other: &mut BoundVector,
    waiting: &mut [u16],
) -> bool
    requires nodes { AreForNodes net.now.network.nodes vector.now other.old }
    requires range { IsInRange (standing net.now) (slice_index vector.now) }

    // Then it is at no node above any capped vector. Of a vector that is not held alone only this much is known: it is not
    // the least capped one.
    ensures alone { IsTrue result ↔ IsHeldAlone (standing net.now) (slice_index vector.now) }
    ensures under { IsTrue result → IsUnderCapped (standing net.now) (slice_index vector.now) }
    ensures least { IsCappedVector (standing net.now) (slice_index vector.now) →
        (IsTrue result ↔ IsLeastCappedVector (standing net.now) (slice_index vector.now)) }

    ensures sunk { IsSunk (standing net.now) 1 (slice_index vector.now) (slice_index other.new) }
    ensures same_length { length other.new ≡ length other.old }
{
    starts_law();
    net.within_limits();
    sinks_to_itself(net, 1, vector, other, waiting)
}

/// Whether raising from the vector less a step, with the vector as the cap, leads back to it. The other vector then has
/// what that leads to.
pub fn sinks_to_itself(
    net: &Net,
    step: u16,
    vector: &BoundVector,
    other: &mut BoundVector,
    waiting: &mut [u16],
) -> bool
    requires nodes { AreForNodes net.now.network.nodes vector.now other.old }
    requires range { IsInRange (standing net.now) (slice_index vector.now) }
    ensures same { IsTrue result ↔ (other.new ≡ vector.now) }
    ensures sunk { IsSunk (standing net.now) step (slice_index vector.now) (slice_index other.new) }
    ensures same_length { length other.new ≡ length other.old }
{
    other.copy_from(vector);
    lower(net, step, other);
    raise_under(net, &Cap::Entries(vector), other, waiting);
    other.is_same(vector)
}

/// Lowers each entry by a step, though not below 1 at live nodes, and to 0 at dead ones.
pub fn lower(net: &Net, step: u16, out: &mut BoundVector)
    requires { length out.old ≡ net.now.network.nodes }
    ensures lowered { (k : ℕ) → slice_index out.new k ≡ lowered (standing net.now) step (slice_index out.old) k }
    ensures range { IsInRange (standing net.now) (slice_index out.new) }
    ensures same_length { length out.new ≡ length out.old }
{
    out.is_capped();
    for node in 0..net.nodes() {
        let entry = lowered_entry(net, step, out, NodeId(node));
        out.set(NodeId(node), entry);
    }
}

/// What lowering by a step leaves at a node.
fn lowered_entry(net: &Net, step: u16, vector: &BoundVector, node: NodeId) -> u16
    requires nodes { length vector.now ≡ net.now.network.nodes }
    requires node { node.0 < net.now.network.nodes }
    ensures value { result ≡ lowered (standing net.now) step (slice_index vector.now) node.0 }
    ensures capped { result ≤ FULL_WALK }
{
    if net.live(node) {
        vector.entry(node).saturating_sub(step).max(1)
    } else {
        0
    }
}

/// Makes the entries 1 at live nodes and 0 at dead ones.
pub fn begin(net: &Net, out: &mut BoundVector)
    requires { length out.old ≡ net.now.network.nodes }
    ensures under { IsUnderCapped (standing net.now) (slice_index out.new) }
    ensures same_length { length out.new ≡ length out.old }
{
    for node in 0..net.nodes() {
        let entry = if net.live(NodeId(node)) { 1 } else { 0 };
        out.set(NodeId(node), entry);
    }
}
