//! The least capped vector, or some bound vector, by raising entries that are too small.
ghost use Rattle.std.specs.Prelude.{◌≡◌, ℕ, ◌≤◌, ◌↔◌, length, slice_index, IsTrue, IsOk, OnOk, OnErr, IfErr, IfNone, IfSome};
ghost use Rattle.gic_model.specs.Bound.{IsCappedVector, IsEarthedWithin, IsLeastCappedVector};
ghost use Rattle.gic_net.specs.Net.{standing};
ghost use Rattle.gic_bound.specs.Entries.{IsBoundWithin, IsFirstFull};
ghost use Rattle.gic_bound.specs.Raising.{IsUnderCapped};
ghost use Rattle.gic_bound.specs.Starting.{AreForNodes};

use crate::cap::Cap;
use crate::laws::least_capped_vector_law;
use crate::lifting::{raise_all, raise_under};
use crate::starting::{begin, is_held_alone, lower, sinks_to_itself};
use crate::vector::BoundVector;
use crate::workspace::Workspace;
use gic_base::NodeId;
use gic_base::limits::{FULL_WALK, MOST_WALK};
use gic_net::Net;

/// How many passes a vector that is only proposed is raised before it is given up.
const MOST_PASSES: u32 = 256;

/// How often a vector that is only proposed, or is capped, is sunk before that is given up.
const MOST_SINKINGS: u32 = 32;

/// The greatest step by which a capped vector is sunk.
const MOST_STEP: u16 = 8;

/// The first node, in node order, at which the least capped vector has the entry [`FULL_WALK`]: every bound vector is
/// above [`MOST_WALK`] there.
#[derive(Clone, Copy, PartialEq, Eq, Debug)]
pub struct Unresolved {
    pub node: NodeId,
}

/// Makes the vector the least capped vector of the net, whatever it was before, and refuses exactly where the network
/// is not earthed within [`MOST_WALK`]. The vector is for as many nodes as the net has.
pub fn bound(net: &Net, out: &mut BoundVector) -> Result<(), Unresolved>
    requires { length out.old ≡ net.now.network.nodes }
    ensures least { IsLeastCappedVector (standing net.now) (slice_index out.new) }
    ensures earthed { IsOk result ↔ IsEarthedWithin (standing net.now) MOST_WALK }
    ensures bound { OnOk result (IsBoundWithin (standing net.now) MOST_WALK (slice_index out.new)) }
    ensures first { IfErr result (λ refusal. IsFirstFull (slice_index out.new) refusal.node.0) }
    ensures same_length { length out.new ≡ length out.old }
{
    raise_from_1(net, out);
    told(net, out)
}

/// As [`bound`], with what the vector was before as a proposal: the nearer that is to the least capped vector, the less
/// there is to do. Where it doesn't serve, raising begins at 1, as in [`bound`]. The vector and the workspace are for
/// as many nodes as the net has.
pub fn bound_from(
    net: &Net,
    out: &mut BoundVector,
    workspace: &mut Workspace,
) -> Result<(), Unresolved>
    requires nodes { length out.old ≡ net.now.network.nodes }
    requires workspace { workspace.old ≡ net.now.network.nodes }
    ensures least { IsLeastCappedVector (standing net.now) (slice_index out.new) }
    ensures earthed { IsOk result ↔ IsEarthedWithin (standing net.now) MOST_WALK }
    ensures bound { OnOk result (IsBoundWithin (standing net.now) MOST_WALK (slice_index out.new)) }
    ensures first { IfErr result (λ refusal. IsFirstFull (slice_index out.new) refusal.node.0) }
    ensures same_length { length out.new ≡ length out.old }
    ensures same_workspace { workspace.new ≡ workspace.old }
{
    raise_proposed(
        net,
        out,
        &mut workspace.vector,
        workspace.waiting.as_mut_slice(),
    );
    told(net, out)
}

/// Makes the vector a bound vector of the net without an entry above [`MOST_WALK`], where there is one, by raising what
/// it was; else the least capped vector. Where what it was doesn't serve, raising begins at 1, as in [`bound`], and
/// where it holds nothing of use, [`bound`] is the better call. The vector and the workspace are for as many nodes as
/// the net has.
pub fn some_bound(
    net: &Net,
    out: &mut BoundVector,
    workspace: &mut Workspace,
) -> Result<(), Unresolved>
    requires nodes { length out.old ≡ net.now.network.nodes }
    requires workspace { workspace.old ≡ net.now.network.nodes }
    ensures earthed { IsOk result ↔ IsEarthedWithin (standing net.now) MOST_WALK }
    ensures bound { OnOk result (IsBoundWithin (standing net.now) MOST_WALK (slice_index out.new)) }
    ensures least { OnErr result (IsLeastCappedVector (standing net.now) (slice_index out.new)) }
    ensures first { IfErr result (λ refusal. IsFirstFull (slice_index out.new) refusal.node.0) }
    ensures same_length { length out.new ≡ length out.old }
    ensures same_workspace { workspace.new ≡ workspace.old }
{
    raise_to_capped(net, out, workspace.waiting.as_mut_slice());
    if is_below_full(net, out) {
        return Ok(());
    }
    sink(
        net,
        out,
        &mut workspace.vector,
        workspace.waiting.as_mut_slice(),
    );
    told(net, out)
}

/// Makes a capped vector the least one, by sinking it; where [`MOST_SINKINGS`] times don't get there, raising begins at 1.
/// The other vector is workspace.
fn sink(net: &Net, out: &mut BoundVector, other: &mut BoundVector, waiting: &mut [u16])
    requires nodes { AreForNodes net.now.network.nodes out.old other.old }
    requires capped { IsCappedVector (standing net.now) (slice_index out.old) }
    ensures least { IsLeastCappedVector (standing net.now) (slice_index out.new) }
    ensures nodes { AreForNodes net.now.network.nodes out.new other.new }
{
    net.within_limits();
    let mut step = 1;
    for _ in 0..MOST_SINKINGS {
        if sinks_to_itself(net, step, out, other, waiting) {
            return;
        }
        out.copy_from(other);
        step = (2 * step).min(MOST_STEP);
    }
    raise_from_1(net, out);
}

/// Makes a vector of any entries the least capped one: it sinks by 1 until it is one to start from, and then it is raised.
/// Where it isn't one in [`MOST_SINKINGS`] tests, raising begins at 1. The other vector is workspace.
fn raise_proposed(net: &Net, out: &mut BoundVector, other: &mut BoundVector, waiting: &mut [u16])
    requires { AreForNodes net.now.network.nodes out.old other.old }
    ensures least { IsLeastCappedVector (standing net.now) (slice_index out.new) }
    ensures nodes { AreForNodes net.now.network.nodes out.new other.new }
{
    lower(net, 0, out);
    for _ in 0..MOST_SINKINGS {
        if is_held_alone(net, out, other, waiting) {
            raise_fully(net, out, waiting);
            return;
        }
        out.copy_from(other);
    }
    raise_from_1(net, out);
}

/// Makes a vector of any entries a capped one, by raising it; where [`MOST_PASSES`] passes don't get there, raising
/// begins at 1.
fn raise_to_capped(net: &Net, out: &mut BoundVector, waiting: &mut [u16])
    requires { length out.old ≡ net.now.network.nodes }
    ensures capped { IsCappedVector (standing net.now) (slice_index out.new) }
    ensures same_length { length out.new ≡ length out.old }
{
    lower(net, 0, out);
    for _ in 0..MOST_PASSES {
        if !raise_all(net, &Cap::Full, out, waiting) {
            return;
        }
    }
    raise_from_1(net, out);
}

/// Makes the vector the least capped one, by raising from 1 at live nodes.
fn raise_from_1(net: &Net, out: &mut BoundVector)
    requires { length out.old ≡ net.now.network.nodes }
    ensures least { IsLeastCappedVector (standing net.now) (slice_index out.new) }
    ensures same_length { length out.new ≡ length out.old }
{
    begin(net, out);
    raise_fully(net, out, &mut []);
}

/// Raises a vector that is at no node above any capped one to the least capped one.
fn raise_fully(net: &Net, out: &mut BoundVector, waiting: &mut [u16])
    requires nodes { length out.old ≡ net.now.network.nodes }
    requires under { IsUnderCapped (standing net.now) (slice_index out.old) }
    ensures least { IsLeastCappedVector (standing net.now) (slice_index out.new) }
    ensures same_length { length out.new ≡ length out.old }
{
    raise_under(net, &Cap::Full, out, waiting);
}

/// What the least capped vector tells: whether the network is earthed within [`MOST_WALK`], and else where it is not.
fn told(net: &Net, vector: &BoundVector) -> Result<(), Unresolved>
    requires nodes { length vector.now ≡ net.now.network.nodes }
    requires least { IsLeastCappedVector (standing net.now) (slice_index vector.now) }
    ensures earthed { IsOk result ↔ IsEarthedWithin (standing net.now) MOST_WALK }
    ensures bound { OnOk result (IsBoundWithin (standing net.now) MOST_WALK (slice_index vector.now)) }
    ensures first { IfErr result (λ refusal. IsFirstFull (slice_index vector.now) refusal.node.0) }
{
    least_capped_vector_law();
    net.within_limits();
    match first_full(net, vector) {
        Some(node) => Err(Unresolved { node }),
        None => Ok(()),
    }
}

/// Whether a capped vector is a bound vector, which it is where no entry is [`FULL_WALK`].
fn is_below_full(net: &Net, vector: &BoundVector) -> bool
    requires nodes { length vector.now ≡ net.now.network.nodes }
    requires capped { IsCappedVector (standing net.now) (slice_index vector.now) }
    ensures { IsTrue result ↔ IsBoundWithin (standing net.now) MOST_WALK (slice_index vector.now) }
{
    first_full(net, vector).is_none()
}

/// The first node with the entry [`FULL_WALK`].
fn first_full(net: &Net, vector: &BoundVector) -> Option<NodeId>
    requires { length vector.now ≡ net.now.network.nodes }
    ensures none { IfNone result ((k : ℕ) → slice_index vector.now k ≤ MOST_WALK) }
    ensures first { IfSome result (λ node. IsFirstFull (slice_index vector.now) node.0) }
{
    for node in 0..net.nodes() {
        if vector.entry(NodeId(node)) == FULL_WALK {
            return Some(NodeId(node));
        }
    }
    None
}
