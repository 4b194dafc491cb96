//! A vector that is proposed: a multiple of the real one for which each node's row carries its conductance.
ghost use Rattle.std.specs.Prelude.{◌≡◌, ◌<◌, ◌≤◌, ◌*◌, ◌^◌, length};
ghost use Rattle.gic_stand.specs.ForNodes.{IsStartForNodes};

use crate::start::Start;
use gic_base::NodeId;
use gic_base::limits::{FULL_WALK, MOST_WALK};
use gic_bound::BoundVector;
use gic_net::Net;
use gic_precondition::RoughSolver;
use gic_sweep::conductance;

/// To how many bits the real vector is found.
const REAL_BITS: u32 = 10;

/// A unit of a node's conductance, 2^-20 siemens, is 2 to this many of those that potentials are over, 2^-36 siemens.
const UNIT_BITS: u32 = 16;

/// The bits of a real entry behind its point.
const POINT_BITS: u32 = 8;

/// Entries are worked out in units of one over this.
const PARTS: u32 = 1 << POINT_BITS;

/// The greatest real entry that is told apart, in parts.
const MOST_PARTS: u32 = FULL_WALK as u32 * PARTS;

/// Proposes a bound vector. Nothing is known of it but that it has as many entries.
pub(crate) fn propose(net: &Net, out: &mut BoundVector, start: &mut Start)
    requires { IsStartForNodes net.now.network.nodes out.old start.old }
    ensures { IsStartForNodes net.now.network.nodes out.new start.new }
{
    start.rough_solver.arrange(net);
    put_conductances(net, start.conductances.as_mut_slice());
    start
        .rough_solver
        .balance(start.conductances.as_slice(), REAL_BITS);
    put_entries(net.nodes(), &start.rough_solver, out);
}

/// Puts the conductance of each node, in units of 2^-20 siemens.
fn put_conductances(net: &Net, conductances: &mut [i128])
    requires { length conductances.old ≡ net.now.network.nodes }
{
    for node in 0..net.nodes() {
        conductances[node as usize] = conductance(net, NodeId(node)) as i128;
    }
}

/// Puts the multiple of the real entries whose greatest one is aimed at, each rounded up.
fn put_entries(nodes: u16, rough_solver: &RoughSolver, out: &mut BoundVector)
    requires potentials { rough_solver.now ≡ nodes }
    requires entries { length out.old ≡ nodes }
    ensures { length out.new ≡ length out.old }
{
    let most = most_parts(nodes, rough_solver);
    let aim = aim_for(most);
    for node in 0..nodes {
        let parts = parts_at(rough_solver, NodeId(node));
        out.set(NodeId(node), entry_of(parts, aim, most));
    }
}

/// The greatest real entry, in parts.
fn most_parts(nodes: u16, rough_solver: &RoughSolver) -> u32
    requires { rough_solver.now ≡ nodes }
    ensures { result ≤ MOST_PARTS }
{
    let mut most = 0;
    for node in 0..nodes {
        most = most.max(parts_at(rough_solver, NodeId(node)));
    }
    most
}

/// The real entry at a node, in parts.
fn parts_at(rough_solver: &RoughSolver, node: NodeId) -> u32
    requires { node.0 < rough_solver.now }
    ensures { result ≤ MOST_PARTS }
{
    let parts = rough_solver.potential(node, UNIT_BITS + POINT_BITS);
    parts.max(0).min(MOST_PARTS as i128) as u32
}

/// What the greatest real entry is to become, in parts: twice as much, so that rounding breaks no row; but where that is
/// near [`MOST_WALK`], a quarter of what is left up to there stays free for rows that fail all the same.
fn aim_for(most: u32) -> u32
    requires { most ≤ MOST_PARTS }
{
    (2 * most).min((most + 3 * MOST_WALK as u32 * PARTS) / 4)
}

/// The entry for a real one of a given number of parts.
fn entry_of(parts: u32, aim: u32, most: u32) -> u16
    ensures { result ≤ FULL_WALK }
{
    let whole = PARTS as u64 * most.max(1) as u64;
    let entry = (parts as u64 * aim as u64).div_ceil(whole);
    entry.min(FULL_WALK as u64) as u16
}
