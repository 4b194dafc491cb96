//! Corners of the ranges of grounds.
ghost use Rattle.std.specs.Prelude.{ℕ, ◌≡◌, ◌<◌, length};
ghost use Rattle.gic_enclose.specs.Ends.{potential_ends};
ghost use Rattle.gic_fixed.specs.Ends.{ends_of};
ghost use Rattle.gic_grounds.specs.Corner.{is_most_at, is_above_0, is_most_for};

use crate::extreme::Extreme;
use crate::node_intervals::NodeIntervals;
use gic_base::{NodeId, OutOfMemory};
use gic_fixed::Interval;
use std::alloc::Global;
use std::marker::Model;

/// A corner of the ranges of grounds: the nodes whose grounds are at their greatest resistances. All others are at their
/// least.
pub struct Corner {
    marks: Vec<bool>,
}

impl Model for Corner {
    ghost use Rattle.std.specs.Prelude.{List, Bool};

    ghost Value = { List Bool };

    ghost view = { λ c. c.marks.items };
}

impl Drop for Corner {
    /// Lets go of everything, in one step for whoever drops it.
    fn drop(self) {
        let Corner { marks: _marks } = self;
    }
}

impl Corner {
    ghost use Rattle.std.specs.Prelude.{◌≡◌, ◌<◌, false, [], length, replicate, slice_set, IfOk};
    ghost use Rattle.gic_grounds.specs.Corner.{is_most_at};

    /// The corner where all grounds are at their least.
    pub(crate) fn all_least(alloc: Global) -> Corner
        ensures { result ≡ [] }
    {
        Corner {
            marks: Vec::new(alloc),
        }
    }

    /// The same, with a mark for each of so many nodes.
    pub(crate) fn new(alloc: Global, nodes: u16) -> Result<Corner, OutOfMemory>
        ensures { IfOk result (λ corner. corner ≡ replicate nodes false) }
    {
        let marks = vec![in alloc; false; nodes as usize]?;
        Ok(Corner { marks })
    }

    /// Whether the grounds of a node are at their greatest.
    pub(crate) fn is_most(&self, node: NodeId) -> bool
        ensures { result ≡ is_most_at self.now node.0 }
    {
        match self.marks.get(node.0 as usize) {
            Some(mark) => *mark,
            None => false,
        }
    }

    /// Says of a node whether its grounds are at their greatest.
    fn set(&mut self, node: NodeId, is_most: bool)
        requires { node.0 < length self.old }
        ensures { self.new ≡ slice_set self.old node.0 is_most }
    {
        self.marks[node.0 as usize] = is_most;
    }
}

/// Whether an interval reaches above 0.
fn is_above_0(interval: &Interval) -> bool
    ensures { result ≡ is_above_0 (ends_of interval.now) }
{
    interval.hi > 0
}

/// Whether a ground at a node with these adjoint and reference potentials is to be at its greatest resistance for this extreme
/// of a transformer's current.
fn is_most_for(extreme: Extreme, adjoint: &Interval, reference: &Interval) -> bool
    ensures { result ≡ is_most_for extreme (ends_of adjoint.now) (ends_of reference.now) }
{
    let adds = is_above_0(adjoint) == is_above_0(reference);
    match extreme {
        Extreme::Least => adds,
        Extreme::Most => !adds,
    }
}

/// Leaves the corner where a transformer's current is the least, or the greatest, as far as the signs of its adjoint
/// potentials and of a reference's tell.
pub(crate) fn choose_corner(
    adjoint: &NodeIntervals,
    reference: &NodeIntervals,
    extreme: Extreme,
    out: &mut Corner,
)
    requires adjoint { length adjoint.now ≡ length out.old }
    requires reference { length reference.now ≡ length out.old }
    ensures each { (k : ℕ) → k < length out.old →
        is_most_at out.new k ≡ is_most_for extreme (potential_ends adjoint.now k) (potential_ends reference.now k) }
    ensures count { length out.new ≡ length out.old }
{
    for node in 0..adjoint.nodes() {
        let node = NodeId(node);
        let is_most = is_most_for(extreme, &adjoint.get(node), &reference.get(node));
        out.set(node, is_most);
    }
}
