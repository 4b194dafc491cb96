//! What a reference at a corner of the ranges of grounds is solved in.
ghost use Rattle.std.specs.Prelude.{◌≡◌, IfOk};
ghost use Rattle.gic_fixed.specs.Ends.{ends_of};
ghost use Rattle.gic_grounds.specs.Varied.{IsNewCornerWorkspace};
ghost use Rattle.gic_grounds.specs.VariedCurrent.{common};

use crate::corner::Corner;
use crate::node_intervals::NodeIntervals;
use crate::reference::{Reference, new_reference};
use gic_base::OutOfMemory;
use gic_fixed::Interval;
use gic_net::Net;
use std::alloc::Global;

/// A net whose grounds are at a corner of their ranges, a reference there in one field, and adjoint potentials of one
/// transformer.
pub struct CornerWorkspace {
    /// At whatever corner the last reference was.
    pub(crate) net: Net,
    /// The corner of the next one.
    pub(crate) corner: Corner,
    pub(crate) reference: Reference,
    pub(crate) adjoint: NodeIntervals,
}

impl Drop for CornerWorkspace {
    /// Lets go of everything, in one step for whoever drops it.
    fn drop(self) {
        let CornerWorkspace {
            net: _net,
            corner: _corner,
            reference: _reference,
            adjoint: _adjoint,
        } = self;
    }
}

/// One with this net, for so many nodes and transformers.
#[tactic(auto, using(gic_stand::proofs::Repeated::repeated_length))]
pub(crate) fn make_corner_workspace(
    alloc: Global,
    net: Net,
    nodes: u16,
    transformers: u16,
) -> Result<CornerWorkspace, OutOfMemory>
    ensures { IfOk result (IsNewCornerWorkspace net nodes transformers) }
{
    let corner = Corner::new(alloc, nodes)?;
    let reference = new_reference(alloc, nodes, transformers)?;
    let adjoint = NodeIntervals::new(alloc, nodes)?;
    Ok(CornerWorkspace {
        net,
        corner,
        reference,
        adjoint,
    })
}

/// What two intervals share. They share something where both hold one number; else it is the first.
pub(crate) fn common(one: Interval, other: Interval) -> Interval
    ensures { ends_of result ≡ common (ends_of one) (ends_of other) }
{
    let lo = one.lo.max(other.lo);
    let hi = one.hi.min(other.hi);
    if lo <= hi { Interval { lo, hi } } else { one }
}
