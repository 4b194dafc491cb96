//! The reference in a field: the network with its grounds at a corner of their ranges, and how far others move it.
ghost use Rattle.std.specs.Prelude.{◌≡◌, ◌^◌, length, IfOk};
ghost use Rattle.gic_model.specs.Voltages.{number_at};
ghost use Rattle.gic_winding.specs.ElementList.{elements_of};
ghost use Rattle.gic_grounds.specs.declared.unit.TheConstants.{MOST_UNITS};
ghost use Rattle.gic_grounds.specs.Corner.{is_most_at};
ghost use Rattle.gic_grounds.specs.Lifted.{CanSolve, CanSolveBoth, StillSolves, HasReferenceSpace, IsSolvedReference, AreLifted, AreBothLifted};
ghost use Rattle.gic_grounds.specs.NodeEnds.{AreAllWithin};
ghost use Rattle.gic_grounds.specs.Varying.{most_lift, AreVariedOf};

use crate::corner::Corner;
use crate::lift::fill_lifts;
use crate::nets::GroundNets;
use crate::node_intervals::NodeIntervals;
use crate::own::{OwnCurrents, fill_own};
use crate::side::Side;
use crate::varied::VariedPotentials;
use gic_base::OutOfMemory;
use gic_case::Case;
use gic_enclose::laws::drive_law;
use gic_exists::laws::existence_law;
use gic_model::{Elements, Volts, WideVolts};
use gic_net::Net;
use gic_uniform::SolveWorkspace;
use gic_varied::laws::reach_law;
use std::alloc::Global;

/// The width to which networks are solved, the least that can be asked for. Tight intervals are far narrower.
pub(crate) const WIDTH: u32 = 2;

/// The reference in a field: the transformers' own currents, the potentials, and how far below and above them those of
/// other grounds may lie.
pub struct Reference {
    pub own: OwnCurrents,
    pub potentials: VariedPotentials,
}

impl Drop for Reference {
    /// Lets go of everything, in one step for whoever drops it.
    fn drop(self) {
        let Reference {
            own: _own,
            potentials: _potentials,
        } = self;
    }
}

/// Space for the reference of a network of so many nodes and transformers.
#[tactic(auto, using(gic_stand::proofs::Repeated::repeated_length))]
pub(crate) fn new_reference(
    alloc: Global,
    nodes: u16,
    transformers: u16,
) -> Result<Reference, OutOfMemory>
    ensures { IfOk result (HasReferenceSpace nodes transformers) }
{
    let own = OwnCurrents::new(alloc, transformers)?;
    let reference = NodeIntervals::new(alloc, nodes)?;
    let lowering = NodeIntervals::new(alloc, nodes)?;
    let raising = NodeIntervals::new(alloc, nodes)?;
    Ok(Reference {
        own,
        potentials: VariedPotentials {
            reference,
            lowering,
            raising,
        },
    })
}

/// Solves the reference in these voltages; its potentials are left in grains. Takes no memory.
pub(crate) fn solve_reference(
    case: &Case,
    elements: &Elements,
    net: &Net,
    volts: &Volts,
    solving: &mut SolveWorkspace,
    out: &mut Reference,
)
    requires elements { elements.now ≡ elements_of case.now }
    requires ready { CanSolve elements.now.nodes (length elements.now.list) net.now solving.old }
    requires volts { length volts.now ≡ length elements.now.list }
    requires space { HasReferenceSpace elements.now.nodes (length case.now.transformers) out.old }
    ensures solved { IsSolvedReference case.now net.now (number_at volts.now) out.new }
    ensures space { HasReferenceSpace elements.now.nodes (length case.now.transformers) out.new }
    ensures still { StillSolves elements.now.nodes (length elements.now.list) solving.old solving.new }
{
    solving.solve(net, volts, WIDTH);
    out.potentials.reference.keep(&solving.potentials);
    fill_own(
        case,
        elements.list(),
        net,
        volts,
        &solving.potentials,
        &mut out.own,
    );
}

/// Solves the lift to one side, over the potentials of a reference at a corner, in units. Takes no memory.
fn lift(
    nets: &GroundNets,
    corner: &Corner,
    reference: &NodeIntervals,
    side: Side,
    volts: &mut WideVolts,
    solving: &mut SolveWorkspace,
    out: &mut NodeIntervals,
)
    requires ready { CanSolveBoth (length reference.now) (length volts.old) nets.now solving.old }
    requires units { AreAllWithin MOST_UNITS reference.now }
    requires space { length out.old ≡ length reference.now }
    ensures lifted { AreLifted nets.now (is_most_at corner.now) side reference.now out.new }
    ensures within { AreAllWithin most_lift out.new }
    ensures space { length out.new ≡ length reference.now }
    ensures volts { length volts.new ≡ length volts.old }
    ensures still { StillSolves (length reference.now) (length volts.old) solving.old solving.new }
{
    drive_law();
    existence_law();
    reach_law();
    nets.least.within_limits();
    nets.most.within_limits();
    fill_lifts(nets, corner, reference, side, volts);
    solving.solve_wide(&nets.most, volts, WIDTH);
    out.keep(&solving.potentials);
    // A nanovolt of a lift stands for a unit of potentials.
    out.in_units(1);
}

/// Solves both lifts over the potentials of a reference at a corner, in units. Takes no memory.
pub(crate) fn lift_both(
    nets: &GroundNets,
    corner: &Corner,
    volts: &mut WideVolts,
    solving: &mut SolveWorkspace,
    out: &mut VariedPotentials,
)
    requires ready { CanSolveBoth (length out.old.reference) (length volts.old) nets.now solving.old }
    requires units { AreAllWithin MOST_UNITS out.old.reference }
    requires space { AreVariedOf (length out.old.reference) out.old }
    ensures lifted { AreBothLifted nets.now (is_most_at corner.now) out.new }
    ensures reference { out.new.reference ≡ out.old.reference }
    ensures space { AreVariedOf (length out.old.reference) out.new }
    ensures volts { length volts.new ≡ length volts.old }
    ensures still { StillSolves (length out.old.reference) (length volts.old) solving.old solving.new }
{
    lift(
        nets,
        corner,
        &out.reference,
        Side::Lowering,
        volts,
        solving,
        &mut out.lowering,
    );
    lift(
        nets,
        corner,
        &out.reference,
        Side::Raising,
        volts,
        solving,
        &mut out.raising,
    );
}
