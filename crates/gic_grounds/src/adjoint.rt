//! The adjoint solution of a transformer: potentials by which each ground counts in its current.
ghost use Rattle.std.specs.Prelude.{◌≡◌, ◌<◌, length};
ghost use Rattle.gic_winding.specs.ElementList.{elements_of};
ghost use Rattle.gic_grounds.specs.Lifted.{CanSolve, StillSolves, HasAdjointSpace, IsSmallUnit};
ghost use Rattle.gic_grounds.specs.Varied.{AreAdjoined};

use crate::node_intervals::NodeIntervals;
use crate::reference::WIDTH;
use crate::unit::ADJOINT_UNIT;
use crate::weights::fill_weights;
use gic_case::Case;
use gic_enclose::laws::drive_law;
use gic_exists::laws::existence_law;
use gic_model::{Elements, WideVolts};
use gic_net::Net;
use gic_uniform::SolveWorkspace;
use gic_varied::laws::reach_law;

/// Solves a net for the weights of a transformer, where the unit of potentials is so
/// many nanovolts. Takes no memory.
pub(crate) fn adjoin(
    case: &Case,
    elements: &Elements,
    net: &Net,
    transformer: u16,
    unit: u32,
    volts: &mut WideVolts,
    solving: &mut SolveWorkspace,
    out: &mut NodeIntervals,
)
    requires elements { elements.now ≡ elements_of case.now }
    requires ready { CanSolve elements.now.nodes (length elements.now.list) net.now solving.old }
    requires place { transformer < length case.now.transformers }
    requires unit { IsSmallUnit unit }
    requires space { HasAdjointSpace elements.now.nodes (length elements.now.list) volts.old out.old }
    ensures adjoined { AreAdjoined case.now net.now transformer unit out.new }
    ensures space { HasAdjointSpace elements.now.nodes (length elements.now.list) volts.new out.new }
    ensures still { StillSolves elements.now.nodes (length elements.now.list) solving.old solving.new }
{
    drive_law();
    existence_law();
    reach_law();
    case.keeps_rules();
    net.within_limits();
    fill_weights(case, elements.list(), transformer, unit, volts);
    solving.solve_wide(net, volts, WIDTH);
    out.keep(&solving.potentials);
    out.in_units(ADJOINT_UNIT);
}
