//! What the mode takes memory for.
ghost use Rattle.std.specs.Prelude.{◌≡◌, length, IfOk};
ghost use Rattle.gic_outage.specs.Made.{IsMadeFor};

use crate::outcome::OutageOutcome;
use crate::planning::plan;
use crate::raising::Greatest;
use gic_base::OutOfMemory;
use gic_bound::BoundVector;
use gic_criteria::Criteria;
use gic_inputs::Inputs;
use gic_model::Item;
use gic_net::Net;
use gic_stand::standing_net;
use gic_text::LineBuilder;
use gic_winding::elements;
use gic_worst::{FieldVolts, ScreenWorkspace, field_volts, make_screen_workspace};
use std::alloc::Global;

/// All that the mode takes memory for, and the items that it takes out. It is made before the network is looked at.
pub struct Workspace {
    pub(crate) line: LineBuilder,
    pub(crate) net: Net,
    /// The voltages of the field of the event that is asked for.
    pub(crate) volts: FieldVolts,
    pub(crate) screening: ScreenWorkspace,
    pub(crate) intact: BoundVector,
    pub(crate) plan: Vec<Item>,
    pub(crate) outcomes: Vec<OutageOutcome>,
    pub(crate) greatest: Greatest,
}

impl Drop for Workspace {
    /// Lets go of everything, in one step for whoever drops it.
    fn drop(self) {
        let Workspace {
            line: _line,
            net: _net,
            volts: _volts,
            screening: _screening,
            intact: _intact,
            plan: _plan,
            outcomes: _outcomes,
            greatest: _greatest,
        } = self;
    }
}

/// A given number of outcomes.
fn make_outcomes(alloc: Global, count: usize) -> Result<Vec<OutageOutcome>, OutOfMemory>
    ensures { IfOk result (λ outcomes. length outcomes.items ≡ count) }
{
    let outcomes = vec![in alloc; OutageOutcome::Idle; count]?;
    Ok(outcomes)
}

/// The workspace for the network of the case, with all rows of the switchings in force.
#[tactic(auto, using(gic_stand::proofs::Repeated::repeated_length))]
pub fn make_workspace(alloc: Global, inputs: &Inputs<Criteria>) -> Result<Workspace, OutOfMemory>
    ensures { IfOk result (IsMadeFor inputs.now) }
{
    let line = LineBuilder::new(alloc)?;
    let case = &inputs.case;
    let elements = elements(alloc, case)?;
    let net = standing_net(alloc, &elements, &inputs.switchings)?;
    let volts = field_volts(alloc, case, &elements, inputs.question.event)?;
    let screening = make_screen_workspace(alloc, case, &net)?;
    let intact = BoundVector::new(alloc, net.nodes())?;
    let plan = plan(alloc, case)?;
    let outcomes = make_outcomes(alloc, plan.len())?;
    let greatest = Greatest::new(alloc, case.transformers().len())?;
    Ok(Workspace {
        line,
        net,
        volts,
        screening,
        intact,
        plan,
        outcomes,
        greatest,
    })
}
