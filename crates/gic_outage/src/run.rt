//! Each item of the plan out of the network in turn.
ghost use Rattle.std.specs.Prelude.{◌≡◌, length};
ghost use Rattle.gic_criteria.specs.Ranges.{IsWithinCriteria};
ghost use Rattle.gic_outage.specs.Made.{IsMadeFor};
ghost use Rattle.gic_outage.specs.Plan.{plan_of};
ghost use Rattle.gic_outage.specs.Taking.{HasTaken};

use crate::taking::take_item;
use crate::workspace::Workspace;
use gic_criteria::Criteria;
use gic_inputs::Inputs;

/// Takes each item of the plan out in turn. The net is then as it was before. Takes no memory.
pub(crate) fn take_items(inputs: &Inputs<Criteria>, workspace: &mut Workspace)
    requires ranges { IsWithinCriteria inputs.now.question }
    requires workspace { IsMadeFor inputs.now workspace.old }
    ensures taken { HasTaken inputs.now (length (plan_of inputs.now.case)) workspace.new.outcomes.items workspace.new.greatest }
    ensures outcomes { length workspace.new.outcomes.items ≡ length (plan_of inputs.now.case) }
    ensures net { workspace.new.net ≡ workspace.old.net }
{
    for place in 0..workspace.plan.len() {
        workspace.outcomes[place] = take_item(
            inputs,
            workspace.plan[place],
            &mut workspace.net,
            &workspace.volts,
            &workspace.intact,
            &mut workspace.screening,
            &mut workspace.greatest,
        );
    }
}
