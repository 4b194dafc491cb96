//! One item out of the network.
ghost use Rattle.std.specs.Prelude.{◌≡◌, length};
ghost use Rattle.gic_case.specs.Lists.{Lists};
ghost use Rattle.gic_model.specs.declared.parts.Item.{Item};
ghost use Rattle.gic_net.specs.Net.{standing};
ghost use Rattle.gic_criteria.specs.Ranges.{IsWithinCriteria};
ghost use Rattle.gic_worst.specs.Screening.{AreOfEvent, IsScreenWorkspaceFor};
ghost use Rattle.gic_winding.specs.ElementList.{elements_of};
ghost use Rattle.gic_outage.specs.Outages.{standing_in_outage};
ghost use Rattle.gic_outage.specs.RightOutage.{IsTakenOut};
ghost use Rattle.gic_outage.specs.Taking.{AreGiven, HasEnded, outcome_of};

use crate::counting::count_verdicts;
use crate::laws::outage_law;
use crate::outcome::OutageOutcome;
use crate::raising::{Greatest, raise_all};
use crate::removing::{idle, restore, take_out};
use gic_bound::BoundVector;
use gic_criteria::Criteria;
use gic_inputs::Inputs;
use gic_model::Item;
use gic_net::Net;
use gic_stand::NetworkRefusal;
use gic_worst::{FieldVolts, ScreenWorkspace, screen_net};

/// How an outage ends whose network is refused.
fn outcome_of(refusal: &NetworkRefusal) -> OutageOutcome
    ensures { result ≡ outcome_of refusal.now }
{
    match refusal {
        NetworkRefusal::Unearthed { node, .. } => OutageOutcome::Unearthed(*node),
        NetworkRefusal::Unresolved { node, .. } => OutageOutcome::Unresolved(*node),
    }
}

/// Screens the network as it stands without an item: its answer says how the outage of that item ends. Where the network
/// is solved, the greatest intervals are raised by its worst ones. Takes no memory.
fn screen_without(
    inputs: &Inputs<Criteria>,
    net: &Net,
    volts: &FieldVolts,
    workspace: &mut ScreenWorkspace,
    greatest: &mut Greatest,
) -> OutageOutcome
    requires net { net.now.network ≡ elements_of inputs.now.case }
    requires volts { AreOfEvent inputs.now.case inputs.now.question.event volts.now }
    requires ranges { IsWithinCriteria inputs.now.question }
    requires workspace { IsScreenWorkspaceFor inputs.now.case workspace.old }
    requires greatest { length greatest.old ≡ length inputs.now.case.transformers }
    ensures ended { (item : Item) → IsTakenOut inputs.now item → standing net.now ≡ standing_in_outage inputs.now item →
        HasEnded inputs.now item result greatest.old greatest.new }
    ensures workspace { IsScreenWorkspaceFor inputs.now.case workspace.new }
{
    let case = &inputs.case;
    let question = &inputs.question;
    if let Err(refusal) = screen_net(case, net, volts, question.width, workspace) {
        return outcome_of(&refusal);
    }
    let rows = workspace.rows.rows();
    raise_all(rows, greatest);
    OutageOutcome::Solved(count_verdicts(case, rows, question.event.threshold()))
}

/// Has the next look at a network begin at this vector.
fn begin_at(vector: &BoundVector, workspace: &mut ScreenWorkspace)
    requires { length vector.now ≡ length workspace.old.solving.vector }
    ensures proposed { workspace.new.solving.vector ≡ vector.now }
    ensures workspace { (case : Lists) → IsScreenWorkspaceFor case workspace.old → IsScreenWorkspaceFor case workspace.new }
{
    workspace.solving.vector.copy_from(vector);
}

/// Takes an item out of the network, screens it and brings the item back; one of which no element stands is idle. A look
/// begins at the vector of the intact network. Takes no memory.
pub(crate) fn take_item(
    inputs: &Inputs<Criteria>,
    item: Item,
    net: &mut Net,
    volts: &FieldVolts,
    intact: &BoundVector,
    workspace: &mut ScreenWorkspace,
    greatest: &mut Greatest,
) -> OutageOutcome
    requires given { AreGiven inputs.now net.old volts.now }
    requires ranges { IsWithinCriteria inputs.now.question }
    requires intact { length intact.now ≡ (elements_of inputs.now.case).nodes }
    requires workspace { IsScreenWorkspaceFor inputs.now.case workspace.old }
    requires greatest { length greatest.old ≡ length inputs.now.case.transformers }
    ensures ended { HasEnded inputs.now item result greatest.old greatest.new }
    ensures net { net.new ≡ net.old }
    ensures workspace { IsScreenWorkspaceFor inputs.now.case workspace.new }
{
    outage_law();
    if idle(net, item) {
        return OutageOutcome::Idle;
    }
    let removed = take_out(net, item);
    begin_at(intact, workspace);
    let outcome = screen_without(inputs, net, volts, workspace, greatest);
    restore(net, removed);
    outcome
}
