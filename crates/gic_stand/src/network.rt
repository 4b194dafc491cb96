//! The network of a case that stands, whether it is earthed, and whether it can be solved.
ghost use Rattle.std.specs.Prelude.{◌≡◌, slice_index, IfOk, IfErr, OnOk};
ghost use Rattle.gic_base.specs.declared.limits.TheConstants.{MOST_WALK};
ghost use Rattle.gic_model.specs.Bound.{IsEarthedWithin};
ghost use Rattle.gic_model.specs.Earthing.{AreEarthed};
ghost use Rattle.gic_model.specs.Standing.{standing_elements, stands_after};
ghost use Rattle.gic_net.specs.Net.{standing, closed_net, net_after};
ghost use Rattle.gic_bound.specs.Entries.{IsBoundWithin};
ghost use Rattle.gic_winding.specs.ElementList.{elements_of};
ghost use Rattle.gic_inputs.specs.Inputs.{rows_in};
ghost use Rattle.gic_stand.specs.ForNodes.{IsStartForNodes};
ghost use Rattle.gic_stand.specs.Needs.{Earthed, Solved, Fails};

use crate::fault::NetworkRefusal;
use crate::finding::find_bound;
use crate::start::Start;
use gic_base::OutOfMemory;
use gic_bound::BoundVector;
use gic_case::{Case, node_name};
use gic_model::{Elements, Switching};
use gic_net::laws::net_switching_law;
use gic_net::{Net, Scratch, earthed};
use gic_switch::Switchings;
use std::alloc::Global;

/// Opens and closes items, row by row.
pub fn switch_all(net: &mut Net, rows: &[Switching])
    ensures { net.new ≡ net_after net.old rows.entry.now }
{
    for row in rows {
        net.switch(row.item, row.opens);
    }
}

/// Opens and closes items by all rows of the switchings, where there are any.
fn switch_by(net: &mut Net, switchings: &Option<Switchings>)
    ensures { net.new ≡ net_after net.old (rows_in switchings.now) }
{
    match switchings {
        Some(switchings) => switch_all(net, switchings.rows()),
        None => {}
    }
}

/// The network of these elements with all rows of the switchings in force.
pub fn standing_net(
    alloc: Global,
    elements: &Elements,
    switchings: &Option<Switchings>,
) -> Result<Net, OutOfMemory>
    ensures net { IfOk result (λ net. net ≡ net_after (closed_net elements.now) (rows_in switchings.now)) }
    ensures network { IfOk result (λ net. net.network ≡ elements.now) }
    ensures standing { IfOk result (λ net. standing net ≡ standing_elements elements.now (stands_after (rows_in switchings.now))) }
{
    net_switching_law();
    let mut net = Net::build(alloc, elements)?;
    switch_by(&mut net, switchings);
    Ok(net)
}

/// Whether each live node is earthed at the step of this number, counted from 1; a refusal names the first that isn't.
/// Takes no memory.
pub fn expect_earthed(
    case: &Case,
    net: &Net,
    step: u32,
    scratch: &mut Scratch,
) -> Result<(), NetworkRefusal>
    requires nodes { net.now.network.nodes ≡ (elements_of case.now).nodes }
    requires scratch { scratch.old.nodes ≡ net.now.network.nodes }
    ensures earthed { OnOk result (AreEarthed (standing net.now)) }
    ensures err { IfErr result (Fails Earthed case.now step (standing net.now)) }
    ensures scratch { scratch.new.nodes ≡ scratch.old.nodes }
{
    match earthed(net, scratch) {
        Ok(()) => Ok(()),
        Err(refusal) => {
            let node = node_name(case, refusal.node);
            Err(NetworkRefusal::Unearthed { step, node })
        }
    }
}

/// Whether the network is earthed within 4096 at the step of this number, where each live node is earthed. A bound vector
/// without an entry above 4096 is left in `vector`, found from what that was; the refusal names the first node with the
/// entry 4097 in the least capped vector. Takes no memory.
pub fn expect_resolved(
    case: &Case,
    net: &Net,
    step: u32,
    vector: &mut BoundVector,
    start: &mut Start,
) -> Result<(), NetworkRefusal>
    requires nodes { net.now.network.nodes ≡ (elements_of case.now).nodes }
    requires workspace { IsStartForNodes net.now.network.nodes vector.old start.old }
    requires earthed { AreEarthed (standing net.now) }
    ensures within { OnOk result (IsEarthedWithin (standing net.now) MOST_WALK) }
    ensures bound { OnOk result (IsBoundWithin (standing net.now) MOST_WALK (slice_index vector.new)) }
    ensures err { IfErr result (Fails Solved case.now step (standing net.now)) }
    ensures workspace { IsStartForNodes net.now.network.nodes vector.new start.new }
{
    match find_bound(net, vector, start) {
        Ok(()) => Ok(()),
        Err(refusal) => {
            let node = node_name(case, refusal.node);
            Err(NetworkRefusal::Unresolved { step, node })
        }
    }
}
