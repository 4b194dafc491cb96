//! The names of the nodes of a case.
ghost use Rattle.std.specs.Prelude.{◌≡◌, IsTrue, Contains};
ghost use Rattle.gic_model.specs.Network.{ends_at};
ghost use Rattle.gic_winding.specs.ElementList.{elements_of};
ghost use Rattle.gic_list.specs.ListText.{node_name};

use gic_base::{Name, NodeId};
use gic_case::Case;
use gic_model::Element;
use gic_report::item_name;

/// The name of a node at which an element of the case ends. Past the buses it is the neutral node of the element's
/// transformer, and is named as it.
pub(crate) fn node_name(case: &Case, element: &Element, node: NodeId) -> Name
    requires element { Contains (elements_of case.now).list element.now }
    requires node { IsTrue (ends_at element.now node.0) }
    ensures { result ≡ node_name case.now node.0 }
{
    let place = node.0 as usize;
    let substations = case.substations();
    if let Some(substation) = substations.get(place) {
        return substation.name;
    }
    if let Some(bus) = case.buses().get(place - substations.len()) {
        return bus.name;
    }
    item_name(case, element.item)
}
