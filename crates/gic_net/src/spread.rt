//! How the reached nodes spread from earth.
ghost use Rattle.std.specs.Prelude.{◌≡◌, ◌<◌, ◌↔◌, [], IsTrue};
ghost use Rattle.gic_model.specs.Earthing.{LeadsToEarth};
ghost use Rattle.gic_net.specs.Net.{standing};
ghost use Rattle.gic_net.specs.Spread.{StartsAtEarth, IsSpread, GainsJoined};

use crate::net::Net;
use crate::scratch::Scratch;
use gic_base::NodeId;
use gic_model::End;

/// Reaches the nodes from which an element leads to earth.
pub fn reach_from_earth(net: &Net, scratch: &mut Scratch)
    requires nodes { scratch.old.nodes ≡ net.now.network.nodes }
    requires empty { scratch.old.reached ≡ [] }
    ensures nodes { scratch.new.nodes ≡ scratch.old.nodes }
    ensures starts { StartsAtEarth (standing net.now) scratch.new.reached }
{
    for node in 0..net.nodes() {
        if leads_to_earth(net, NodeId(node)) {
            scratch.reach(node);
        }
    }
}

/// Reaches each node that a chain joins to one that is reached. Each enters the order once.
pub fn spread(net: &Net, scratch: &mut Scratch)
    requires nodes { scratch.old.nodes ≡ net.now.network.nodes }
    requires starts { StartsAtEarth (standing net.now) scratch.old.reached }
    ensures nodes { scratch.new.nodes ≡ scratch.old.nodes }
    ensures spread { IsSpread (standing net.now) scratch.new.reached }
{
    let mut done = 0;
    while done < scratch.count() {
        let node = scratch.reached_at(done);
        reach_joined(net, scratch, NodeId(node));
        done += 1;
    }
}

/// Whether an element leads from the node to earth.
fn leads_to_earth(net: &Net, node: NodeId) -> bool
    requires { node.0 < net.now.network.nodes }
    ensures { IsTrue result ↔ LeadsToEarth (standing net.now) node.0 }
{
    for place in 0..net.degree(node) {
        if net.element(net.element_at(node, place)).to.is_earth() {
            return true;
        }
    }
    false
}

/// Reaches the nodes that an element joins to the node.
fn reach_joined(net: &Net, scratch: &mut Scratch, node: NodeId)
    requires nodes { scratch.old.nodes ≡ net.now.network.nodes }
    requires node { node.0 < net.now.network.nodes }
    ensures nodes { scratch.new.nodes ≡ scratch.old.nodes }
    ensures gains { GainsJoined (standing net.now) node.0 scratch.old.reached scratch.new.reached }
{
    for place in 0..net.degree(node) {
        let element = net.element(net.element_at(node, place));
        match element.other_end(node) {
            End::Node(other) => scratch.reach(other.0),
            End::Earth => {}
        }
    }
}
