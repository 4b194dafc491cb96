//! The first node that is not earthed.
ghost use Rattle.std.specs.Prelude.{◌≡◌, ◌<◌, OnOk, IfErr};
ghost use Rattle.gic_model.specs.Earthing.{AreEarthed, IsFirstUnearthed};
ghost use Rattle.gic_net.specs.Net.{standing};

use crate::net::Net;
use crate::scratch::Scratch;
use crate::spread::{reach_from_earth, spread};
use gic_base::NodeId;

/// The first live node, in node order, that is not earthed.
#[derive(Clone, Copy, PartialEq, Eq, Debug)]
pub struct Unearthed {
    pub node: NodeId,
}

/// Whether every live node is earthed: a chain of standing elements leads from it to earth. The scratch is for as many
/// nodes as the net has; what it had reached before doesn't matter.
pub fn earthed(net: &Net, scratch: &mut Scratch) -> Result<(), Unearthed>
    requires { scratch.old.nodes ≡ net.now.network.nodes }
    ensures ok { OnOk result (AreEarthed (standing net.now)) }
    ensures unearthed { IfErr result (λ refusal. IsFirstUnearthed (standing net.now) refusal.node.0) }
    ensures within { IfErr result (λ refusal. refusal.node.0 < net.now.network.nodes) }
    ensures scratch { scratch.new.nodes ≡ scratch.old.nodes }
{
    scratch.clear();
    reach_from_earth(net, scratch);
    spread(net, scratch);
    for node in 0..net.nodes() {
        if net.live(NodeId(node)) && !scratch.has(node) {
            return Err(Unearthed { node: NodeId(node) });
        }
    }
    Ok(())
}
