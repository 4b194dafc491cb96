//! How the standing elements of a net are listed.
ghost use Rattle.std.specs.Prelude.{◌≡◌, ◌^◌, ◌≤◌, ◌<◌, length};
ghost use Rattle.gic_model.specs.Limits.{IsElementWithin};
ghost use Rattle.gic_precondition.specs.Inside.{AreWiresInside, IsWireInside};

use crate::parts::Wire;
use gic_base::ElementId;
use gic_model::Element;
use gic_net::Net;

/// An element's conductance in units of 2^-36 siemens, which has 48 bits: it is at most 3000 siemens.
fn conductance(element: &Element) -> u64
    requires { 1000 ≤ element.now.micro_ohm }
    ensures { result ≤ 2 ^ 48 }
{
    (element.times as u64 * 1_000_000 * (1 << 36) / element.micro_ohm as u64).min(1 << 48)
}

fn wire_of(element: &Element) -> Wire
    requires { 1000 ≤ element.now.micro_ohm }
    ensures from { result.from ≡ element.now.from.0 }
    ensures to { result.to ≡ element.now.to }
{
    Wire {
        siemens: conductance(element),
        from: element.from.0,
        to: element.to,
    }
}

/// What a listing of wires found: how many stand, and whether one is another than was listed at its place before.
#[derive(Clone, Copy)]
pub struct Listing {
    pub count: usize,
    pub is_new: bool,
}

/// Lists the standing elements of a net, as far as there is space.
pub(crate) fn put_wires(net: &Net, wires: &mut [Wire]) -> Listing
    requires { AreWiresInside net.now.network.nodes wires.old }
    ensures few { result.count ≤ length wires.new }
    ensures inside { AreWiresInside net.now.network.nodes wires.new }
{
    let mut count = 0;
    let mut is_new = false;
    for place in 0..net.count() {
        if net.stands(ElementId(place)) && count < wires.len() {
            let wire = wire_of(&net.element(ElementId(place)));
            is_new = is_new || wires[count] != wire;
            wires[count] = wire;
            count += 1;
        }
    }
    Listing { count, is_new }
}
