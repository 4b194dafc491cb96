//! Nets at corners of the ranges of grounds.
ghost use Rattle.std.specs.Prelude.{◌≡◌, ◌<◌, ◌≤◌, length};
ghost use Rattle.gic_net.specs.Net.{element_of};
ghost use Rattle.gic_grounds.specs.Corner.{is_most_at, element_at_corner, IsCornerNet, IsSomeCornerNet};

use crate::corner::Corner;
use crate::nets::GroundNets;
use gic_base::ElementId;
use gic_net::Net;

/// The resistance of the element at a place where the grounds are at a corner, in micro-ohm.
fn resistance_at(nets: &GroundNets, corner: &Corner, place: ElementId) -> u32
    requires place { place.0 < length nets.now.least.network.list }
    requires same_count { length nets.now.most.network.list ≡ length nets.now.least.network.list }
    ensures value { result ≡
        (element_at_corner (is_most_at corner.now) (element_of nets.now.least.network place.0) (element_of nets.now.most.network place.0)).micro_ohm }
    ensures least { 1000 ≤ result }
    ensures most { result ≤ 1000000000 }
{
    let least = nets.least.element(place);
    if corner.is_most(least.from) {
        nets.most.element(place).micro_ohm
    } else {
        least.micro_ohm
    }
}

/// Goes over to a corner with a net that is at any corner.
pub(crate) fn go_to_corner(nets: &GroundNets, corner: &Corner, net: &mut Net)
    requires same_count { length nets.now.most.network.list ≡ length nets.now.least.network.list }
    requires some_corner { IsSomeCornerNet nets.now net.old }
    ensures { IsCornerNet nets.now (is_most_at corner.now) net.new }
{
    for place in 0..nets.least.count() {
        let place = ElementId(place);
        let micro_ohm = resistance_at(nets, corner, place);
        net.set_resistance(place, micro_ohm);
    }
}
