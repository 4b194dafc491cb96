//! The interval of a weighted current, whatever resistances of their ranges the grounds have.
ghost use Rattle.std.specs.Prelude.{◌≡◌, ◌<◌, ◌≤◌, ◌^◌, length, Bool};
ghost use Rattle.gic_fixed.specs.Encloses.{IsWithin};
ghost use Rattle.gic_fixed.specs.Ends.{ends_of};
ghost use Rattle.gic_model.specs.declared.parts.Item.{Item};
ghost use Rattle.gic_model.specs.Network.{Network};
ghost use Rattle.gic_model.specs.Standing.{standing_elements};
ghost use Rattle.gic_varied.specs.Certified.{Units, certified_enclosure};
ghost use Rattle.gic_varied.specs.Ranges.{Ranges};
ghost use Rattle.gic_grounds.specs.Corner.{is_most_at};
ghost use Rattle.gic_grounds.specs.Lifted.{HasStrayParts};
ghost use Rattle.gic_grounds.specs.Nets.{AreExtremesOf};
ghost use Rattle.gic_grounds.specs.Varying.{intervals_of, stray_power_at, standing_stray_at};

use crate::corner::Corner;
use crate::nets::GroundNets;
use crate::node_intervals::NodeIntervals;
use crate::stray::{product, stray, varied};
use crate::varied::VariedPotentials;
use gic_base::ElementId;
use gic_fixed::Interval;

/// The stray power of the element at a place, as of a ground.
#[tactic(auto, using(crate::proofs::NodeLists::at_node_within, crate::proofs::Strayed::few_paths))]
fn stray_at(
    nets: &GroundNets,
    corner: &Corner,
    unit: u64,
    adjoint: &NodeIntervals,
    potentials: &VariedPotentials,
    place: ElementId,
) -> Interval
    requires place { place.0 < length nets.now.least.network.list }
    requires space { HasStrayParts nets.now adjoint.now potentials.now }
    requires unit { 2 ^ 22 ≤ unit }
    ensures value { ends_of result ≡ stray_power_at nets.now.least.network nets.now.most.network (is_most_at corner.now) unit adjoint.now potentials.now place.0 }
    ensures small { IsWithin (2 ^ 105) result.lo result.hi }
{
    let ground = nets.least.element(place);
    let most = nets.most.element(place).micro_ohm;
    let node = ground.from;
    let varied = varied(
        &potentials.reference.get(node),
        &potentials.lowering.get(node),
        &potentials.raising.get(node),
    );
    let product = product(&adjoint.get(node), &varied);
    stray(
        ground.times,
        ground.micro_ohm,
        most,
        corner.is_most(node),
        unit,
        &product,
    )
}

/// That of a ground that stands, and 0 of every other element.
fn standing_stray_at(
    nets: &GroundNets,
    corner: &Corner,
    unit: u64,
    adjoint: &NodeIntervals,
    potentials: &VariedPotentials,
    place: ElementId,
) -> Interval
    requires place { place.0 < length nets.now.least.network.list }
    requires space { HasStrayParts nets.now adjoint.now potentials.now }
    requires unit { 2 ^ 22 ≤ unit }
    ensures value { ends_of result ≡ standing_stray_at nets.now.least nets.now.most.network (is_most_at corner.now) unit adjoint.now potentials.now place.0 }
    ensures small { IsWithin (2 ^ 105) result.lo result.hi }
{
    if !nets.least.element(place).to.is_earth() {
        return Interval::point(0);
    }
    if !nets.least.stands(place) {
        return Interval::point(0);
    }
    stray_at(nets, corner, unit, adjoint, potentials, place)
}

/// The interval of a weighted current: the own one of a reference at a corner, and the stray powers of all standing grounds, so
/// many of which make a unit of it. Adjoint potentials are at most 2^55 units from 0, and the own interval 2^100.
pub fn enclosure(
    nets: &GroundNets,
    corner: &Corner,
    unit: u64,
    adjoint: &NodeIntervals,
    potentials: &VariedPotentials,
    own: Interval,
) -> Interval
    requires space { HasStrayParts nets.now adjoint.now potentials.now }
    requires unit { 2 ^ 22 ≤ unit }
    requires own { IsWithin (2 ^ 100) own.lo own.hi }
    ensures enclosure { (network : Network) (stands : Item → Bool) (ranges : Ranges) (units : Units) →
        AreExtremesOf network stands ranges nets.now → units.stray ≡ unit →
        ends_of result ≡ certified_enclosure (standing_elements network stands) ranges (is_most_at corner.now) units
        (intervals_of adjoint.now potentials.now (ends_of own)) }
    ensures small { IsWithin (2 ^ 122) result.lo result.hi }
{
    let mut total = own;
    for place in 0..nets.least.count() {
        let stray = standing_stray_at(nets, corner, unit, adjoint, potentials, ElementId(place));
        total = total.add(stray);
    }
    total
}
