//! The voltages of lifts: how far the grounds move the potentials of a reference.
ghost use Rattle.std.specs.Prelude.{◌≡◌, ◌<◌, ◌≤◌, length, ℕ, Bool, unsigned_abs};
ghost use Rattle.gic_model.specs.declared.parts.Item.{Item};
ghost use Rattle.gic_model.specs.Network.{Network};
ghost use Rattle.gic_model.specs.Limits.{most_wide_volts, AreWideVolts};
ghost use Rattle.gic_model.specs.Standing.{standing_elements};
ghost use Rattle.gic_model.specs.Voltages.{number_at};
ghost use Rattle.gic_varied.specs.Certified.{AreLiftVolts};
ghost use Rattle.gic_varied.specs.Enclosure.{lift_volt};
ghost use Rattle.gic_varied.specs.Ranges.{Ranges};
ghost use Rattle.gic_grounds.specs.Corner.{is_most_at};
ghost use Rattle.gic_grounds.specs.Lifting.{height_at, lift_at};
ghost use Rattle.gic_grounds.specs.Modest.{IsModest};
ghost use Rattle.gic_grounds.specs.NodeEnds.{AreAllWithin};
ghost use Rattle.gic_grounds.specs.Nets.{AreExtremesOf};

use crate::corner::Corner;
use crate::nets::GroundNets;
use crate::node_intervals::NodeIntervals;
use crate::side::Side;
use crate::unit::MOST_UNITS;
use gic_base::{ElementId, NodeId};
use gic_fixed::Interval;
use gic_model::WideVolts;

/// Over which height a lift is made at the grounds of a node, where the reference's are at this corner.
fn height_at(corner: &Corner, reference: &NodeIntervals, node: NodeId, side: Side) -> i128
    requires node { node.0 < length reference.now }
    requires units { AreAllWithin MOST_UNITS reference.now }
    ensures value { result ≡ height_at (is_most_at corner.now) side reference.now node.0 }
    ensures small { unsigned_abs result ≤ MOST_UNITS }
{
    let interval = reference.get(node);
    let is_raised = match side {
        Side::Lowering => false,
        Side::Raising => true,
    };
    if is_raised == corner.is_most(node) {
        -interval.lo
    } else {
        interval.hi
    }
}

/// The voltage of a lift at a ground of these resistances.
fn lift_volt(least: u32, most: u32, height: i128) -> i64
    requires above_0 { 0 < least }
    requires modest { IsModest least most }
    requires height { unsigned_abs height ≤ MOST_UNITS }
    ensures value { result ≡ lift_volt (record { least = least; most = most }) height }
    ensures limit { unsigned_abs result ≤ most_wide_volts }
{
    let rise = i128::from(most - least) * height.max(0);
    let lift = Interval::point(rise).div_out(i128::from(least));
    -lift.hi as i64
}

/// The voltage of a lift at an element of this place, 0 where it is no ground.
fn lift_at(
    nets: &GroundNets,
    corner: &Corner,
    reference: &NodeIntervals,
    side: Side,
    place: ElementId,
) -> i64
    requires place { place.0 < length nets.now.least.network.list }
    requires count { length nets.now.most.network.list ≡ length nets.now.least.network.list }
    requires nodes { length reference.now ≡ nets.now.least.network.nodes }
    requires units { AreAllWithin MOST_UNITS reference.now }
    ensures value { result ≡ lift_at nets.now.least.network nets.now.most.network (height_at (is_most_at corner.now) side reference.now) place.0 }
    ensures limit { unsigned_abs result ≤ most_wide_volts }
{
    let ground = nets.least.element(place);
    if !ground.to.is_earth() {
        return 0;
    }
    let most = nets.most.element(place).micro_ohm;
    lift_volt(
        ground.micro_ohm,
        most,
        height_at(corner, reference, ground.from, side),
    )
}

/// Leaves in `out` the voltages of a lift, in nanovolts for units of potentials: one at each ground, over the potentials of
/// a reference whose grounds are at this corner, and 0 at every other element.
pub fn fill_lifts(
    nets: &GroundNets,
    corner: &Corner,
    reference: &NodeIntervals,
    side: Side,
    out: &mut WideVolts,
)
    requires count { length nets.now.most.network.list ≡ length nets.now.least.network.list }
    requires nodes { length reference.now ≡ nets.now.least.network.nodes }
    requires units { AreAllWithin MOST_UNITS reference.now }
    requires space { length out.old ≡ length nets.now.least.network.list }
    ensures each { (place : ℕ) → place < length out.new →
        number_at out.new place ≡ lift_at nets.now.least.network nets.now.most.network (height_at (is_most_at corner.now) side reference.now) place }
    ensures lifts { (network : Network) (stands : Item → Bool) (ranges : Ranges) → AreExtremesOf network stands ranges nets.now →
        AreLiftVolts (standing_elements network stands) ranges (height_at (is_most_at corner.now) side reference.now) (number_at out.new) }
    ensures limit { AreWideVolts (number_at out.new) }
    ensures same_count { length out.new ≡ length out.old }
{
    for place in 0..nets.least.count() {
        let place = ElementId(place);
        let nanovolts = lift_at(nets, corner, reference, side, place);
        out.set(place, nanovolts);
    }
}
