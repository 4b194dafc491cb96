//! The interval of a transformer's current in a field, whatever resistances of their ranges the grounds have.
ghost use Rattle.std.specs.Prelude.{◌≡◌, ◌≤◌, ◌^◌};
ghost use Rattle.gic_enclose.specs.Ends.{potential_ends};
ghost use Rattle.gic_fixed.specs.Encloses.{IsWithin};
ghost use Rattle.gic_fixed.specs.Ends.{ends_of};
ghost use Rattle.gic_varied.specs.Certified.{Units, certified_enclosure};
ghost use Rattle.gic_grounds.specs.Corner.{is_most_at};
ghost use Rattle.gic_grounds.specs.Lifted.{CanEnclose};
ghost use Rattle.gic_grounds.specs.Tolerated.{Tolerated, AreNetsOf, own_in, ranges_in};
ghost use Rattle.gic_grounds.specs.VariedCurrent.{most_told, cut_current, milli_cut};
ghost use Rattle.gic_grounds.specs.Varying.{intervals_of};

use crate::corner::Corner;
use crate::nets::GroundNets;
use crate::node_intervals::NodeIntervals;
use crate::reference::Reference;
use crate::sum::enclosure;
use gic_effective::milli;
use gic_fixed::Interval;

/// The greatest current that is told, in milliamperes per phase, either way.
const MOST_TOLD: i128 = 1 << 61;

/// A current, cut to the greatest that is told.
fn cut(current: i128) -> i128
    ensures { result ≡ cut_current current }
{
    current.min(MOST_TOLD).max(-MOST_TOLD)
}

/// An interval with both ends cut.
fn cut_both(interval: Interval) -> Interval
    ensures low { result.lo ≡ cut_current interval.lo }
    ensures high { result.hi ≡ cut_current interval.hi }
    ensures small { IsWithin most_told result.lo result.hi }
{
    Interval::new(cut(interval.lo), cut(interval.hi))
}

/// The current of a transformer in milliamperes per phase, from its own in a reference at a corner and the stray powers of all
/// grounds, so many of which make a nanoampere.
pub(crate) fn varied_current(
    nets: &GroundNets,
    corner: &Corner,
    unit: u64,
    adjoint: &NodeIntervals,
    reference: &Reference,
    transformer: u16,
) -> Interval
    requires space { CanEnclose nets.now adjoint.now reference.now transformer }
    requires unit { 2 ^ 22 ≤ unit }
    ensures enclosure { (v : Tolerated) (units : Units) → AreNetsOf v nets.now → units.stray ≡ unit →
        ends_of result ≡ milli_cut (certified_enclosure (own_in v) (ranges_in v) (is_most_at corner.now) units
        (intervals_of adjoint.now reference.now.potentials (potential_ends reference.now.own transformer))) }
    ensures small { IsWithin most_told result.lo result.hi }
{
    let own = reference.own.get(transformer);
    let nano = enclosure(nets, corner, unit, adjoint, &reference.potentials, own);
    cut_both(milli(nano))
}
