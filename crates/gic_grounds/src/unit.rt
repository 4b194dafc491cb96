//! The units of potentials.
ghost use Rattle.std.specs.Prelude.{ℕ, ◌<◌, ◌≤◌, ◌^◌};
ghost use Rattle.gic_fixed.specs.Encloses.{IsWithin};
ghost use Rattle.gic_model.specs.Guess.{most_guess};
ghost use Rattle.gic_grounds.specs.NodeEnds.{AreAllWithin};
ghost use Rattle.gic_grounds.specs.Unit.{IsLeastUnit};

use crate::node_intervals::NodeIntervals;
use gic_base::NodeId;
use gic_fixed::Interval;

/// The greatest potential of a reference, either way, in units: a lift's voltage is at most 19 times as many nanovolts,
/// and no voltage for which a network is solved may be beyond 2^58.
pub const MOST_UNITS: u64 = 15_000_000_000_000_000;

/// The unit of adjoint potentials, in nanovolts.
pub const ADJOINT_UNIT: u32 = 2;

/// Grains of 2^-36 nanovolt in the greatest potential, for a unit of one nanovolt.
const MOST_GRAINS: u128 = (MOST_UNITS as u128) << 36;

/// The unit of potentials in nanovolts: the least for which no end of two references, which are in grains, is beyond
/// [`MOST_UNITS`].
pub fn potential_unit(north: &NodeIntervals, east: &NodeIntervals) -> u32
    requires north { AreAllWithin most_guess north.now }
    requires east { AreAllWithin most_guess east.now }
    ensures least { IsLeastUnit north.now east.now result }
    ensures small { result < 2 ^ 7 }
{
    let grains = greatest_end(north).max(greatest_end(east));
    grains.div_ceil(MOST_GRAINS).max(1) as u32
}

/// The greatest end of all intervals, either way.
fn greatest_end(intervals: &NodeIntervals) -> u128
    requires { AreAllWithin most_guess intervals.now }
    ensures within { AreAllWithin result intervals.now }
    ensures least { (bound : ℕ) → AreAllWithin bound intervals.now → result ≤ bound }
{
    let mut greatest = 0;
    for node in 0..intervals.nodes() {
        greatest = greater_end(greatest, &intervals.get(NodeId(node)));
    }
    greatest
}

/// The greatest of a number and the ends of an interval, either way.
fn greater_end(number: u128, interval: &Interval) -> u128
    ensures number { number ≤ result }
    ensures within { IsWithin result interval.now.lo interval.now.hi }
    ensures least { (bound : ℕ) → number ≤ bound → IsWithin bound interval.now.lo interval.now.hi → result ≤ bound }
{
    number
        .max(interval.lo.unsigned_abs())
        .max(interval.hi.unsigned_abs())
}
