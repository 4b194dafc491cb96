//! The current of an element.
ghost use Rattle.std.specs.Prelude.{◌≡◌, ℕ, ◌*◌, ◌^◌, ◌<◌, length, ℤ, pos, IsTrue};
ghost use Rattle.gic_fixed.specs.Rounding.{floor_div, ceil_div};
ghost use Rattle.gic_fixed.specs.Encloses.{Encloses, IsWithin};
ghost use Rattle.gic_model.specs.Guess.{most_guess};
ghost use Rattle.gic_model.specs.Limits.{IsEndWithin};
ghost use Rattle.gic_model.specs.Standing.{value_at, is_standing};
ghost use Rattle.gic_model.specs.Solution.{Solution, IsSolution};
ghost use Rattle.gic_model.specs.Sharp.{IsSharp};
ghost use Rattle.gic_model.specs.Voltages.{number_at};
ghost use Rattle.gic_net.specs.Net.{standing, element_of};
ghost use Rattle.gic_enclose.specs.Ends.{low_at, high_at};
ghost use Rattle.gic_enclose.specs.Certain.{AreTight};
ghost use Rattle.gic_effective.specs.Holds.{AreOfNetwork, HoldsSolution};
ghost use Rattle.gic_effective.specs.Milli.{IsMilliAtMostWide};
ghost use Rattle.gic_effective.specs.Ohm.{least_nano, most_nano, most_current};
ghost use Rattle.gic_fixed.specs.Ends.{IsAtMostWide};

use crate::ohm::{drive_between, ohms_law};
use gic_base::ElementId;
use gic_enclose::Potentials;
use gic_fixed::Interval;
use gic_model::{End, Volts};
use gic_net::Net;

/// The interval of the potential at an end, in grains; 0 at earth.
fn at_end(potentials: &Potentials, end: End) -> Interval
    requires { IsEndWithin (length potentials.now) end }
    ensures low { result.lo ≡ value_at (low_at potentials.now) end }
    ensures high { result.hi ≡ value_at (high_at potentials.now) end }
    ensures small { IsWithin most_guess result.lo result.hi }
{
    match end {
        End::Node(node) => potentials.get(node),
        End::Earth => Interval::point(0),
    }
}

/// The current of a standing element in nanoamperes, by Ohm's law over the intervals of the potentials at its ends and
/// its voltage, rounded outward. It holds the element's current in every solution whose potentials the intervals hold.
/// Voltages and potentials are those of the net's elements and nodes.
pub fn current_na(net: &Net, volts: &Volts, potentials: &Potentials, element: ElementId) -> Interval
    requires together { AreOfNetwork net.now.network volts.now potentials.now }
    requires element { element.0 < length net.now.network.list }
    requires stands { IsTrue (is_standing (standing net.now) element.0) }
    ensures low { result.lo ≡ least_nano (number_at volts.now) (low_at potentials.now) (high_at potentials.now)
        (element.0, element_of net.now.network element.0) }
    ensures high { result.hi ≡ most_nano (number_at volts.now) (low_at potentials.now) (high_at potentials.now)
        (element.0, element_of net.now.network element.0) }
    ensures holds { (s : Solution) → IsSolution (standing net.now) (number_at volts.now) s →
        HoldsSolution (standing net.now) potentials.now s → Encloses result.lo result.hi (s.current element.0) s.denominator }
    ensures small { IsWithin most_current result.lo result.hi }

    // Where the potentials are sharp for a width, the current in milliamperes is at most so wide.
    ensures narrow { (width : ℕ) → IsSharp (standing net.now) (number_at volts.now) (low_at potentials.now) (high_at potentials.now) width →
        IsMilliAtMostWide width result.lo result.hi }
{
    // Brings that the element is one of the standing ones, with its place.
    let _stands = net.stands(element);
    let row = net.element(element);
    let from = potentials.get(row.from);
    let to = at_end(potentials, row.to);
    let drive = drive_between(from, to, volts.get(element));
    ohms_law(row.times, net.divisor(element), drive)
}

/// The same interval, with how wide it is where no potential's interval is wider than 2^32 grains: at most 400 nanoamperes.
pub fn tight_current_na(
    net: &Net,
    volts: &Volts,
    potentials: &Potentials,
    element: ElementId,
) -> Interval
    requires together { AreOfNetwork net.now.network volts.now potentials.now }
    requires element { element.0 < length net.now.network.list }
    requires stands { IsTrue (is_standing (standing net.now) element.0) }
    ensures low { result.lo ≡ least_nano (number_at volts.now) (low_at potentials.now) (high_at potentials.now)
        (element.0, element_of net.now.network element.0) }
    ensures high { result.hi ≡ most_nano (number_at volts.now) (low_at potentials.now) (high_at potentials.now)
        (element.0, element_of net.now.network element.0) }
    ensures holds { (s : Solution) → IsSolution (standing net.now) (number_at volts.now) s →
        HoldsSolution (standing net.now) potentials.now s → Encloses result.lo result.hi (s.current element.0) s.denominator }
    ensures small { IsWithin most_current result.lo result.hi }
    ensures tight { AreTight potentials.now → IsAtMostWide 400 result.lo result.hi }
{
    // Brings that the element is within its limits.
    let _row = net.element(element);
    current_na(net, volts, potentials, element)
}

/// Nanoamperes to milliamperes, rounded outward.
pub fn milli(interval: Interval) -> Interval
    ensures low { result.lo ≡ floor_div interval.lo (pos 1000000) }
    ensures high { result.hi ≡ ceil_div interval.hi (pos 1000000) }
    ensures holds { (n : ℤ) (denominator : ℕ) → Encloses interval.lo interval.hi n denominator →
        Encloses result.lo result.hi n (1000000 * denominator) }
    ensures small { IsWithin most_current interval.lo interval.hi → IsWithin (2 ^ 54) result.lo result.hi }
{
    interval.div_out(1_000_000)
}
