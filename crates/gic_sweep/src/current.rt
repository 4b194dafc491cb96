//! The current of one element over guesses.
ghost use Rattle.std.specs.Prelude.{◌≡◌, ◌+◌, ◌*◌, ◌^◌, ◌<◌, ◌≤◌, length, pos, ◌*ℤ◌, unsigned_abs};
ghost use Rattle.gic_fixed.specs.Encloses.{IsWithin};
ghost use Rattle.gic_fixed.specs.Rounding.{floor_div, ceil_div};
ghost use Rattle.gic_model.specs.Conductance.{conductance_up};
ghost use Rattle.gic_model.specs.Limits.{IsEndWithin, IsElementWithin};
ghost use Rattle.gic_model.specs.Standing.{value_at, leaving as leaving_of};
ghost use Rattle.gic_model.specs.Voltages.{number_at};
ghost use Rattle.gic_model.specs.Guess.{part_times_ohms};
ghost use Rattle.gic_sweep.specs.Guesses.{AreCut};

use crate::driving::{drive, in_grains, micro_paths};
use gic_base::{ElementId, NodeId};
use gic_fixed::{Divisor, Interval};
use gic_model::{Element, End, WideVolts};

/// The guess at an end, 0 at earth.
fn guess_there(guesses: &[i128], end: End) -> i128
    requires { IsEndWithin (length guesses.now) end }
    ensures { result ≡ value_at (number_at guesses.now) end }
{
    match end {
        End::Node(node) => guesses[node.0 as usize],
        End::Earth => 0,
    }
}

/// 256 times an element's conductance, times its resistance.
fn weight(times: u8) -> u32
    requires { times ≤ 3 }
    ensures { result ≡ 256 * (times * 1000000) }
{
    256 * micro_paths(times)
}

fn product(weight: u32, drive: i128) -> i128
    requires weight { weight ≤ 768000000 }
    requires drive { unsigned_abs drive ≤ 2 ^ 97 + 2 ^ 94 }
    ensures { result ≡ pos weight *ℤ drive }
{
    weight as i128 * drive
}

/// A drive times 256 times the element's conductance.
fn weighed(times: u8, drive: i128) -> i128
    requires times { times ≤ 3 }
    requires drive { unsigned_abs drive ≤ 2 ^ 97 + 2 ^ 94 }
    ensures value { result ≡ pos (256 * (times * 1000000)) *ℤ drive }
    ensures small { unsigned_abs result ≤ 256 * (times * 1000000) * (2 ^ 97 + 2 ^ 94) }
{
    product(weight(times), drive)
}

/// What leaves the node.
fn leaving(node: NodeId, element: &Element, flow: i128) -> i128
    requires { unsigned_abs flow ≤ 768000000 * (2 ^ 97 + 2 ^ 94) }
    ensures value { result ≡ leaving_of node.0 element.now flow }
    ensures small { unsigned_abs result ≡ unsigned_abs flow }
{
    if element.from.0 == node.0 {
        flow
    } else {
        -flow
    }
}

/// An element's part of the residual at a node in units of 2^-44 nanoampere, times its resistance.
fn part(
    volts: &WideVolts,
    guesses: &[i128],
    node: NodeId,
    place: ElementId,
    element: &Element,
) -> i128
    requires element { IsElementWithin (length guesses.now) element.now }
    requires place { place.0 < length volts.now }
    requires guesses { AreCut (number_at guesses.now) }
    ensures value { result ≡ part_times_ohms (number_at volts.now) (number_at guesses.now) node.0 (place.0, element.now) }
    ensures small { unsigned_abs result ≤ 256 * (element.now.times * 1000000) * (2 ^ 97 + 2 ^ 94) }
{
    let from = guesses[element.from.0 as usize];
    let to = guess_there(guesses, element.to);
    let push = in_grains(volts.get(place));
    leaving(node, element, weighed(element.times, drive(from, to, push)))
}

/// An element's part of the residual at a node in units of 2^-44 nanoampere, rounded down and up.
#[inline(always)]
pub(crate) fn current(
    volts: &WideVolts,
    guesses: &[i128],
    node: NodeId,
    place: ElementId,
    element: &Element,
    divisor: Divisor,
) -> Interval
    requires element { IsElementWithin (length guesses.now) element.now }
    requires place { place.0 < length volts.now }
    requires guesses { AreCut (number_at guesses.now) }
    requires divisor { divisor ≡ element.now.micro_ohm }
    ensures low { result.lo ≡ floor_div (part_times_ohms (number_at volts.now) (number_at guesses.now) node.0
        (place.0, element.now)) (pos element.now.micro_ohm) }
    ensures high { result.hi ≡ ceil_div (part_times_ohms (number_at volts.now) (number_at guesses.now) node.0
        (place.0, element.now)) (pos element.now.micro_ohm) }
    ensures bounded { IsWithin (2 ^ 118) result.lo result.hi }
    ensures small { IsWithin (conductance_up element.now * 2 ^ 86) result.lo result.hi }
{
    let times_ohms = part(volts, guesses, node, place, element);
    divisor.rounded(times_ohms)
}
