//! Sums over the standing elements of a node.
ghost use Rattle.std.specs.Prelude.{◌≡◌, ◌*◌, ◌^◌, ◌<◌, ◌≤◌, length};
ghost use Rattle.gic_fixed.specs.Encloses.{IsWithin};
ghost use Rattle.gic_model.specs.Standing.{IsLive};
ghost use Rattle.gic_model.specs.Voltages.{number_at};
ghost use Rattle.gic_model.specs.Guess.{diagonal as diagonal_at, least_conductance, residual_down, residual_up};
ghost use Rattle.gic_net.specs.Net.{standing};
ghost use Rattle.gic_sweep.specs.Guesses.{AreCut};

use crate::current::current;
use gic_base::NodeId;
use gic_fixed::Interval;
use gic_model::WideVolts;
use gic_net::Net;

/// The residual at a node in units of 2^-44 nanoampere, each element's part rounded down and up.
pub fn rounded_residual(net: &Net, volts: &WideVolts, guesses: &[i128], node: NodeId) -> Interval
    requires volts { length volts.now ≡ length net.now.network.list }
    requires nodes { length guesses.now ≡ net.now.network.nodes }
    requires node { node.0 < net.now.network.nodes }
    requires guesses { AreCut (number_at guesses.now) }
    ensures low { result.lo ≡ residual_down (standing net.now) (number_at volts.now) (number_at guesses.now) node.0 }
    ensures high { result.hi ≡ residual_up (standing net.now) (number_at volts.now) (number_at guesses.now) node.0 }
    ensures small { IsWithin (diagonal_at (standing net.now) node.0 * 2 ^ 86) result.lo result.hi }
{
    net.within_limits();
    let mut sum = Interval::point(0);
    for place in 0..net.degree(node) {
        let id = net.element_at(node, place);
        let element = net.element(id);
        sum = sum.add(current(volts, guesses, node, id, &element, net.divisor(id)));
    }
    sum
}

/// The diagonal of a node, its conductance in units of 2^-20 siemens, each element's part rounded up.
pub(crate) fn diagonal(net: &Net, node: NodeId) -> u64
    requires node { node.0 < net.now.network.nodes }
    ensures value { result ≡ diagonal_at (standing net.now) node.0 }
    ensures most { result ≤ 2 ^ 40 }
    ensures live { IsLive (standing net.now) node.0 → 0 < result }
{
    net.within_limits();
    let mut sum: u64 = 0;
    for place in 0..net.degree(node) {
        let id = net.element_at(node, place);
        let part = net.conductance_up(id);
        sum += part;
    }
    sum
}

/// The conductance of a node in units of 2^-20 siemens, each element's part rounded down.
pub fn conductance(net: &Net, node: NodeId) -> u64
    requires { node.0 < net.now.network.nodes }
    ensures value { result ≡ least_conductance (standing net.now) node.0 }
    ensures most { result ≤ 2 ^ 40 }
    ensures live { IsLive (standing net.now) node.0 → 0 < result }
{
    net.within_limits();
    let mut sum: u64 = 0;
    for place in 0..net.degree(node) {
        let id = net.element_at(node, place);
        sum += net.conductance(id);
    }
    sum
}
