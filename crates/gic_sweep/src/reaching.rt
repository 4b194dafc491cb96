//! How far guesses are from being settled, as their residuals show.
ghost use Rattle.std.specs.Prelude.{◌≡◌, ℕ, ℤ, ◌+◌, ◌*◌, ◌/◌, ◌^◌, ◌<◌, ◌≤◌};
ghost use Rattle.gic_model.specs.Standing.{IsLive};
ghost use Rattle.gic_model.specs.Voltages.{number_at};
ghost use Rattle.gic_model.specs.Guess.{IsSettledWithin, IsSettledAt, HoldsResidual};
ghost use Rattle.gic_net.specs.Net.{standing};
ghost use Rattle.gic_sweep.specs.ResidualEnds.{AreEndsFor};
ghost use Rattle.gic_sweep.specs.Residuals.{HoldResiduals, most_reach};

use crate::node_sums::conductance;
use crate::residuals::Residuals;
use gic_base::NodeId;
use gic_model::laws::{diagonal_law, settled_law};
use gic_net::Net;

/// `4096 * most / conductance`, rounded up, with no product that could leave the type.
fn quotient_up(most: u128, conductance: u64) -> u128
    requires some { 0 < conductance }
    requires conductance { conductance ≤ 2 ^ 40 }
    requires most { most ≤ conductance * 2 ^ 87 }
    ensures covers { 4096 * most ≤ result * conductance }
    ensures small { result ≤ 2 ^ 99 }
    ensures least { (c : ℕ) → 4096 * most ≤ c * conductance → result ≤ c }
{
    let whole = most / conductance as u128;
    let rest = most % conductance as u128;
    4096 * whole + (4096 * rest).div_ceil(conductance as u128)
}

/// The grains within which guesses are settled at a live node, whose residual lies between these ends.
fn reach_at(net: &Net, residuals: &Residuals, node: NodeId) -> u128
    requires residuals { AreEndsFor net.now residuals.now }
    requires node { node.0 < net.now.network.nodes }
    requires live { IsLive (standing net.now) node.0 }
    ensures settled { (volts x : ℕ → ℤ) →
        HoldsResidual (standing net.now) volts x node.0 (number_at residuals.now.low node.0) (number_at residuals.now.high node.0) →
        IsSettledAt (standing net.now) volts x result node.0 }
    ensures small { result ≤ 2 ^ 99 }
    ensures close { (volts x : ℕ → ℤ) (t : ℕ) →
        HoldsResidual (standing net.now) volts x node.0 (number_at residuals.now.low node.0) (number_at residuals.now.high node.0) →
        IsSettledAt (standing net.now) volts x t node.0 → result ≤ most_reach t }
{
    settled_law();
    diagonal_law();
    net.within_limits();
    let most = residuals.greatest(node);
    quotient_up(most, conductance(net, node))
}

/// The greater of a number of grains and those within which guesses are settled at the node.
fn greater_reach(net: &Net, residuals: &Residuals, node: NodeId, most: u128) -> u128
    requires residuals { AreEndsFor net.now residuals.now }
    requires node { node.0 < net.now.network.nodes }
    requires small { most ≤ 2 ^ 99 }
    ensures grows { most ≤ result }
    ensures settled { (volts x : ℕ → ℤ) →
        HoldsResidual (standing net.now) volts x node.0 (number_at residuals.now.low node.0) (number_at residuals.now.high node.0) →
        IsLive (standing net.now) node.0 → IsSettledAt (standing net.now) volts x result node.0 }
    ensures small { result ≤ 2 ^ 99 }
    ensures close { (volts x : ℕ → ℤ) (t : ℕ) →
        HoldsResidual (standing net.now) volts x node.0 (number_at residuals.now.low node.0) (number_at residuals.now.high node.0) →
        IsSettledWithin (standing net.now) volts x t → most ≤ most_reach t → result ≤ most_reach t }
{
    if net.live(node) {
        let here = reach_at(net, residuals, node);
        if here < most { most } else { here }
    } else {
        most
    }
}

/// The grains within which guesses are settled, whose residuals lie between these ends.
pub(crate) fn reach_between(net: &Net, residuals: &Residuals) -> u128
    requires { AreEndsFor net.now residuals.now }
    ensures settled { (volts x : ℕ → ℤ) → HoldResiduals (standing net.now) volts x residuals.now →
        IsSettledWithin (standing net.now) volts x result }
    ensures small { result ≤ 2 ^ 99 }
    ensures close { (volts x : ℕ → ℤ) (t : ℕ) → HoldResiduals (standing net.now) volts x residuals.now →
        IsSettledWithin (standing net.now) volts x t → result ≤ most_reach t }
{
    let mut most: u128 = 0;
    for node in 0..net.nodes() {
        most = greater_reach(net, residuals, NodeId(node), most);
    }
    most
}
