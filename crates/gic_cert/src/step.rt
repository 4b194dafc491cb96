//! The checked step.
ghost use Rattle.std.specs.Prelude.{◌≡◌, ℕ, ◌*◌, ◌<◌, ◌≤◌, length, if◌then◌else◌};
ghost use Rattle.std.specs.Int.{div_ceil};
ghost use Rattle.gic_model.specs.Standing.{is_live, IsLive};
ghost use Rattle.gic_model.specs.Voltages.{number_at};
ghost use Rattle.gic_net.specs.Net.{standing};
ghost use Rattle.gic_sweep.specs.Guesses.{AreCut};
ghost use Rattle.gic_cert.specs.declared.limits.TheConstants.{MOST_CHECKED_RESIDUAL, MOST_CHECKED_STEP};
ghost use Rattle.gic_cert.specs.Step.{most_residual as most_residual_of, step_asked_at as step_of, checked_step as checked_step_of};

use gic_base::NodeId;
use gic_model::Volts;
use gic_net::Net;
use gic_sweep::{conductance, rounded_residual};

/// The greater absolute value of the residual at a node with its parts rounded down and with its parts rounded up, in
/// 2^-44 nanoampere.
pub(crate) fn most_residual(net: &Net, volts: &Volts, guesses: &[i128], node: NodeId) -> u128
    requires volts { length volts.now ≡ length net.now.network.list }
    requires nodes { length guesses.now ≡ net.now.network.nodes }
    requires guesses { AreCut (number_at guesses.now) }
    requires node { node.0 < net.now.network.nodes }
    ensures { result ≡ most_residual_of (standing net.now) (number_at volts.now) (number_at guesses.now) node.0 }
{
    let residual = rounded_residual(net, volts.as_wide(), guesses, node);
    let down = residual.lo.unsigned_abs();
    let up = residual.hi.unsigned_abs();
    down.max(up)
}

/// `4096 * most / conductance`, rounded up.
fn quotient_up(most: u128, conductance: u64) -> u128
    requires most { most ≤ MOST_CHECKED_RESIDUAL }
    requires conductance { 1048 ≤ conductance }
    ensures value { result ≡ div_ceil (4096 * most) conductance }
    ensures small { result ≤ MOST_CHECKED_STEP }
{
    (4096 * most).div_ceil(u128::from(conductance))
}

/// The step that a live node asks for.
fn step_asked_at(net: &Net, volts: &Volts, guesses: &[i128], node: NodeId) -> u128
    requires volts { length volts.now ≡ length net.now.network.list }
    requires nodes { length guesses.now ≡ net.now.network.nodes }
    requires guesses { AreCut (number_at guesses.now) }
    requires node { node.0 < net.now.network.nodes }
    requires live { IsLive (standing net.now) node.0 }
    requires small { most_residual_of (standing net.now) (number_at volts.now) (number_at guesses.now) node.0 ≤ MOST_CHECKED_RESIDUAL }
    ensures value { result ≡ step_of (standing net.now) (number_at volts.now) (number_at guesses.now) node.0 }
    ensures small { result ≤ MOST_CHECKED_STEP }
{
    net.within_limits();
    let most = most_residual(net, volts, guesses, node);
    quotient_up(most, conductance(net, node))
}

/// The step that a node asks for, 0 where it is dead.
fn step_or_nothing(net: &Net, volts: &Volts, guesses: &[i128], node: NodeId) -> u128
    requires volts { length volts.now ≡ length net.now.network.list }
    requires nodes { length guesses.now ≡ net.now.network.nodes }
    requires guesses { AreCut (number_at guesses.now) }
    requires node { node.0 < net.now.network.nodes }
    requires small { IsLive (standing net.now) node.0 →
        most_residual_of (standing net.now) (number_at volts.now) (number_at guesses.now) node.0 ≤ MOST_CHECKED_RESIDUAL }
    ensures value { result ≡ (if is_live (standing net.now) node.0 then step_of (standing net.now) (number_at volts.now) (number_at guesses.now) node.0 else 0) }
    ensures small { result ≤ MOST_CHECKED_STEP }
{
    if net.live(node) {
        step_asked_at(net, volts, guesses, node)
    } else {
        0
    }
}

/// The checked step of guesses whose residuals are small, in grains.
pub(crate) fn checked_step(net: &Net, volts: &Volts, guesses: &[i128]) -> u128
    requires volts { length volts.now ≡ length net.now.network.list }
    requires nodes { length guesses.now ≡ net.now.network.nodes }
    requires guesses { AreCut (number_at guesses.now) }
    requires small { (k : ℕ) → IsLive (standing net.now) k →
        most_residual_of (standing net.now) (number_at volts.now) (number_at guesses.now) k ≤ MOST_CHECKED_RESIDUAL }
    ensures value { result ≡ checked_step_of (standing net.now) (number_at volts.now) (number_at guesses.now) net.now.network.nodes }
    ensures small { result ≤ MOST_CHECKED_STEP }
{
    let mut most: u128 = 0;
    for node in 0..net.nodes() {
        most = most.max(step_or_nothing(net, volts, guesses, NodeId(node)));
    }
    most
}
