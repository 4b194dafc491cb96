//! One sweep over the guesses, node by node.
ghost use Rattle.std.specs.Prelude.{◌≡◌, ◌+◌, ◌^◌, ◌<◌, ◌≤◌, length, unsigned_abs};
ghost use Rattle.gic_model.specs.Standing.{IsLive};
ghost use Rattle.gic_model.specs.Voltages.{number_at};
ghost use Rattle.gic_net.specs.Net.{standing};
ghost use Rattle.gic_sweep.specs.Residuals.{AreRoundedDown};
ghost use Rattle.gic_sweep.specs.Sweep.{IsTarget, IsSweptTo, IsSweep};

use crate::fall::fall;
use crate::guesses::Guesses;
use crate::node_sums::diagonal;
use crate::steps::Steps;
use gic_base::NodeId;
use gic_model::laws::rounded_residual_law;
use gic_model::{WideVolts, cut_guess};
use gic_net::Net;
use std::sync::ledger::Ledger;

/// Where a sweep moves a guess to, before the cut, as its residual rounded down tells.
fn target(net: &Net, volts: &WideVolts, guesses: &[i128], low: &[i128], node: NodeId) -> i128
    requires residuals { AreRoundedDown net.now volts.now guesses.now low.now }
    requires node { node.0 < net.now.network.nodes }
    requires live { IsLive (standing net.now) node.0 }
    ensures value { IsTarget (standing net.now) (number_at volts.now) (number_at guesses.now) node.0 result }
    ensures small { unsigned_abs result ≤ 2 ^ 100 }
{
    rounded_residual_law();
    net.within_limits();
    let down = fall(low[node.0 as usize], diagonal(net, node));
    guesses[node.0 as usize] - down
}

/// The new guess at a node.
fn next_guess(net: &Net, volts: &WideVolts, guesses: &[i128], low: &[i128], node: NodeId) -> i128
    requires residuals { AreRoundedDown net.now volts.now guesses.now low.now }
    requires node { node.0 < net.now.network.nodes }
    ensures { IsSweptTo (standing net.now) (number_at volts.now) (number_at guesses.now) node.0 result }
{
    if net.live(node) {
        cut_guess(target(net, volts, guesses, low, node))
    } else {
        guesses[node.0 as usize]
    }
}

/// One sweep, from the old guesses and their residuals rounded down, which ticks once.
pub(crate) fn sweep_from<L: Ledger>(
    net: &Net,
    volts: &WideVolts,
    old: &[i128],
    low: &[i128],
    guesses: &mut Guesses,
    steps: &mut Steps<L>,
)
    requires residuals { AreRoundedDown net.now volts.now old.now low.now }
    requires guesses { length guesses.old ≡ net.now.network.nodes }
    ensures sweep { IsSweep (standing net.now) (number_at volts.now) (number_at old.now) (number_at guesses.new) }
    ensures same_length { length guesses.new ≡ length guesses.old }
    ensures tick { steps.new ≡ steps.old + 1 }
{
    net.within_limits();
    let moved = |node: NodeId| -> i128
        requires residuals { AreRoundedDown net.now volts.now old.now low.now }
        requires node { node.0 < net.now.network.nodes }
        ensures { IsSweptTo (standing net.entry.now) (number_at volts.entry.now) (number_at old.entry.now) node.0 result }
    { next_guess(net, volts, old, low, node) };
    guesses.fill(&moved, steps);
}
