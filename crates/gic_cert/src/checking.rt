//! Whether a certificate passes.
ghost use Rattle.std.specs.Prelude.{◌≡◌, ◌*◌, ◌<◌, ◌≤◌, ◌↔◌, length, IsOk, IfErr, IfNone, IfSome, IsTrue};
ghost use Rattle.gic_model.specs.Bound.{MeetsRowRule};
ghost use Rattle.gic_model.specs.Voltages.{number_at};
ghost use Rattle.gic_net.specs.Net.{standing};
ghost use Rattle.gic_base.specs.declared.limits.TheConstants.{MOST_WALK};
ghost use Rattle.gic_cert.specs.declared.limits.TheConstants.{MOST_CHECKED_STEP};
ghost use Rattle.gic_cert.specs.Written.{entry_of, guess_of, radius_of};
ghost use Rattle.gic_cert.specs.Step.{checked_step as checked_step_of};
ghost use Rattle.gic_cert.specs.Passing.{HasNodes, IsPassing, HoldsWhereLive, IsFirstBreak, IsResidualSmall, IsRadiusEnough};
ghost use Rattle.gic_cert.specs.Refusals.{IsFirstRefusal};

use crate::cert::Cert;
use crate::limits::MOST_CHECKED_RESIDUAL;
use crate::refusal::CertRefusal;
use crate::step::{checked_step, most_residual};
use gic_base::NodeId;
use gic_bound::meets_row_rule;
use gic_model::Volts;
use gic_net::Net;

/// Whether the entry at a node meets the row rule.
fn is_row_right(net: &Net, cert: &Cert, node: NodeId) -> bool
    requires nodes { length cert.now.nodes ≡ net.now.network.nodes }
    requires node { node.0 < net.now.network.nodes }
    ensures { IsTrue result ↔ MeetsRowRule (standing net.now) (entry_of cert.now) node.0 }
{
    meets_row_rule(net, cert.entries(), node)
}

/// Whether the residual at a node is small.
fn is_residual_small(net: &Net, volts: &Volts, cert: &Cert, node: NodeId) -> bool
    requires volts { length volts.now ≡ length net.now.network.list }
    requires nodes { length cert.now.nodes ≡ net.now.network.nodes }
    requires node { node.0 < net.now.network.nodes }
    ensures { IsTrue result ↔ IsResidualSmall (standing net.now) (number_at volts.now) cert.now node.0 }
{
    most_residual(net, volts, cert.guesses(), node) <= MOST_CHECKED_RESIDUAL
}

/// The radius that a step asks for at a node with this entry.
pub(crate) fn needed_radius(entry: u16, step: u128) -> u128
    requires entry { entry ≤ MOST_WALK }
    requires step { step ≤ MOST_CHECKED_STEP }
    ensures { result ≡ entry * step }
{
    u128::from(entry) * step
}

/// Whether the radius at a node is at least its entry times the step.
fn is_radius_enough(cert: &Cert, node: NodeId, step: u128) -> bool
    requires node { node.0 < length cert.now.nodes }
    requires step { step ≤ MOST_CHECKED_STEP }
    ensures { IsTrue result ↔ (entry_of cert.now node.0 * step ≤ radius_of cert.now node.0) }
{
    needed_radius(cert.entry(node), step) <= cert.radius(node)
}

/// The first live node at which the row rule fails.
fn first_wrong_row(net: &Net, cert: &Cert) -> Option<NodeId>
    requires { length cert.now.nodes ≡ net.now.network.nodes }
    ensures none { IfNone result (HoldsWhereLive (standing net.now) (MeetsRowRule (standing net.now) (entry_of cert.now))) }
    ensures first { IfSome result (λ node. IsFirstBreak (standing net.now) (MeetsRowRule (standing net.now) (entry_of cert.now)) node.0) }
{
    for node in 0..net.nodes() {
        let node = NodeId(node);
        if net.live(node) && !is_row_right(net, cert, node) {
            return Some(node);
        }
    }
    None
}

/// The first live node whose residual is too great.
fn first_great_residual(net: &Net, volts: &Volts, cert: &Cert) -> Option<NodeId>
    requires volts { length volts.now ≡ length net.now.network.list }
    requires nodes { length cert.now.nodes ≡ net.now.network.nodes }
    ensures none { IfNone result (HoldsWhereLive (standing net.now) (IsResidualSmall (standing net.now) (number_at volts.now) cert.now)) }
    ensures first { IfSome result (λ node. IsFirstBreak (standing net.now) (IsResidualSmall (standing net.now) (number_at volts.now) cert.now) node.0) }
{
    for node in 0..net.nodes() {
        let node = NodeId(node);
        if net.live(node) && !is_residual_small(net, volts, cert, node) {
            return Some(node);
        }
    }
    None
}

/// The first live node whose radius is below its entry times the step.
fn first_small_radius(net: &Net, cert: &Cert, step: u128) -> Option<NodeId>
    requires nodes { length cert.now.nodes ≡ net.now.network.nodes }
    requires step { step ≤ MOST_CHECKED_STEP }
    ensures none { IfNone result (HoldsWhereLive (standing net.now) (λ k. entry_of cert.now k * step ≤ radius_of cert.now k)) }
    ensures first { IfSome result (λ node. IsFirstBreak (standing net.now) (λ k. entry_of cert.now k * step ≤ radius_of cert.now k) node.0) }
{
    for node in 0..net.nodes() {
        let node = NodeId(node);
        if net.live(node) && !is_radius_enough(cert, node, step) {
            return Some(node);
        }
    }
    None
}

/// The checked step of a certificate whose residuals are small.
fn step_of(net: &Net, volts: &Volts, cert: &Cert) -> u128
    requires volts { length volts.now ≡ length net.now.network.list }
    requires nodes { length cert.now.nodes ≡ net.now.network.nodes }
    requires small { HoldsWhereLive (standing net.now) (IsResidualSmall (standing net.now) (number_at volts.now) cert.now) }
    ensures value { result ≡ checked_step_of (standing net.now) (number_at volts.now) (guess_of cert.now) net.now.network.nodes }
    ensures small { result ≤ MOST_CHECKED_STEP }
{
    checked_step(net, volts, cert.guesses())
}

/// The first live node whose radius is too small, in a certificate whose residuals are small.
fn first_wrong_radius(net: &Net, volts: &Volts, cert: &Cert) -> Option<NodeId>
    requires volts { length volts.now ≡ length net.now.network.list }
    requires nodes { length cert.now.nodes ≡ net.now.network.nodes }
    requires small { HoldsWhereLive (standing net.now) (IsResidualSmall (standing net.now) (number_at volts.now) cert.now) }
    ensures none { IfNone result (HoldsWhereLive (standing net.now) (IsRadiusEnough net.now.network.nodes (standing net.now) (number_at volts.now) cert.now)) }
    ensures first { IfSome result (λ node. IsFirstBreak (standing net.now) (IsRadiusEnough net.now.network.nodes (standing net.now) (number_at volts.now) cert.now) node.0) }
{
    first_small_radius(net, cert, step_of(net, volts, cert))
}

/// Whether a certificate passes for a network and its voltages. The refusal names the first live node at which the row
/// rule fails, else the first whose residual is above [`MOST_CHECKED_RESIDUAL`], else the first whose radius is below its
/// entry times the checked step. The certificate has the net's nodes, with numbers at exactly the live ones. Takes no
/// memory.
pub fn check(net: &Net, volts: &Volts, cert: &Cert) -> Result<(), CertRefusal>
    requires volts { length volts.now ≡ length net.now.network.list }
    requires nodes { HasNodes net.now.network.nodes (standing net.now) cert.now }
    ensures passes { IsOk result ↔ IsPassing net.now.network.nodes (standing net.now) (number_at volts.now) cert.now }
    ensures first { IfErr result (IsFirstRefusal net.now.network.nodes (standing net.now) (number_at volts.now) cert.now) }
{
    cert.within_ranges();
    net.within_limits();
    if let Some(node) = first_wrong_row(net, cert) {
        return Err(CertRefusal::Row { node });
    }
    if let Some(node) = first_great_residual(net, volts, cert) {
        return Err(CertRefusal::Residual { node });
    }
    if let Some(node) = first_wrong_radius(net, volts, cert) {
        return Err(CertRefusal::Radius { node });
    }
    Ok(())
}
