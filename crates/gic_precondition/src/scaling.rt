//! How currents and potentials are scaled.
ghost use Rattle.std.specs.Prelude.{◌≡◌, ◌+◌, ◌*◌, ◌^◌, ◌<◌, ◌≤◌, unsigned_abs, length};
ghost use Rattle.gic_model.specs.Limits.{IsEndWithin};
ghost use Rattle.gic_precondition.specs.Inside.{AreWiresInside};

use crate::numbers::{bits_of, cut, product};
use crate::parts::Wire;
use gic_model::End;

/// The bits that scaled currents have, at most.
const CURRENT_BITS: u32 = 44;

/// The bits of scaled potentials that a current alone makes at its node, so that they have about 52 where the network
/// makes them 2^13 times as great.
const POTENTIAL_BITS: u32 = 39;

/// The most that potentials are lifted by.
const MOST_LIFT: u32 = 70;

/// Currents are taken in units of `2 ^ down`, and potentials are `2 ^ lift` times such a unit over a conductance.
#[derive(Clone, Copy)]
pub struct Scale {
    pub down: u32,
    pub lift: u32,
    ghost few_down: { down ≤ 84 },
    ghost few_lift: { lift ≤ 70 },
}

/// The most bits that a current has.
fn most_bits(currents: &[i128]) -> u32
    ensures { result ≤ 128 }
{
    let mut most = 0;
    for current in currents {
        most = most.max(bits_of(current.unsigned_abs()));
    }
    most
}

/// How far the potential that a current alone makes at its node may be lifted.
fn lift_at(current: i128, conductance: u64, down: u32) -> u32
    requires { down ≤ 84 }
{
    if current == 0 {
        return MOST_LIFT;
    }
    let bits = POTENTIAL_BITS + down + bits_of(conductance as u128);
    bits.saturating_sub(bits_of(current.unsigned_abs()))
}

/// The scale for these currents at nodes of these conductances.
pub(crate) fn scale_for(currents: &[i128], conductances: &[u64]) -> Scale {
    let down = most_bits(currents).saturating_sub(CURRENT_BITS);
    let mut lift = MOST_LIFT;
    for (current, conductance) in currents.iter().zip(conductances) {
        lift = lift.min(lift_at(*current, *conductance, down));
    }
    Scale { down, lift }
}

/// Puts currents in units of `2 ^ down`.
pub(crate) fn put_scaled(currents: &[i128], down: u32, values: &mut [i64])
    requires currents { length currents.now ≡ length values.old }
    requires down { down < 128 }
{
    for k in 0..values.len() {
        values[k] = cut(currents[k] >> down);
    }
}

/// A number times `2 ^ (up - down)`, where `up` counts as at most 60 more.
pub(crate) fn shifted(number: i64, up: u32, down: u32) -> i128
    ensures { unsigned_abs result ≤ 2 ^ 126 }
{
    if down <= up {
        product(number, 1 << (up - down).min(60))
    } else {
        number as i128 >> (down - up).min(127)
    }
}

/// Adds a conductance at a node.
fn add_at(conductances: &mut [u64], node: u16, siemens: u64)
    requires { node < length conductances.old }
{
    let node = node as usize;
    conductances[node] = conductances[node].saturating_add(siemens);
}

/// The conductances of nodes, each the sum of those of the wires that end there.
pub(crate) fn put_conductances(wires: &[Wire], conductances: &mut [u64])
    requires { AreWiresInside (length conductances.old) wires.now }
{
    conductances.fill(0);
    for wire in wires {
        add_at(conductances, wire.from, wire.siemens);
        if let End::Node(node) = wire.to {
            add_at(conductances, node.0, wire.siemens);
        }
    }
}

/// Whether no residual is more than its node's conductance carries at three quarters of 2^18 grains.
pub(crate) fn are_small(conductances: &[u64], residuals: &[i128]) -> bool {
    for (conductance, residual) in conductances.iter().zip(residuals) {
        if residual.unsigned_abs() > 3 * (*conductance >> 12) as u128 {
            return false;
        }
    }
    true
}
