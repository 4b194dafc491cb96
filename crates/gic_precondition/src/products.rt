//! Sums and products of vectors.
ghost use Rattle.std.specs.Prelude.{ℕ, ◌≡◌, ◌+◌, ◌*◌, ◌^◌, ◌<◌, ◌≤◌, length, unsigned_abs};
ghost use Rattle.gic_model.specs.Limits.{IsEndWithin};
ghost use Rattle.gic_precondition.specs.Inside.{IsWireInside, AreWiresInside};

use crate::numbers::{bits_of, cut, product};
use crate::parts::Wire;
use gic_model::End;

/// The potential at an end, 0 at earth.
#[inline(always)]
fn potential_at(potentials: &[i64], end: End) -> i64
    requires { IsEndWithin (length potentials.now) end }
{
    match end {
        End::Node(node) => potentials[node.0 as usize],
        End::Earth => 0,
    }
}

/// A conductance times a fall.
#[inline(always)]
fn times(siemens: u64, from: i64, to: i64) -> i128
    requires { siemens ≤ 2 ^ 48 }
{
    siemens as i128 * (from as i128 - to as i128)
}

/// The current through a wire, at potentials that are `2 ^ lift` times too great.
#[inline(always)]
fn flow(wire: &Wire, potentials: &[i64], lift: u32) -> i64
    requires wire { IsWireInside (length potentials.now) wire.now }
    requires lift { lift < 128 }
    ensures { unsigned_abs result ≤ 2 ^ 56 }
{
    let from = potentials[wire.from as usize];
    let to = potential_at(potentials, wire.to);
    cut(times(wire.siemens, from, to) >> lift)
}

/// Adds what leaves a node. A sum that is too great goes round: a wrong proposal, and no fault.
#[inline(always)]
fn add_at(currents: &mut [i64], node: u16, current: i64)
    requires { node < length currents.old }
{
    let node = node as usize;
    currents[node] = currents[node].wrapping_add(current);
}

/// The currents that leave the nodes, at potentials that are `2 ^ lift` times too great.
pub(crate) fn put_currents(wires: &[Wire], potentials: &[i64], lift: u32, currents: &mut [i64])
    requires count { length potentials.now ≡ length currents.old }
    requires wires { AreWiresInside (length currents.old) wires.now }
    requires lift { lift < 128 }
{
    currents.fill(0);
    for wire in wires {
        let flow = flow(wire, potentials, lift);
        add_at(currents, wire.from, flow);
        if let End::Node(node) = wire.to {
            add_at(currents, node.0, -flow);
        }
    }
}

/// The sum of the products of two vectors, in units of 2^16. One that is too great goes round.
pub(crate) fn dot(a: &[i64], b: &[i64]) -> i128 {
    let mut sum: i128 = 0;
    for (x, y) in a.iter().zip(b) {
        sum = sum.wrapping_add(product(*x >> 8, *y >> 8));
    }
    sum
}

/// A quotient of numbers above 0 in units of 2^-30, cut to 2^40, and 0 of others.
pub(crate) fn ratio(above: i128, below: i128) -> i64
    ensures { unsigned_abs result ≤ 2 ^ 56 }
{
    let less = bits_of(below.unsigned_abs()).saturating_sub(60);
    let above = (above >> less).min(1 << 90);
    let below = below >> less;
    if above <= 0 || below <= 0 {
        return 0;
    }
    cut(above * (1 << 30) / below).min(1 << 40)
}

/// A number and a multiple of another, with the factor in units of 2^-30.
#[inline(always)]
fn moved(number: i64, other: i64, factor: i64) -> i64 {
    cut(number as i128 + (product(other, factor) >> 30))
}

/// Adds to each number of a vector a multiple of another's.
pub(crate) fn add_multiple(values: &mut [i64], others: &[i64], factor: i64)
    requires { length others.now ≡ length values.old }
{
    for k in 0..values.len() {
        values[k] = moved(values[k], others[k], factor);
    }
}

/// Makes each number of a vector another's and a multiple of its own.
pub(crate) fn multiply_add(values: &mut [i64], others: &[i64], factor: i64)
    requires { length others.now ≡ length values.old }
{
    for k in 0..values.len() {
        values[k] = moved(others[k], values[k], factor);
    }
}
