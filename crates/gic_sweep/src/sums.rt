//! Sums at all nodes, to which elements add their shares.
ghost use Rattle.std.specs.Prelude.{◌≡◌, ℕ, ◌+◌, ◌^◌, ◌<◌, ◌≤◌, ◌==◌, length, pos, neg_ℤ, ◌+ℤ◌, unsigned_abs, cond};
ghost use Rattle.gic_fixed.specs.Encloses.{IsWithin};
ghost use Rattle.gic_model.specs.Limits.{IsElementWithin};
ghost use Rattle.gic_model.specs.Voltages.{number_at};
ghost use Rattle.gic_sweep.specs.Passes.{share_at};

use gic_base::NodeId;
use gic_fixed::Interval;
use gic_model::{Element, End};

/// What an element adds at its two ends.
#[derive(Clone, Copy)]
pub(crate) struct Share {
    pub(crate) out: i128,
    pub(crate) back: i128,
}

/// The share of a current rounded down: what comes back is what went out rounded up, with its sign turned.
#[inline(always)]
pub(crate) fn share_down(flow: &Interval) -> Share
    requires { IsWithin (2 ^ 118) flow.now.lo flow.now.hi }
    ensures out { result.out ≡ flow.now.lo }
    ensures back { result.back ≡ neg_ℤ flow.now.hi }
    ensures small_out { unsigned_abs result.out ≤ 2 ^ 118 }
    ensures small_back { unsigned_abs result.back ≤ 2 ^ 118 }
{
    Share {
        out: flow.lo,
        back: -flow.hi,
    }
}

/// The share of a current rounded up.
#[inline(always)]
pub(crate) fn share_up(flow: &Interval) -> Share
    requires { IsWithin (2 ^ 118) flow.now.lo flow.now.hi }
    ensures out { result.out ≡ flow.now.hi }
    ensures back { result.back ≡ neg_ℤ flow.now.lo }
    ensures small_out { unsigned_abs result.out ≤ 2 ^ 118 }
    ensures small_back { unsigned_abs result.back ≤ 2 ^ 118 }
{
    Share {
        out: flow.hi,
        back: -flow.lo,
    }
}

/// Adds a part at a node.
#[inline(always)]
fn add_at(sums: &mut [i128], node: NodeId, part: i128)
    requires node { node.0 < length sums.old }
    requires small { unsigned_abs (number_at sums.old node.0) ≤ 2 ^ 126 + 2 ^ 118 }
    requires part { unsigned_abs part ≤ 2 ^ 118 }
    ensures same_length { length sums.new ≡ length sums.old }
    ensures sums { (k : ℕ) → number_at sums.new k ≡ (cond (node.0 == k) part (pos 0) +ℤ number_at sums.old k) }
{
    let sum = sums[node.0 as usize];
    sums[node.0 as usize] = part + sum;
}

/// Adds a share at both ends of an element.
#[inline(always)]
pub(crate) fn add_ends(sums: &mut [i128], element: &Element, share: &Share)
    requires within { IsElementWithin (length sums.old) element.now }
    requires space { (k : ℕ) → k < length sums.old → unsigned_abs (number_at sums.old k) ≤ 2 ^ 126 }
    requires out { unsigned_abs share.now.out ≤ 2 ^ 118 }
    requires back { unsigned_abs share.now.back ≤ 2 ^ 118 }
    ensures same_length { length sums.new ≡ length sums.old }
    ensures sums { (k : ℕ) → number_at sums.new k ≡ (share_at element.now k share.now.out share.now.back +ℤ number_at sums.old k) }
{
    add_at(sums, element.from, share.out);
    if let End::Node(node) = element.to {
        add_at(sums, node, share.back);
    }
}

/// Makes each sum 0.
pub(crate) fn clear(sums: &mut [i128])
    ensures same_length { length sums.new ≡ length sums.old }
    ensures sums { (k : ℕ) → number_at sums.new k ≡ pos 0 }
{
    for i in 0..sums.len() {
        sums[i] = 0;
    }
}
