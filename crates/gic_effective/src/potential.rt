//! The potential of a node.
ghost use Rattle.std.specs.Prelude.{◌≡◌, ◌*◌, ◌^◌, ◌<◌, length, pos};
ghost use Rattle.gic_fixed.specs.Rounding.{floor_div, ceil_div};
ghost use Rattle.gic_fixed.specs.Encloses.{Encloses, IsWithin};
ghost use Rattle.gic_fixed.specs.Ends.{IsAtMostWide};
ghost use Rattle.gic_model.specs.Sharp.{millivolt};
ghost use Rattle.gic_model.specs.Solution.{Solution};
ghost use Rattle.gic_enclose.specs.Ends.{low_at, high_at, potential_ends};
ghost use Rattle.gic_enclose.specs.Certain.{IsTight};
ghost use Rattle.gic_effective.specs.Holds.{HoldsAt};

use gic_base::NodeId;
use gic_enclose::Potentials;
use gic_fixed::Interval;
use gic_sweep::GRAINS;

/// The potential of a node in millivolts, rounded outward from the grains of its interval. It holds the node's potential
/// in every solution in which the interval does.
pub fn potential_mv(potentials: &Potentials, node: NodeId) -> Interval
    requires { node.0 < length potentials.now }
    ensures low { result.lo ≡ floor_div (low_at potentials.now node.0) (pos millivolt) }
    ensures high { result.hi ≡ ceil_div (high_at potentials.now node.0) (pos millivolt) }
    ensures holds { (s : Solution) → HoldsAt potentials.now s node.0 →
        Encloses result.lo result.hi (s.potential node.0) (1000000 * s.denominator) }
    ensures small { IsWithin (2 ^ 41) result.lo result.hi }
{
    potentials.get(node).div_out(1_000_000 * GRAINS)
}

/// The potential of a node in nanovolts, rounded outward from the grains of its interval. It holds the node's potential
/// in every solution in which the interval does.
pub fn potential_nv(potentials: &Potentials, node: NodeId) -> Interval
    requires { node.0 < length potentials.now }
    ensures low { result.lo ≡ floor_div (low_at potentials.now node.0) (pos (2 ^ 36)) }
    ensures high { result.hi ≡ ceil_div (high_at potentials.now node.0) (pos (2 ^ 36)) }
    ensures holds { (s : Solution) → HoldsAt potentials.now s node.0 → Encloses result.lo result.hi (s.potential node.0) s.denominator }
    ensures small { IsWithin (2 ^ 60) result.lo result.hi }

    // Where the interval is at most 2^32 grains wide, the potential in nanovolts is at most 400 wide.
    ensures tight { IsTight (potential_ends potentials.now node.0) → IsAtMostWide 400 result.lo result.hi }
{
    potentials.get(node).div_out(GRAINS)
}
