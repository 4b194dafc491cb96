//! The intervals of a potential and of a current in a base field.
ghost use Rattle.std.specs.Prelude.{ℕ, ℤ, ◌<◌, List, length, IsTrue};
ghost use Rattle.gic_fixed.specs.Encloses.{IsWithin};
ghost use Rattle.gic_fixed.specs.Ends.{ends_of};
ghost use Rattle.gic_model.specs.Standing.{IsLive, is_standing};
ghost use Rattle.gic_model.specs.Sums.{Placed};
ghost use Rattle.gic_model.specs.Voltages.{number_at};
ghost use Rattle.gic_net.specs.Net.{standing};
ghost use Rattle.gic_effective.specs.Holds.{AreOfNetwork, HoldsSolutions};
ghost use Rattle.gic_superpose.specs.Pairs.{most_base};
ghost use Rattle.gic_superpose.specs.Quantities.{HoldsQuantity};
ghost use Rattle.gic_superpose.specs.Superposed.{IsNarrowBase};
ghost use Rattle.gic_enclose.specs.Certain.{AreTight};

use gic_base::{ElementId, NodeId};
use gic_effective::{potential_nv, tight_current_na};
use gic_enclose::Potentials;
use gic_fixed::Interval;
use gic_model::Volts;
use gic_net::Net;

/// The potential of a node in nanovolts. From potentials that hold every solution it holds that of a live node, and from
/// tight ones it is narrow enough to be superposed.
pub fn base_potential(potentials: &Potentials, node: NodeId) -> Interval
    requires { node.0 < length potentials.now }
    ensures holds { (stands : List Placed) (volts : ℕ → ℤ) → HoldsSolutions stands volts potentials.now → IsLive stands node.0 →
        HoldsQuantity stands volts (λ s. s.potential node.0) 1 (ends_of result) }
    ensures narrow { AreTight potentials.now → IsNarrowBase (ends_of result) }
    ensures small { IsWithin most_base result.lo result.hi }
{
    potential_nv(potentials, node)
}

/// The current of a standing element in nanoamperes, in the same way.
pub fn base_current(
    net: &Net,
    volts: &Volts,
    potentials: &Potentials,
    element: ElementId,
) -> Interval
    requires together { AreOfNetwork net.now.network volts.now potentials.now }
    requires element { element.0 < length net.now.network.list }
    requires stands { IsTrue (is_standing (standing net.now) element.0) }
    ensures holds { HoldsSolutions (standing net.now) (number_at volts.now) potentials.now →
        HoldsQuantity (standing net.now) (number_at volts.now) (λ s. s.current element.0) 1 (ends_of result) }
    ensures narrow { AreTight potentials.now → IsNarrowBase (ends_of result) }
    ensures small { IsWithin most_base result.lo result.hi }
{
    tight_current_na(net, volts, potentials, element)
}
