//! The effective current of a transformer in nanoamperes.
ghost use Rattle.std.specs.Prelude.{◌≡◌, ◌*◌, ◌^◌, ◌<◌, length};
ghost use Rattle.gic_fixed.specs.Encloses.{Encloses, IsWithin};
ghost use Rattle.gic_fixed.specs.Ends.{IsAtMostWide};
ghost use Rattle.gic_model.specs.Solution.{Solution, IsSolution};
ghost use Rattle.gic_model.specs.Voltages.{number_at};
ghost use Rattle.gic_net.specs.Net.{standing};
ghost use Rattle.gic_enclose.specs.Certain.{AreTight};
ghost use Rattle.gic_winding.specs.ElementList.{elements_of};
ghost use Rattle.gic_winding.specs.Weights.{transformer_at};
ghost use Rattle.gic_effective.specs.Holds.{AreOfNetwork, HoldsSolution};
ghost use Rattle.gic_effective.specs.Weighted.{effective_numerator};

use crate::effective::effective_na;
use crate::winding::winding_current;
use crate::winding_currents::WindingCurrents;
use gic_case::Case;
use gic_enclose::Potentials;
use gic_fixed::Interval;
use gic_model::{Element, Volts};
use gic_net::Net;
use gic_winding::effective_weights;

/// The signed effective current of a transformer in nanoamperes per phase, in which an open winding counts as 0. The
/// elements are those of the case; the net has as many, and may have other resistances.
pub fn effective_na_interval(
    case: &Case,
    elements: &[Element],
    net: &Net,
    volts: &Volts,
    potentials: &Potentials,
    transformer: u16,
) -> Interval
    requires elements { elements.now ≡ (elements_of case.now).list }
    requires count { length net.now.network.list ≡ length elements.now }
    requires together { AreOfNetwork net.now.network volts.now potentials.now }
    requires place { transformer < length case.now.transformers }
    ensures holds { (s : Solution) → IsSolution (standing net.now) (number_at volts.now) s → HoldsSolution (standing net.now) potentials.now s →
        Encloses result.lo result.hi (effective_numerator case.now s transformer) (3 * (transformer_at case.now transformer).high_volts * s.denominator) }
    ensures small { IsWithin (2 ^ 80) result.lo result.hi }

    // Where no potential's interval is wider than 2^32 grains, it is at most 401 nanoamperes wide.
    ensures tight { AreTight potentials.now → IsAtMostWide 401 result.lo result.hi }
{
    // Brings that the transformer's row is sound.
    case.keeps_rules();
    let weights = effective_weights(case, elements, transformer);
    let first = winding_current(net, volts, potentials, weights.first);
    let second = winding_current(net, volts, potentials, weights.second);
    let third = winding_current(net, volts, potentials, weights.third);
    let currents = WindingCurrents {
        first,
        second,
        third,
    };
    effective_na(&weights, &currents)
}
