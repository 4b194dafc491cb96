//! The interval of a transformer's effective current in a base field.
ghost use Rattle.std.specs.Prelude.{◌≡◌, ◌*◌, ◌<◌, length, IfSome};
ghost use Rattle.gic_fixed.specs.Encloses.{IsWithin};
ghost use Rattle.gic_fixed.specs.Ends.{ends_of, zero_ends, IsAtMostWide};
ghost use Rattle.gic_model.specs.Voltages.{number_at};
ghost use Rattle.gic_net.specs.Net.{standing};
ghost use Rattle.gic_winding.specs.ElementList.{elements_of};
ghost use Rattle.gic_winding.specs.Weights.{transformer_at};
ghost use Rattle.gic_effective.specs.Holds.{AreOfNetwork, HoldsSolutions};
ghost use Rattle.gic_effective.specs.Ohm.{most_current};
ghost use Rattle.gic_effective.specs.RightView.{HasNoEffect};
ghost use Rattle.gic_effective.specs.Shown.{IsShownCurrent, IsShownWinding};
ghost use Rattle.gic_effective.specs.Weighted.{effective_numerator};
ghost use Rattle.gic_superpose.specs.Pairs.{most_base};
ghost use Rattle.gic_superpose.specs.Quantities.{HoldsQuantity};
ghost use Rattle.gic_superpose.specs.Superposed.{IsNarrowBase};
ghost use Rattle.gic_enclose.specs.Certain.{AreTight};

use gic_base::ElementId;
use gic_case::Case;
use gic_effective::{WindingCurrents, current_na, effective_na};
use gic_enclose::Potentials;
use gic_fixed::Interval;
use gic_model::Volts;
use gic_net::Net;
use gic_winding::effective_weights;

/// The current of an element in nanoamperes, 0 where it doesn't stand.
fn current_or_zero(
    net: &Net,
    volts: &Volts,
    potentials: &Potentials,
    element: ElementId,
) -> Interval
    requires together { AreOfNetwork net.now.network volts.now potentials.now }
    requires element { element.0 < length net.now.network.list }
    ensures shown { IsShownCurrent (standing net.now) (number_at volts.now) potentials.now element.0 result.lo result.hi }
    ensures small { IsWithin most_current result.lo result.hi }
    ensures tight { AreTight potentials.now → IsAtMostWide 400 result.lo result.hi }
{
    // Brings that the element is within its limits.
    let _row = net.element(element);
    if net.stands(element) {
        current_na(net, volts, potentials, element)
    } else {
        Interval::point(0)
    }
}

/// The current of a winding in nanoamperes. One that is open, or isn't there, counts as 0.
fn winding_or_zero(
    net: &Net,
    volts: &Volts,
    potentials: &Potentials,
    winding: Option<(ElementId, u32)>,
) -> Interval
    requires together { AreOfNetwork net.now.network volts.now potentials.now }
    requires winding { IfSome winding (λ w. w.0.0 < length net.now.network.list) }
    ensures shown { IsShownWinding (standing net.now) (number_at volts.now) potentials.now winding result.lo result.hi }
    ensures small { IsWithin most_current result.lo result.hi }
    ensures tight { AreTight potentials.now → IsAtMostWide 400 result.lo result.hi }
{
    match winding {
        Some((element, _)) => current_or_zero(net, volts, potentials, element),
        None => Interval::point(0),
    }
}

/// The signed effective current of a transformer in nanoamperes per phase, in which an open winding counts as 0. From
/// potentials that hold every solution it holds that current, and from tight ones it is narrow enough to be superposed.
pub fn base_effective(
    case: &Case,
    net: &Net,
    volts: &Volts,
    potentials: &Potentials,
    transformer: u16,
) -> Interval
    requires net { net.now.network ≡ elements_of case.now }
    requires together { AreOfNetwork net.now.network volts.now potentials.now }
    requires place { transformer < length case.now.transformers }
    ensures holds { HoldsSolutions (standing net.now) (number_at volts.now) potentials.now →
        HoldsQuantity (standing net.now) (number_at volts.now) (λ s. effective_numerator case.now s transformer)
        (3 * (transformer_at case.now transformer).high_volts) (ends_of result) }
    ensures zeroed { HasNoEffect case.now (standing net.now) transformer → ends_of result ≡ zero_ends }
    ensures narrow { AreTight potentials.now → IsNarrowBase (ends_of result) }
    ensures small { IsWithin most_base result.lo result.hi }
{
    // Brings that the transformer's row is sound.
    let _row = &case.transformers()[transformer as usize];
    let weights = effective_weights(case, net.list(), transformer);
    let first = winding_or_zero(net, volts, potentials, weights.first);
    let second = winding_or_zero(net, volts, potentials, weights.second);
    let third = winding_or_zero(net, volts, potentials, weights.third);
    let currents = WindingCurrents {
        first,
        second,
        third,
    };
    effective_na(&weights, &currents)
}
