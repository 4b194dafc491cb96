//! The current of a transformer's winding.
ghost use Rattle.std.specs.Prelude.{◌<◌, length, IfSome};
ghost use Rattle.gic_fixed.specs.Encloses.{IsWithin};
ghost use Rattle.gic_fixed.specs.Ends.{IsAtMostWide};
ghost use Rattle.gic_model.specs.Voltages.{number_at};
ghost use Rattle.gic_net.specs.Net.{standing};
ghost use Rattle.gic_enclose.specs.Certain.{AreTight};
ghost use Rattle.gic_effective.specs.Holds.{AreOfNetwork};
ghost use Rattle.gic_effective.specs.Ohm.{most_current};
ghost use Rattle.gic_effective.specs.Shown.{IsShownCurrent, IsShownWinding};

use crate::current::current_na;
use gic_base::ElementId;
use gic_enclose::Potentials;
use gic_fixed::Interval;
use gic_model::Volts;
use gic_net::Net;

/// The current of an element in nanoamperes, 0 where it doesn't stand.
fn current_or_zero(
    net: &Net,
    volts: &Volts,
    potentials: &Potentials,
    element: ElementId,
) -> Interval
    requires together { AreOfNetwork net.now.network volts.now potentials.now }
    requires element { element.0 < length net.now.network.list }
    ensures shown { IsShownCurrent (standing net.now) (number_at volts.now) potentials.now element.0 result.lo result.hi }
    ensures small { IsWithin most_current result.lo result.hi }
    ensures tight { AreTight potentials.now → IsAtMostWide 400 result.lo result.hi }
{
    if net.stands(element) {
        // Brings that the element is within its limits.
        let _row = net.element(element);
        current_na(net, volts, potentials, element)
    } else {
        Interval::point(0)
    }
}

/// The current of a winding in nanoamperes. One that is open, or isn't there, counts as 0.
pub(crate) fn winding_current(
    net: &Net,
    volts: &Volts,
    potentials: &Potentials,
    winding: Option<(ElementId, u32)>,
) -> Interval
    requires together { AreOfNetwork net.now.network volts.now potentials.now }
    requires winding { IfSome winding (λ w. w.0.0 < length net.now.network.list) }
    ensures shown { IsShownWinding (standing net.now) (number_at volts.now) potentials.now winding result.lo result.hi }
    ensures small { IsWithin most_current result.lo result.hi }
    ensures tight { AreTight potentials.now → IsAtMostWide 400 result.lo result.hi }
{
    match winding {
        Some((element, _)) => current_or_zero(net, volts, potentials, element),
        None => Interval::point(0),
    }
}
