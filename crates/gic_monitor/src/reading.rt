//! What a view shows of a unit and of an earthing, whether or not it has one at that place.
ghost use Rattle.std.specs.Prelude.{◌≡◌};
ghost use Rattle.gic_fixed.specs.Ends.{ends_of};
ghost use Rattle.gic_view.specs.View.{element_at, effective_at};
ghost use Rattle.gic_view.specs.Kept.{optional_ends};

use gic_base::ElementId;
use gic_fixed::Interval;
use gic_view::StepView;

/// The interval of the unit's signed effective current in milliamperes per phase, 0 alone where the view has no such
/// unit.
pub(crate) fn effective_in(view: &StepView, unit: usize) -> Interval
    ensures { ends_of result ≡ effective_at view.now unit }
{
    let (_, _, transformers) = view.sizes();
    match u16::try_from(unit) {
        Ok(transformer) if transformer < transformers => view.effective(transformer),
        _ => Interval::point(0),
    }
}

/// The interval of the element's current in milliamperes, `None` where it doesn't stand or the view has no such
/// element.
pub(crate) fn element_in(view: &StepView, element: ElementId) -> Option<Interval>
    ensures { optional_ends result ≡ element_at view.now element.0 }
{
    let (_, elements, _) = view.sizes();
    if element.0 < elements {
        view.element(element)
    } else {
        None
    }
}
