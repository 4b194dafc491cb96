//! Peaks worked by hand.
ghost use Rattle.std.specs.Prelude.{◌≡◌, [], ◌∷◌, IfOk, IfSome};
ghost use Rattle.gic_fixed.specs.Ends.{ends_of};
ghost use Rattle.gic_view.specs.Bounds.{FitsView};
ghost use Rattle.gic_view.specs.Kept.{optional_ends};

use gic_base::{ElementId, NodeId, OutOfMemory};
use gic_fixed::Interval;
use gic_view::{Peaks, StepView};
use std::alloc::Global;
use std::test::Fail;

/// A view of one node, one element and one transformer.
fn view_of(
    alloc: Global,
    node: Option<Interval>,
    element: Option<Interval>,
    effective: Interval,
) -> Result<StepView, OutOfMemory>
    requires node { IfSome (optional_ends node) FitsView }
    requires element { IfSome (optional_ends element) FitsView }
    requires effective { FitsView (ends_of effective) }
    ensures { IfOk result (λ view. view ≡ record {
      number = 0;
      time = 0;
      nodes = optional_ends node ∷ [];
      elements = optional_ends element ∷ [];
      effective = ends_of effective ∷ [];
    }) }
{
    let mut view = StepView::new(alloc, 1, 1, 1)?;
    view.set_node(NodeId(0), node);
    view.set_element(ElementId(0), element);
    view.set_effective(0, effective);
    Ok(view)
}

/// The absolute intervals are 3 to 5 and 1 to 4 at the node; 0 to 6 and 3 to 4 at the element, which doesn't stand at
/// first; and 0 to 7, 2 to 3 and 0 to 0 of the transformer.
#[test]
fn takes_the_greatest_ends(rt: HostRuntime) -> Result<(), Fail> {
    let alloc = rt.alloc();
    let mut peaks = Peaks::new(alloc, 1, 1, 1)?;
    let first = view_of(
        alloc,
        Some(Interval::new(-5, -3)),
        None,
        Interval::new(-7, 1),
    )?;
    peaks.see(&first);
    let second = view_of(
        alloc,
        Some(Interval::new(1, 4)),
        Some(Interval::new(-2, 6)),
        Interval::new(2, 3),
    )?;
    peaks.see(&second);
    let third = view_of(alloc, None, Some(Interval::new(-4, -3)), Interval::point(0))?;
    peaks.see(&third);
    let view = peaks.view();
    assert_eq!(rt; view.node(NodeId(0)), Some(Interval::new(3, 5)));
    assert_eq!(rt; view.element(ElementId(0)), Some(Interval::new(3, 6)));
    assert_eq!(rt; view.effective(0), Interval::new(2, 7));
    Ok(())
}
