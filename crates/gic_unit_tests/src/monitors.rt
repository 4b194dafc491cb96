//! Two monitors over three views, and over none.
ghost use Rattle.std.specs.Prelude.{IfSome};
ghost use Rattle.gic_fixed.specs.Ends.{ends_of};
ghost use Rattle.gic_view.specs.Bounds.{FitsView};
ghost use Rattle.gic_view.specs.Kept.{optional_ends};

use crate::watched::{roster_of, text_of};
use gic_base::{ElementId, OutOfMemory};
use gic_fixed::Interval;
use gic_monitor::{DwellMonitor, EarthMonitor};
use gic_view::StepView;
use std::alloc::Global;
use std::test::Fail;

/// The transformer T.
const UNITS: &[(&[u8], u32)] = &[(b"T", 345000)];

/// A view of one element and one transformer.
fn view_of(
    alloc: Global,
    earth: Option<Interval>,
    effective: Interval,
) -> Result<StepView, OutOfMemory>
    requires earth { IfSome (optional_ends earth) FitsView }
    requires effective { FitsView (ends_of effective) }
{
    let mut view = StepView::new(alloc, 0, 1, 1)?;
    view.set_element(ElementId(0), earth);
    view.set_effective(0, effective);
    Ok(view)
}

/// Three views, the earthing open in the second.
fn three_views(alloc: Global) -> Result<[StepView; 3], OutOfMemory> {
    Ok([
        view_of(
            alloc,
            Some(Interval::new(-5, -3)),
            Interval::new(74999, 75000),
        )?,
        view_of(alloc, None, Interval::new(-76000, -75500))?,
        view_of(alloc, Some(Interval::new(2, 4)), Interval::new(0, 10))?,
    ])
}

/// One view is certainly at the threshold or above, and two may be. The current of the earthing is from -5 to 4 where it
/// stands.
#[test]
fn monitors_over_three_views(rt: HostRuntime) -> Result<(), Fail> {
    let alloc = rt.alloc();
    let roster = roster_of(alloc, UNITS)?;
    let views = three_views(alloc)?;
    let dwell = text_of(alloc, DwellMonitor::new(alloc), &roster, &views)?;
    assert!(rt; dwell.as_slice() == "dwell T 1 2\n".as_bytes());
    let earth = text_of(alloc, EarthMonitor::new(alloc), &roster, &views)?;
    assert!(rt; earth.as_slice() == "earth A -5 4\n".as_bytes());
    Ok(())
}

#[test]
fn earth_without_views(rt: HostRuntime) -> Result<(), Fail> {
    let alloc = rt.alloc();
    let roster = roster_of(alloc, UNITS)?;
    let unseen = text_of(alloc, EarthMonitor::new(alloc), &roster, &[])?;
    assert!(rt; unseen.as_slice() == "earth A open\n".as_bytes());
    Ok(())
}
