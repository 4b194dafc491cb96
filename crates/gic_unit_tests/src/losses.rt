//! The losses of two transformers, by their voltages and by a table.
use crate::watched::{roster_of, text_of};
use gic_base::{Name, OutOfMemory};
use gic_fixed::Interval;
use gic_monitor::{NamedFactor, Roster, TableLoss, VoltLoss};
use gic_view::StepView;
use std::alloc::Global;
use std::test::Fail;

/// The units TA and TB, of 345 kV and of 138.9 kV.
const UNITS: &[(&[u8], u32)] = &[(b"TA", 345000), (b"TB", 138900)];

/// The view of step 1, in which TA has from -2000 to -1000 mA per phase and TB from 500 to 700.
fn first_view(alloc: Global) -> Result<StepView, OutOfMemory> {
    let mut view = StepView::new(alloc, 0, 0, 2)?;
    view.set_number(1);
    view.set_effective(0, Interval::new(-2000, -1000));
    view.set_effective(1, Interval::new(500, 700));
    Ok(view)
}

/// What the losses by a table of these names and factors print after these views.
fn text_by_table(
    alloc: Global,
    entries: &[(&[u8], u32)],
    roster: &Roster,
    views: &[StepView],
) -> Result<Vec<u8>, OutOfMemory> {
    let mut table = Vec::new(alloc);
    for (name, factor) in entries {
        if let Some(name) = Name::read(name) {
            table.push(NamedFactor {
                name,
                factor: *factor,
            })?;
        }
    }
    text_of(alloc, TableLoss::new(alloc, table), roster, views)
}

/// The intervals are made absolute before they are summed, the first factor of a name counts, and a unit without one has
/// no loss. By voltages and a scale of 2 the factors are 690 and 276 var per ampere.
#[test]
fn losses_of_one_view(rt: HostRuntime) -> Result<(), Fail> {
    let alloc = rt.alloc();
    let roster = roster_of(alloc, UNITS)?;
    let views = [first_view(alloc)?];
    let factors: [(&[u8], u32); 3] = [(b"TA", 10), (b"TB", 3), (b"TA", 99)];
    let by_table = text_by_table(alloc, &factors, &roster, &views)?;
    assert!(rt; by_table.as_slice() == "table 11500 22100 step 1\n".as_bytes());
    let by_none = text_by_table(alloc, &[(b"TC", 10)], &roster, &views)?;
    assert!(rt; by_none.as_slice() == "table 0 0 step 1\n".as_bytes());
    let by_voltage = text_of(alloc, VoltLoss::new(alloc, 2), &roster, &views)?;
    assert!(rt; by_voltage.as_slice() == "loss 828000 1573200 step 1\n".as_bytes());
    Ok(())
}

#[test]
fn losses_without_views(rt: HostRuntime) -> Result<(), Fail> {
    let alloc = rt.alloc();
    let roster = roster_of(alloc, UNITS)?;
    let by_table = text_by_table(alloc, &[], &roster, &[])?;
    assert!(rt; by_table.as_slice() == "table none\n".as_bytes());
    let by_voltage = text_of(alloc, VoltLoss::new(alloc, 1), &roster, &[])?;
    assert!(rt; by_voltage.as_slice() == "loss none\n".as_bytes());
    Ok(())
}
