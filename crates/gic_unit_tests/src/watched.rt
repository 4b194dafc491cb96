//! What monitors are told of a network, and what they print of its views.
use gic_base::{ElementId, Name, OutOfMemory};
use gic_monitor::{Monitor, Rated, Roster, Seat};
use gic_view::StepView;
use std::alloc::Global;

/// The earthing A, which is the first element, and the units of these names and high voltages, in volts, with a threshold
/// of 75 A.
pub(crate) fn roster_of(alloc: Global, names: &[(&[u8], u32)]) -> Result<Roster, OutOfMemory> {
    let mut seats = Vec::new(alloc);
    if let Some(name) = Name::read(b"A") {
        seats.push(Seat {
            name,
            element: ElementId(0),
        })?;
    }
    let mut units = Vec::new(alloc);
    for (name, high_volts) in names {
        if let Some(name) = Name::read(name) {
            units.push(Rated {
                name,
                high_volts: *high_volts,
            })?;
        }
    }
    Ok(Roster::new(75000, seats, units))
}

/// What a monitor prints after these views.
pub(crate) fn text_of<M: Monitor>(
    alloc: Global,
    mut monitor: M,
    roster: &Roster,
    views: &[StepView],
) -> Result<Vec<u8>, OutOfMemory> {
    monitor.begin(roster)?;
    for view in views {
        monitor.see(view);
    }
    let mut text = Vec::new(alloc);
    monitor.print(&mut text)?;
    Ok(text)
}
