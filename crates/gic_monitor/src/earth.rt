//! The ranges of the currents of earthings.
ghost use Rattle.std.specs.Prelude.{◌≡◌, List, [], ◌∷◌, ◌++◌, map, IfOk, OnOk, Some};
ghost use Rattle.std.specs.Option.{option_to_list};
ghost use Rattle.gic_fixed.specs.Ends.{ends_of};
ghost use Rattle.gic_text.specs.Lines.{line_text, lines_text};
ghost use Rattle.gic_view.specs.View.{View};
ghost use Rattle.gic_view.specs.Kept.{optional_ends};
ghost use Rattle.gic_monitor.specs.EarthText.{range_of, earth_line, earth_text};
ghost use Rattle.gic_monitor.specs.Ranges.{range_line, range_text, fresh_range};

use crate::monitor::Monitor;
use crate::reading::element_in;
use crate::roster::{Roster, Seat};
use gic_base::{ElementId, Name, OutOfMemory};
use gic_fixed::Interval;
use gic_text::LineBuilder;
use gic_view::StepView;
use std::alloc::Global;

/// The least low end and the greatest high end of the range so far and of an interval.
fn widened(range: Option<Interval>, current: Interval) -> Interval
    ensures { range_of (option_to_list (optional_ends range) ++ ends_of current ∷ []) ≡ Some (ends_of result) }
{
    match range {
        None => current,
        Some(range) => Interval::new(range.lo.min(current.lo), range.hi.max(current.hi)),
    }
}

/// An earthing, and the range of its current in milliamperes over the views in which it stood.
#[derive(Clone, Copy, Debug)]
struct SeatRange {
    name: Name,
    element: ElementId,
    range: Option<Interval>,
}

impl SeatRange {
    /// Takes in a view.
    fn see(&mut self, view: &StepView)
        ensures { (views : List View) → range_line views self.new ≡ range_line (view.now ∷ views) self.old }
    {
        if let Some(current) = element_in(view, self.element) {
            self.range = Some(widened(self.range, current));
        }
    }
}

/// The earthings, of which no view was seen.
fn fresh_ranges(alloc: Global, seats: &[Seat]) -> Result<Vec<SeatRange>, OutOfMemory>
    ensures { IfOk result (λ ranges. ranges.items ≡ map fresh_range seats.now) }
{
    let mut ranges = Vec::with_capacity(alloc, seats.len())?;
    for seat in seats {
        ranges.push(SeatRange {
            name: seat.name,
            element: seat.element,
            range: None,
        })?;
    }
    Ok(ranges)
}

/// Takes in a view at each earthing.
fn widen_all(ranges: &mut [SeatRange], view: &StepView)
    ensures { (views : List View) → map (range_line views) ranges.new ≡ map (range_line (view.now ∷ views)) ranges.old }
{
    for seat in ranges.iter_mut() {
        seat.see(view);
    }
}

/// Adds the line of an earthing.
#[tactic(auto, using(gic_text::proofs::Sizes::line_space))]
fn print_range(
    seat: &SeatRange,
    line: &mut LineBuilder,
    into: &mut Vec<u8>,
) -> Result<(), OutOfMemory>
    ensures { OnOk result (into.new.items ≡ into.old.items
        ++ line_text (earth_line seat.now.name (optional_ends seat.now.range))) }
{
    line.start();
    line.word(b"earth");
    line.word(seat.name.as_bytes());
    match seat.range {
        None => line.word(b"open"),
        Some(range) => {
            line.number(range.lo);
            line.number(range.hi);
        }
    }
    into.extend_from_slice(line.finish())?;
    Ok(())
}

/// Adds the lines of earthings.
fn print_ranges(
    ranges: &[SeatRange],
    line: &mut LineBuilder,
    into: &mut Vec<u8>,
) -> Result<(), OutOfMemory>
    ensures { OnOk result (into.new.items ≡ into.old.items
        ++ lines_text (map (λ s. earth_line s.name (optional_ends s.range)) ranges.now)) }
{
    for seat in ranges {
        print_range(seat, line, into)?;
    }
    Ok(())
}

/// Keeps, for each earthing, the least low end and the greatest high end of its current's intervals over the views in
/// which it stands.
#[derive(Drop)]
pub struct EarthMonitor {
    alloc: Global,
    ranges: Vec<SeatRange>,
}

impl EarthMonitor {
    /// A monitor that has not begun: it sees no earthing. Takes no memory; the handle is kept for later growth.
    pub fn new(alloc: Global) -> EarthMonitor
        ensures { result.ranges.items ≡ [] }
    {
        EarthMonitor {
            alloc,
            ranges: Vec::new(alloc),
        }
    }
}

impl Monitor for EarthMonitor {
    ghost plan = { λ _ roster views. earth_text roster views };

    ghost outlook = { λ m views. range_text m.ranges.items views };

    fn begin(&mut self, roster: &Roster) -> Result<(), OutOfMemory> {
        self.ranges = fresh_ranges(self.alloc, roster.seats())?;
        Ok(())
    }

    fn see(&mut self, view: &StepView) {
        widen_all(&mut self.ranges, view);
    }

    fn print(&self, into: &mut Vec<u8>) -> Result<(), OutOfMemory> {
        let mut line = LineBuilder::new(self.alloc)?;
        print_ranges(&self.ranges, &mut line, into)
    }
}
