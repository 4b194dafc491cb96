//! How often units reach the threshold.
ghost use Rattle.std.specs.Prelude.{◌≡◌, ℕ, ◌+◌, List, [], ◌∷◌, ◌++◌, Bool, cond, map, length, IfOk, OnOk};
ghost use Rattle.std.specs.List.{enumerate_from};
ghost use Rattle.gic_fixed.specs.Ends.{ends_of};
ghost use Rattle.gic_text.specs.Lines.{line_text, lines_text};
ghost use Rattle.gic_view.specs.View.{View};
ghost use Rattle.gic_monitor.specs.DwellText.{begins_above, ends_above, stopped, dwell_line, dwell_text};
ghost use Rattle.gic_monitor.specs.Tallies.{tally_line, tally_text, fresh_tally};

use crate::monitor::Monitor;
use crate::reading::effective_in;
use crate::roster::{Rated, Roster};
use gic_base::{Name, OutOfMemory};
use gic_fixed::Interval;
use gic_text::LineBuilder;
use gic_view::StepView;
use std::alloc::Global;

/// Whether the absolute values of the interval begin at or above the threshold.
fn begins_above(current: Interval, threshold: u32) -> bool
    ensures { result ≡ begins_above threshold (ends_of current) }
{
    let threshold = i128::from(threshold);
    threshold == 0 || current.lo >= threshold || current.hi <= -threshold
}

/// Whether the absolute values of the interval end at or above the threshold.
fn ends_above(current: Interval, threshold: u32) -> bool
    ensures { result ≡ ends_above threshold (ends_of current) }
{
    let threshold = i128::from(threshold);
    current.hi >= threshold || current.lo <= -threshold
}

/// One more where the view counts, and no more than the greatest number.
fn counted(count: u64, counts: bool) -> u64
    ensures { result ≡ stopped (count + cond counts 1 0) }
{
    count.saturating_add(u64::from(counts))
}

/// The counts of a unit, which stop at the greatest number.
#[derive(Clone, Copy, Debug)]
struct Tally {
    name: Name,
    /// Its place among the units of the roster.
    unit: usize,
    certain: u64,
    possible: u64,
}

impl Tally {
    /// Counts a view.
    fn see(&mut self, view: &StepView, threshold: u32)
        ensures { (views : List View) →
            tally_line threshold views self.new ≡ tally_line threshold (view.now ∷ views) self.old }
    {
        let current = effective_in(view, self.unit);
        self.certain = counted(self.certain, begins_above(current, threshold));
        self.possible = counted(self.possible, ends_above(current, threshold));
    }
}

/// The units, of which no view was counted.
fn fresh_tallies(alloc: Global, units: &[Rated]) -> Result<Vec<Tally>, OutOfMemory>
    ensures { IfOk result (λ tallies. tallies.items ≡ map fresh_tally (enumerate_from 0 units.now)) }
{
    let mut tallies = Vec::with_capacity(alloc, units.len())?;
    for (unit, rated) in units.iter().enumerate() {
        tallies.push(Tally {
            name: rated.name,
            unit,
            certain: 0,
            possible: 0,
        })?;
    }
    Ok(tallies)
}

/// Counts a view at each unit.
fn count_all(tallies: &mut [Tally], view: &StepView, threshold: u32)
    ensures { (views : List View) →
        map (tally_line threshold views) tallies.new ≡ map (tally_line threshold (view.now ∷ views)) tallies.old }
{
    for tally in tallies.iter_mut() {
        tally.see(view, threshold);
    }
}

/// Adds the line of a unit.
#[tactic(auto, using(gic_text::proofs::Sizes::line_space))]
fn print_tally(tally: &Tally, line: &mut LineBuilder, into: &mut Vec<u8>) -> Result<(), OutOfMemory>
    ensures { OnOk result (into.new.items ≡ into.old.items
        ++ line_text (dwell_line tally.now.name tally.now.certain tally.now.possible)) }
{
    line.start();
    line.word(b"dwell");
    line.word(tally.name.as_bytes());
    line.number(i128::from(tally.certain));
    line.number(i128::from(tally.possible));
    into.extend_from_slice(line.finish())?;
    Ok(())
}

/// Adds the lines of units.
fn print_tallies(
    tallies: &[Tally],
    line: &mut LineBuilder,
    into: &mut Vec<u8>,
) -> Result<(), OutOfMemory>
    ensures { OnOk result (into.new.items ≡ into.old.items
        ++ lines_text (map (λ t. dwell_line t.name t.certain t.possible) tallies.now)) }
{
    for tally in tallies {
        print_tally(tally, line, into)?;
    }
    Ok(())
}

/// Counts, for each unit, the views whose absolute effective interval begins at or above the threshold (certain), and
/// those whose interval ends at or above it (possible).
#[derive(Drop)]
pub struct DwellMonitor {
    alloc: Global,
    threshold: u32,
    tallies: Vec<Tally>,
}

impl DwellMonitor {
    /// A monitor that has not begun: it counts no unit. Takes no memory; the handle is kept for later growth.
    pub fn new(alloc: Global) -> DwellMonitor
        ensures { result.tallies.items ≡ [] }
    {
        DwellMonitor {
            alloc,
            threshold: 0,
            tallies: Vec::new(alloc),
        }
    }
}

impl Monitor for DwellMonitor {
    ghost plan = { λ _ roster views. dwell_text roster views };

    ghost outlook = { λ m views. tally_text m.threshold m.tallies.items views };

    fn begin(&mut self, roster: &Roster) -> Result<(), OutOfMemory> {
        self.tallies = fresh_tallies(self.alloc, roster.units())?;
        self.threshold = roster.threshold();
        Ok(())
    }

    fn see(&mut self, view: &StepView) {
        count_all(&mut self.tallies, view, self.threshold);
    }

    fn print(&self, into: &mut Vec<u8>) -> Result<(), OutOfMemory> {
        let mut line = LineBuilder::new(self.alloc)?;
        print_tallies(&self.tallies, &mut line, into)
    }
}
