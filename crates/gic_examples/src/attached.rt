//! Two monitors of a caller's own, which examples attach.
ghost use Rattle.std.specs.Prelude.{◌≡◌, List, [], ◌++◌, ◌+◌, length, IsOk, IsErr};
ghost use Rattle.gic_view.specs.View.{View};
ghost use Rattle.gic_examples.specs.CountText.{count_text};

use gic_base::OutOfMemory;
use gic_monitor::{Monitor, Roster};
use gic_text::LineBuilder;
use gic_view::StepView;
use std::alloc::Global;

/// Prints how many views it saw. The count stops at the greatest number.
#[derive(Drop)]
pub(crate) struct ViewCounter {
    alloc: Global,
    seen: u64,
}

impl ViewCounter {
    /// A monitor that has not begun: it saw no view.
    pub(crate) fn new(alloc: Global) -> ViewCounter {
        ViewCounter { alloc, seen: 0 }
    }
}

impl Monitor for ViewCounter {
    ghost plan = { λ _ _ views. count_text (length views) };

    ghost outlook = { λ m views. count_text (m.seen + length views) };

    fn begin(&mut self, _roster: &Roster) -> Result<(), OutOfMemory>
        ensures begun { IsOk result }
        ensures plan { (views : List View) → count_text (self.new.seen + length views) ≡ count_text (length views) }
    {
        self.seen = 0;
        Ok(())
    }

    fn see(&mut self, _view: &StepView) {
        self.seen = self.seen.saturating_add(1);
    }

    #[tactic(auto, using(gic_text::proofs::Sizes::line_space))]
    fn print(&self, into: &mut Vec<u8>) -> Result<(), OutOfMemory> {
        let mut line = LineBuilder::new(self.alloc)?;
        line.number(i128::from(self.seen));
        into.extend_from_slice(line.finish())?;
        Ok(())
    }
}

/// Finds no memory when it begins.
#[derive(Drop)]
pub(crate) struct NeverBegun;

impl Monitor for NeverBegun {
    ghost plan = { λ _ _ _. [] };

    ghost outlook = { λ _ _. [] };

    fn begin(&mut self, _roster: &Roster) -> Result<(), OutOfMemory>
        ensures { IsErr result }
    {
        Err(OutOfMemory)
    }

    fn see(&mut self, _view: &StepView) {}

    fn print(&self, _into: &mut Vec<u8>) -> Result<(), OutOfMemory>
        ensures added { IsOk result }
        ensures nothing { _into.new.items ≡ _into.old.items ++ [] }
    {
        Ok(())
    }
}
