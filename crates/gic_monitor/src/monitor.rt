//! What sees the steps of a study.
ghost use Rattle.std.specs.Prelude.{◌≡◌, ℕ, List, [], ◌∷◌, ◌++◌, OnOk};
ghost use Rattle.gic_view.specs.View.{View};
ghost use Rattle.gic_monitor.specs.RosterView.{RosterView};

use crate::roster::Roster;
use gic_base::OutOfMemory;
use gic_view::StepView;

/// Sees the views of a study's steps, one after another, and prints a text in the end.
pub trait Monitor: Drop {
    /// The text that it would print after beginning with a roster and seeing these views.
    ghost plan: { Self → RosterView → List View → List ℕ };

    /// The text that it would print after seeing these further views.
    ghost outlook: { Self → List View → List ℕ };

    /// Begins with a roster, whatever was seen before. After a refusal nothing is known of the outlook.
    fn begin(&mut self, roster: &Roster) -> Result<(), OutOfMemory>
        ensures { OnOk result ((views : List View) → outlook self.new views ≡ plan self.old roster.now views) };

    /// Sees the next view. Takes no memory.
    fn see(&mut self, view: &StepView)
        ensures { (views : List View) → outlook self.new views ≡ outlook self.old (view.now ∷ views) };

    /// Adds its text. After a refusal nothing is known of what was added.
    fn print(&self, into: &mut Vec<u8>) -> Result<(), OutOfMemory>
        ensures { OnOk result (into.new.items ≡ into.old.items ++ outlook self.now []) };
}
