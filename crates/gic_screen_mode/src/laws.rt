//! What the text of the mode tells, and what follows of a right report.
ghost use Rattle.gic_screen_mode.specs.Determines.{TextDeterminesScreen};
ghost use Rattle.gic_screen_mode.specs.Follows.{ScreenVerdictsAreTrue, UndecidedIsNearThreshold};

use gic_criteria::laws::{verdict_law, worst_verdict_law};

/// Texts on one case that are equal show the same width, threshold and field and the same intervals.
pub fn text_determines_screen_law()
    ensures { TextDeterminesScreen }
{}

/// In a right report, what the verdict on each transformer says is true of its worst current in every two solutions.
pub fn screen_verdicts_law()
    ensures { ScreenVerdictsAreTrue }
{
    verdict_law();
    worst_verdict_law();
}

/// In a right report, `undecided` is said only of a worst current within one width of the threshold.
pub fn undecided_in_screen_law()
    ensures { UndecidedIsNearThreshold }
{
    verdict_law();
}
