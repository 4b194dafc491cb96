//! What the text of the mode tells, what follows of a right report, and what taking an item out and bringing it back does
//! to a network.
ghost use Rattle.gic_outage.specs.Determines.{TextDeterminesOutage};
ghost use Rattle.gic_outage.specs.Follows.{GreatestWorstIsEnclosed, GreatestWorstIsNarrow, NoneIsWithoutSolvedOutage};
ghost use Rattle.gic_outage.specs.Follows.{GreatestVerdictIsTrue, GreatestUndecidedIsNear, WorstVerdictIsTrue, UndecidedAreAtMostNear};
ghost use Rattle.gic_outage.specs.RemovingLaws.{IdleWhereNotStanding, OthersStandAsBefore, ComesBack, IsLastRow};

use gic_criteria::laws::{verdict_law, worst_verdict_law};

/// Texts on one case that are equal show the same width, threshold and field, the same outcomes and the same intervals.
pub fn text_determines_outage_law()
    ensures { TextDeterminesOutage }
{}

/// Over right outages the greatest worst interval of a transformer encloses its greatest worst current, and is no wider
/// than asked; there is none only where no outage is solved. Of a sound case the verdicts on these intervals are true, as
/// are those on the worst intervals of each outage; `undecided` is said only within one width of the threshold, and no more
/// are counted so than are near it.
pub fn right_outages_law()
    ensures enclosed { GreatestWorstIsEnclosed }
    ensures narrow { GreatestWorstIsNarrow }
    ensures none { NoneIsWithoutSolvedOutage }
    ensures verdicts { GreatestVerdictIsTrue }
    ensures near { GreatestUndecidedIsNear }
    ensures each_verdict { WorstVerdictIsTrue }
    ensures undecided_most { UndecidedAreAtMostNear }
{
    verdict_law();
    worst_verdict_law();
}

/// An item is idle where it has no element or is open. Without an item the others stand as before, which is the network with
/// that item opened last; and an item that isn't idle leaves no trace when it comes back.
pub fn outage_law()
    ensures idle { IdleWhereNotStanding }
    ensures others { OthersStandAsBefore }
    ensures back { ComesBack }
    ensures last { IsLastRow }
{}
