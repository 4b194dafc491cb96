//! What the text of the mode tells, and what follows of a right report.
ghost use Rattle.gic_robust.specs.Determines.{TextDeterminesRobust};
ghost use Rattle.gic_robust.specs.Follows.{RobustVerdictsAreTrue};
ghost use Rattle.gic_robust.specs.Resolution.{RowsAreNearReference, FieldsDriveLinesAlone};

use gic_criteria::laws::{verdict_law, worst_verdict_law};
use gic_enclose::laws::potential_bound_law;
use gic_exists::laws::existence_law;
use gic_varied::laws::{
    certified_enclosure_law, near_enclosure_law, other_grounds_law, reach_law, reciprocity_law,
    sizes_law, varied_bound_law, varied_law,
};

/// Texts on one case that are equal show the same width, threshold, field and tolerance and the same intervals.
pub fn text_determines_robust_law()
    ensures { TextDeterminesRobust }
{}

/// In a right report, what the verdict on each transformer says is true of its worst current whatever resistances of
/// their ranges the grounds have.
pub fn robust_verdicts_law()
    ensures { RobustVerdictsAreTrue }
{
    verdict_law();
    worst_verdict_law();
}

/// In a right report the first two intervals of each transformer end at most 10 mA beyond the reference enclosure in exact
/// numbers. No element but lines has a voltage in a field, as that asks.
pub fn resolution_law()
    ensures near { RowsAreNearReference }
    ensures lines { FieldsDriveLinesAlone }
{
    near_enclosure_law();
    sizes_law();
    reach_law();
    existence_law();
    potential_bound_law();
    varied_law();
    certified_enclosure_law();
    reciprocity_law();
    varied_bound_law();
    other_grounds_law();
}
