//! What the text of the mode tells, and what follows of a right report.
ghost use Rattle.gic_field.specs.Determines.{TextDeterminesField};
ghost use Rattle.gic_field.specs.Follows.{AbsolutesAreRight, FieldVerdictsAreTrue, UndecidedIsNearThreshold};

use gic_criteria::laws::verdict_law;

/// Texts on one case that are equal show the same field, width and threshold and the same intervals.
pub fn text_determines_field_law()
    ensures { TextDeterminesField }
{}

/// In a right report each absolute interval holds the transformer's absolute effective current in every solution and is no
/// wider than asked, and what its verdicts say is true of every solution; `undecided` is said only within one width of the
/// threshold.
pub fn field_verdicts_law()
    ensures absolutes { AbsolutesAreRight }
    ensures verdicts { FieldVerdictsAreTrue }
    ensures near { UndecidedIsNearThreshold }
{
    verdict_law();
}
