//! Theorems of studies, each the contract of a function that does nothing but bring the theorems that it joins.
ghost use Rattle.gic_study_mode.specs.Follows.{AcceptedStormsHaveSteps, PeaksAreNarrow, PeaksEnclose, PeakVerdictsAreTrue, UndecidedPeaksAreNear};

use gic_criteria::laws::verdict_law;
use gic_view::laws::{peak_is_absolute_law, peak_is_narrow_law, peaks_enclose_law};

/// Every storm that is accepted has a step.
pub fn accepted_storms_have_steps_law()
    ensures { AcceptedStormsHaveSteps }
{}

/// The peaks of a right study of a storm that has a step are no wider than asked, and whatever solves the network of each
/// step, each of them encloses the greatest absolute value over the steps. In a sound case their verdicts are true: a
/// transformer is told to be below the threshold only where it is at every step, to reach it only where it does at one, and
/// to be undecided only where its greatest absolute current is within one width of the threshold.
pub fn peaks_of_studies_law()
    ensures narrow { PeaksAreNarrow }
    ensures enclosed { PeaksEnclose }
    ensures verdicts { PeakVerdictsAreTrue }
    ensures near { UndecidedPeaksAreNear }
{
    peaks_enclose_law();
    peak_is_absolute_law();
    peak_is_narrow_law();
    verdict_law();
}
