//! The verdicts on the transformers of a case, counted.
ghost use Rattle.std.specs.Prelude.{◌≡◌, length, All};
ghost use Rattle.gic_fixed.specs.Ends.{ends_of};
ghost use Rattle.gic_view.specs.Absolute.{HasAbsolute};
ghost use Rattle.gic_report.specs.VerdictText.{verdict_on};
ghost use Rattle.gic_report.specs.Counts.{counts_of};
ghost use Rattle.gic_make.specs.Counting.{verdicts_of};

use gic_case::{Case, Transformer};
use gic_criteria::Verdict;
use gic_fixed::Interval;
use gic_report::{Counts, counted, no_counts, verdict_in};
use gic_view::StepView;

/// The verdict on a transformer, by its signed effective current.
fn verdict_on(transformer: &Transformer, signed: Interval, threshold: u32) -> Verdict
    requires { HasAbsolute (ends_of signed) }
    ensures { result ≡ verdict_on threshold transformer.now (ends_of signed) }
{
    verdict_in(transformer, signed.abs(), threshold)
}

/// How many transformers of a case have each verdict against a threshold in mA per phase, by the view of a step.
pub(crate) fn count_verdicts(case: &Case, view: &StepView, threshold: u32) -> Counts
    requires count { length view.now.effective ≡ length case.now.transformers }
    requires absolutes { All HasAbsolute view.now.effective }
    ensures { result ≡ counts_of (verdicts_of case.now threshold view.now) }
{
    let mut counts = no_counts();
    for (place, transformer) in case.transformers().iter().enumerate() {
        let said = verdict_on(transformer, view.effective(place as u16), threshold);
        counts = counted(counts, said);
    }
    counts
}
