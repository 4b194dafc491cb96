//! The verdicts on the transformers of a case by their worst intervals, counted.
ghost use Rattle.std.specs.Prelude.{◌≡◌, length, map};
ghost use Rattle.gic_report.specs.Counts.{counts_of};
ghost use Rattle.gic_worst.specs.Rows.{screen_row_of};
ghost use Rattle.gic_outage.specs.RightOutage.{worst_verdicts};
ghost use Rattle.gic_outage.specs.Taking.{worsts_in};

use gic_case::Case;
use gic_report::{Counts, counted, no_counts, verdict_in};
use gic_worst::ScreenRow;

/// How many transformers of a case have each verdict against a threshold in mA per phase, by the worst intervals of their
/// rows.
pub(crate) fn count_verdicts(case: &Case, rows: &[ScreenRow], threshold: u32) -> Counts
    requires { length rows.now ≡ length case.now.transformers }
    ensures { result ≡ counts_of (worst_verdicts case.now threshold (worsts_in (map screen_row_of rows.now))) }
{
    let mut counts = no_counts();
    for (place, transformer) in case.transformers().iter().enumerate() {
        let said = verdict_in(transformer, rows[place].worst, threshold);
        counts = counted(counts, said);
    }
    counts
}
