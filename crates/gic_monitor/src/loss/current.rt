//! The absolute effective current that counts.
ghost use Rattle.std.specs.Prelude.{◌≡◌, ◌≤ℤ◌, pos};
ghost use Rattle.gic_fixed.specs.Ends.{ends_of};
ghost use Rattle.gic_monitor.specs.LossText.{most_counted_current, counted_current};

use crate::loss::limits::MOST_CURRENT;
use gic_fixed::Interval;

/// The absolute values of a current in milliamperes per phase, each end cut to at most [`MOST_CURRENT`].
pub(crate) fn counted_current(current: Interval) -> Interval
    ensures value { ends_of result ≡ counted_current (ends_of current) }
    ensures least { pos 0 ≤ℤ result.lo }
    ensures most { result.hi ≤ℤ pos most_counted_current }
{
    let cut = Interval::new(
        current.lo.min(MOST_CURRENT).max(-MOST_CURRENT),
        current.hi.min(MOST_CURRENT).max(-MOST_CURRENT),
    );
    cut.abs()
}
