//! The verdict of an interval.
ghost use Rattle.std.specs.Prelude.{◌≡◌};
ghost use Rattle.gic_criteria.specs.Verdict.{verdict_of};

use crate::criterion::Verdict;
use gic_fixed::Interval;

/// The verdict on a transformer whose absolute effective current lies in `peak`, against a threshold, both in
/// milliamperes per phase. It is `Outside` where the high side has no more than 200000 volts, or the core has no
/// effective current, as where the high side isn't earthed through a winding.
pub fn verdict(peak: Interval, threshold: u32, high_volts: u32, has_effect: bool) -> Verdict
    ensures { result ≡ verdict_of peak.lo peak.hi threshold high_volts has_effect }
{
    if high_volts <= 200_000 || !has_effect {
        return Verdict::Outside;
    }
    if peak.lo >= threshold as i128 {
        Verdict::Reaches
    } else if peak.hi < threshold as i128 {
        Verdict::Below
    } else {
        Verdict::Undecided
    }
}
