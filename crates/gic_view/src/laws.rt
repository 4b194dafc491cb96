//! Theorems over the definitions, each the contract of a function that does nothing: a function whose proof rests on a
//! theorem calls it.
ghost use Rattle.gic_view.specs.PeakLaws.{PeakEnclosesGreatest, TransformerPeakIsPeak, BelowIsUnderThroughout, ReachesIsAtLeastOnce};
ghost use Rattle.gic_view.specs.PeakLaws.{PeakIsNotNegative, NotNegativeIsAbsolute, AbsoluteIsNoWider, PeakIsNoWider};

/// Where each interval that a view shows encloses that view's number, the peak encloses the greatest of their absolute
/// values over these views. Where it ends under a threshold, each of them is under the threshold; where it begins at the
/// threshold or above, one of them is the threshold or more. A transformer, which each view shows, has such a peak from
/// the first view on.
pub fn peaks_enclose_law()
    ensures encloses { PeakEnclosesGreatest }
    ensures transformers { TransformerPeakIsPeak }
    ensures below { BelowIsUnderThroughout }
    ensures reaches { ReachesIsAtLeastOnce }
{}

/// A peak is its own absolute interval.
pub fn peak_is_absolute_law()
    ensures not_negative { PeakIsNotNegative }
    ensures absolute { NotNegativeIsAbsolute }
{}

/// Taking absolute values widens no interval, and a peak is no wider than the widest absolute interval.
pub fn peak_is_narrow_law()
    ensures absolute { AbsoluteIsNoWider }
    ensures peak { PeakIsNoWider }
{}
