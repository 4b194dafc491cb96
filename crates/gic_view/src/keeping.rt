//! Intervals of 128 bits, and what a view keeps of them.
ghost use Rattle.std.specs.Prelude.{◌≡◌, IfSome};
ghost use Rattle.gic_fixed.specs.Ends.{ends_of};
ghost use Rattle.gic_view.specs.Bounds.{FitsView};
ghost use Rattle.gic_view.specs.Kept.{optional_ends};
ghost use Rattle.gic_view.specs.KeptEnds.{kept_ends, optional_kept, cell_ends};

use crate::kept::{Cell, Kept};
use gic_fixed::Interval;

/// An interval as a view keeps it.
#[inline(always)]
pub(crate) fn keep(interval: Interval) -> Kept
    requires { FitsView (ends_of interval) }
    ensures { kept_ends result ≡ ends_of interval }
{
    Kept {
        lo: interval.lo as i64,
        hi: interval.hi as i64,
    }
}

/// The same of an interval that may be missing.
#[inline(always)]
pub(crate) fn keep_if_shown(interval: Option<Interval>) -> Option<Kept>
    requires { IfSome (optional_ends interval) FitsView }
    ensures { optional_kept result ≡ optional_ends interval }
{
    match interval {
        Some(interval) => Some(keep(interval)),
        None => None,
    }
}

/// The interval that is kept.
#[inline(always)]
pub(crate) fn interval_of(kept: Kept) -> Interval
    ensures { ends_of result ≡ kept_ends kept }
{
    Interval {
        lo: kept.lo as i128,
        hi: kept.hi as i128,
    }
}

/// The same of one that may be missing.
#[inline(always)]
pub(crate) fn interval_if_shown(kept: Option<Kept>) -> Option<Interval>
    ensures { optional_ends result ≡ optional_kept kept }
{
    match kept {
        Some(kept) => Some(interval_of(kept)),
        None => None,
    }
}

/// The cell of an interval that may be missing.
#[inline(always)]
pub(crate) fn cell_of(kept: Option<Kept>) -> Cell
    ensures { cell_ends result ≡ optional_kept kept }
{
    match kept {
        Some(kept) => Cell {
            lo: kept.lo,
            hi: kept.hi,
        },
        None => Cell { lo: 1, hi: 0 },
    }
}

/// The interval in a cell, if there is one.
#[inline(always)]
pub(crate) fn kept_in(cell: Cell) -> Option<Kept>
    ensures { optional_kept result ≡ cell_ends cell }
{
    if cell.hi < cell.lo {
        None
    } else {
        Some(Kept {
            lo: cell.lo,
            hi: cell.hi,
        })
    }
}
