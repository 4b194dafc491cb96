//! The greatest worst intervals of transformers over outages.
ghost use Rattle.std.specs.Prelude.{◌≡◌, length, map, Some};
ghost use Rattle.gic_fixed.specs.Ends.{ends_of};
ghost use Rattle.gic_view.specs.Peaks.{greater};
ghost use Rattle.gic_worst.specs.Rows.{screen_row_of};
ghost use Rattle.gic_view.specs.Kept.{optional_ends};
ghost use Rattle.gic_outage.specs.Taking.{worsts_in, AreRaisedBy};

use gic_base::OutOfMemory;
use gic_fixed::Interval;
use gic_view::peak;
use gic_worst::ScreenRow;
use std::alloc::Global;
use std::marker::Model;

/// The greatest low end and the greatest high end of the worst intervals of each transformer, in milliamperes per phase;
/// `None` where no outage has shown one.
#[derive(Drop)]
pub(crate) struct Greatest {
    list: Vec<Option<Interval>>,
}

impl Model for Greatest {
    ghost use Rattle.std.specs.Prelude.{List, Option, map};
    ghost use Rattle.gic_fixed.specs.Ends.{Ends};
    ghost use Rattle.gic_view.specs.Kept.{optional_ends};

    ghost Value = { List (Option Ends) };

    ghost view = { λ greatest. map optional_ends greatest.list.items };
}

/// The greatest ends with one more interval.
fn raised(before: Option<Interval>, worst: Interval) -> Interval
    ensures { Some (ends_of result) ≡ greater (optional_ends before) (Some (ends_of worst)) }
{
    match before {
        Some(before) => peak(before, worst),
        None => worst,
    }
}

impl Greatest {
    ghost use Rattle.std.specs.Prelude.{◌≡◌, ◌<◌, length, map, replicate, slice_set, IfOk, None, Some};
    ghost use Rattle.gic_fixed.specs.Ends.{ends_of};
    ghost use Rattle.gic_view.specs.Peaks.{greater};
    ghost use Rattle.gic_view.specs.Kept.{optional_ends};
    ghost use Rattle.gic_outage.specs.Outages.{greatest_at};

    /// Of a given number of transformers, before any outage.
    pub(crate) fn new(alloc: Global, count: usize) -> Result<Greatest, OutOfMemory>
        ensures { IfOk result (λ greatest. greatest ≡ replicate count None) }
    {
        let list = vec![in alloc; None; count]?;
        Ok(Greatest { list })
    }

    /// Raises the interval of this transformer alone.
    fn raise(&mut self, transformer: usize, worst: Interval)
        requires { transformer < length self.old }
        ensures { self.new ≡ slice_set self.old transformer (greater (greatest_at self.old transformer) (Some (ends_of worst))) }
    {
        let before = self.list[transformer];
        self.list[transformer] = Some(raised(before, worst));
    }

    /// The intervals.
    pub(crate) fn intervals(&self) -> &[Option<Interval>]
        ensures { map optional_ends result.now ≡ self.now }
    {
        &self.list
    }
}

/// Raises the interval of each transformer by the worst interval of its row.
pub(crate) fn raise_all(rows: &[ScreenRow], greatest: &mut Greatest)
    requires { length greatest.old ≡ length rows.now }
    ensures { AreRaisedBy (worsts_in (map screen_row_of rows.now)) greatest.old greatest.new }
{
    for (place, row) in rows.iter().enumerate() {
        greatest.raise(place, row.worst);
    }
}
