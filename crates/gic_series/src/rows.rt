//! What the mode shows of each step.
use gic_base::OutOfMemory;
use gic_fixed::Interval;
use std::alloc::Global;
use std::marker::Model;

/// What the mode shows of a step: its number, its time in seconds, and the transformer's signed effective current in
/// milliamperes per phase.
#[derive(Clone, Copy, Debug)]
pub(crate) struct SeriesRow {
    pub(crate) number: u32,
    pub(crate) time: u32,
    pub(crate) effective: Interval,
}

/// The rows of the steps of a storm, in their order.
#[derive(Drop)]
pub(crate) struct SeriesRows {
    list: Vec<SeriesRow>,
}

impl Model for SeriesRows {
    ghost use Rattle.std.specs.Prelude.{List, map};
    ghost use Rattle.gic_series.specs.Rows.{SeriesRowView, series_row_of};

    ghost Value = { List SeriesRowView };

    ghost view = { λ rows. map series_row_of rows.list.items };
}

impl SeriesRows {
    ghost use Rattle.std.specs.Prelude.{◌≡◌, ◌<◌, length, map, replicate, slice_set, IfOk};
    ghost use Rattle.gic_series.specs.Rows.{series_row_of, no_series_row};

    /// A given number of rows, of number and time 0 and of an interval that holds 0 alone.
    pub(crate) fn new(alloc: Global, count: u32) -> Result<SeriesRows, OutOfMemory>
        ensures { IfOk result (λ rows. rows ≡ replicate count no_series_row) }
    {
        let row = SeriesRow {
            number: 0,
            time: 0,
            effective: Interval::point(0),
        };
        let list = vec![in alloc; row; count as usize]?;
        Ok(SeriesRows { list })
    }

    /// Changes the row at this place alone.
    pub(crate) fn set(&mut self, place: u32, row: SeriesRow)
        requires { place < length self.old }
        ensures { self.new ≡ slice_set self.old place (series_row_of row) }
    {
        self.list[place as usize] = row;
    }

    /// The rows.
    pub(crate) fn rows(&self) -> &[SeriesRow]
        ensures { map series_row_of result.now ≡ self.now }
    {
        &self.list
    }
}
