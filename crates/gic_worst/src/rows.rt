//! What a screen shows of each transformer.
ghost use Rattle.std.specs.Prelude.{◌≡◌, ℕ, ◌^◌, ◌<◌, length};
ghost use Rattle.gic_fixed.specs.Encloses.{IsWithin};
ghost use Rattle.gic_fixed.specs.Ends.{ends_of};
ghost use Rattle.gic_view.specs.View.{effective_at};
ghost use Rattle.gic_worst.specs.Rows.{screen_row_of, screen_row_at, IsRowOf};

use gic_base::OutOfMemory;
use gic_criteria::worst;
use gic_fixed::Interval;
use gic_view::StepView;
use std::alloc::Global;
use std::marker::Model;

/// What a screen shows of a transformer, in milliamperes per phase: its signed effective currents in the field to the
/// north and in the same field to the east, and its absolute one for the worst orientation of that field.
#[derive(Clone, Copy, Debug)]
pub struct ScreenRow {
    pub north: Interval,
    pub east: Interval,
    pub worst: Interval,
}

/// The row of a transformer with these signed effective currents.
fn screen_row(north: Interval, east: Interval) -> ScreenRow
    requires north { IsWithin (2 ^ 52) north.lo north.hi }
    requires east { IsWithin (2 ^ 52) east.lo east.hi }
    ensures { IsRowOf (ends_of north) (ends_of east) (screen_row_of result) }
{
    ScreenRow {
        north,
        east,
        worst: worst(north, east),
    }
}

/// The rows of the transformers of a case, in their order.
#[derive(Drop)]
pub struct ScreenRows {
    list: Vec<ScreenRow>,
}

impl Model for ScreenRows {
    ghost use Rattle.std.specs.Prelude.{List, map};
    ghost use Rattle.gic_worst.specs.Rows.{ScreenRowView, screen_row_of};

    ghost Value = { List ScreenRowView };

    ghost view = { λ rows. map screen_row_of rows.list.items };
}

impl ScreenRows {
    ghost use Rattle.std.specs.Prelude.{◌≡◌, ◌<◌, length, map, replicate, slice_set, IfOk};
    ghost use Rattle.gic_worst.specs.Rows.{screen_row_of, no_screen_row};

    /// A given number of rows, in which each interval holds 0 alone.
    pub fn new(alloc: Global, count: usize) -> Result<ScreenRows, OutOfMemory>
        ensures { IfOk result (λ rows. rows ≡ replicate count no_screen_row) }
    {
        let zero = Interval::point(0);
        let row = ScreenRow {
            north: zero,
            east: zero,
            worst: zero,
        };
        let list = vec![in alloc; row; count]?;
        Ok(ScreenRows { list })
    }

    /// Changes the row of this transformer alone.
    pub fn set(&mut self, transformer: u16, row: ScreenRow)
        requires { transformer < length self.old }
        ensures { self.new ≡ slice_set self.old transformer (screen_row_of row) }
    {
        self.list[transformer as usize] = row;
    }

    /// The rows.
    pub fn rows(&self) -> &[ScreenRow]
        ensures { map screen_row_of result.now ≡ self.now }
    {
        &self.list
    }
}

/// Sets all rows, by the effective currents of two views that are as long as they are.
pub(crate) fn fill_rows(north: &StepView, east: &StepView, rows: &mut ScreenRows)
    requires north_count { length rows.old ≡ length north.now.effective }
    requires east_count { length rows.old ≡ length east.now.effective }
    requires north_small { (t : ℕ) → t < length rows.old →
        IsWithin (2 ^ 52) (effective_at north.now t).low (effective_at north.now t).high }
    requires east_small { (t : ℕ) → t < length rows.old →
        IsWithin (2 ^ 52) (effective_at east.now t).low (effective_at east.now t).high }
    ensures filled { (t : ℕ) → t < length rows.new →
        IsRowOf (effective_at north.now t) (effective_at east.now t) (screen_row_at rows.new t) }
    ensures count { length rows.new ≡ length rows.old }
{
    let (_, _, count) = north.sizes();
    for transformer in 0..count {
        let row = screen_row(north.effective(transformer), east.effective(transformer));
        rows.set(transformer, row);
    }
}
