//! Intervals with ends of 64 bits, as a view keeps them.
ghost use Rattle.std.specs.Prelude.{◌≤ℤ◌};
ghost use Rattle.gic_fixed.specs.Encloses.{IsWithin};
ghost use Rattle.gic_view.specs.Bounds.{most_kept};

/// An interval, with no end beyond 2^63 - 1 either way.
#[derive(Clone, Copy, Debug)]
pub(crate) struct Kept {
    pub(crate) lo: i64,
    pub(crate) hi: i64,
    pub(crate) ghost ordered: { lo ≤ℤ hi },
    pub(crate) ghost within: { IsWithin most_kept lo hi },
}

/// An interval that may be missing: then it ends below where it begins.
#[derive(Clone, Copy, Debug)]
pub(crate) struct Cell {
    pub(crate) lo: i64,
    pub(crate) hi: i64,
    pub(crate) ghost within: { IsWithin most_kept lo hi },
}
