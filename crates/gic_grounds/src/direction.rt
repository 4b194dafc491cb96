//! The two directions of a uniform field in which a transformer's current is told.

/// A direction of the field.
#[derive(Clone, Copy, Debug, PartialEq, Eq)]
pub enum Direction {
    /// Geographic north.
    North,
    /// Geographic east.
    East,
}
