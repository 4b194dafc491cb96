//! The ends of ranges.

/// An end of the ranges of grounds.
#[derive(Clone, Copy, Debug, PartialEq, Eq)]
pub enum Extreme {
    /// The least resistance.
    Least,
    /// The greatest.
    Most,
}
