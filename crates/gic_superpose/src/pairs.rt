//! The intervals of a quantity in the two base fields of a zone: 20000 mV/km north in that zone and 0 elsewhere, and
//! 20000 mV/km east in that zone and 0 elsewhere.
use gic_fixed::Interval;

/// The intervals, in nanovolts or nanoamperes.
#[derive(Clone, Copy, Debug, PartialEq, Eq)]
pub struct ZonePair {
    pub north: Interval,
    pub east: Interval,
}
