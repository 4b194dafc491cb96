//! The currents of the windings of a transformer.
use gic_fixed::Interval;

/// The intervals of the currents of the three windings that a transformer may have, in nanoamperes of all three phases.
/// That of a winding that isn't there isn't used.
#[derive(Clone, Copy, Debug)]
pub struct WindingCurrents {
    pub first: Interval,
    pub second: Interval,
    pub third: Interval,
}
