//! What is told of a transformer.
use gic_fixed::Interval;

/// The intervals of the signed effective currents of a transformer in milliamperes per phase, in the field to the north
/// and in the same field to the east, whatever resistances of their ranges the grounds have.
#[derive(Clone, Copy, Debug)]
pub struct VariedCurrents {
    pub north: Interval,
    pub east: Interval,
}
