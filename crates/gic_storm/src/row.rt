//! Rows of a storm.

/// A field at a time, for one zone or for all of them.
#[derive(Clone, Copy, Debug, PartialEq, Eq)]
pub struct StormRow {
    /// In seconds.
    pub time: u32,
    /// The place of the zone in the case's list, from 0; None stands for all zones.
    pub zone: Option<u16>,
    /// In mV/km, from -20000 to 20000.
    pub north: i32,
    /// In mV/km, from -20000 to 20000.
    pub east: i32,
}
