//! A part of a line.

/// A part of a line, in one zone: the place of the zone in the case's list, from 0, and the span of the part, how far it
/// leads to the north and to the east, in metres, from -1000000 to 1000000.
#[derive(Clone, Copy, Debug, PartialEq, Eq)]
pub struct LinePart {
    pub zone: u16,
    pub north: i32,
    pub east: i32,
}
