//! A part of a line, as it is written.
use gic_base::Name;

/// A part of a line, with the name of its zone, and its span to the north and to the east in metres.
#[derive(Clone, Copy)]
pub(crate) struct PartRow {
    pub(crate) zone: Name,
    pub(crate) north: i32,
    pub(crate) east: i32,
}
