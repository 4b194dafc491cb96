//! How far entries may be raised.
use crate::vector::BoundVector;

/// How far the entries at live nodes may be raised; at dead nodes none is raised.
#[derive(Clone, Copy)]
pub enum Cap<'a> {
    /// To [`FULL_WALK`](gic_base::limits::FULL_WALK).
    Full,
    /// To the entries of this vector, which is for as many nodes as the net has.
    Entries(&'a BoundVector),
}
