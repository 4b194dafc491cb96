//! Where a line leads.
ghost use Rattle.std.specs.Prelude.{◌≡◌};
ghost use Rattle.gic_case.specs.Courses.{parts_of};

use crate::part::LinePart;
use crate::parts::LineParts;
use std::slice;

/// Where a line leads: through one zone, or in parts through several.
#[derive(Drop)]
pub enum Course {
    /// Through one zone, over the whole span of the line.
    One(LinePart),
    /// In parts, from its `from` bus to its `to` bus.
    Several(LineParts),
}

impl Course {
    /// The parts, in their order: the only one, or all of several.
    pub fn parts(&self) -> &[LinePart]
        ensures { result.now ≡ parts_of self.now }
    {
        match self {
            Course::One(part) => slice::from_ref(part),
            Course::Several(parts) => parts.as_slice(),
        }
    }
}
