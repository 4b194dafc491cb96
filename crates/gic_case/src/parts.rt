//! The parts of a line, in their order.

use crate::part::LinePart;
use std::marker::Model;

/// Parts of a line, in their order; in a case that keeps all rules from 2 to 16 of them.
#[derive(Drop)]
pub struct LineParts {
    list: Vec<LinePart>,
}

impl Model for LineParts {
    ghost use Rattle.std.specs.Prelude.{List};
    ghost use Rattle.gic_case.specs.declared.part.LinePart.{LinePart};

    ghost Value = { List LinePart };

    ghost view = { λ parts. parts.list.items };
}

impl LineParts {
    ghost use Rattle.std.specs.Prelude.{◌≡◌};

    /// These parts.
    pub fn of(list: Vec<LinePart>) -> LineParts
        ensures { result ≡ list.items }
    {
        LineParts { list }
    }

    /// The parts.
    pub fn as_slice(&self) -> &[LinePart]
        ensures { result.now ≡ self.now }
    {
        self.list.as_slice()
    }
}
