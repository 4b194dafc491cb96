//! The parts of a line, as they are written.
use crate::part_row::PartRow;
use std::marker::Model;

/// Parts of a line, in their order.
#[derive(Drop)]
pub(crate) struct PartRows {
    list: Vec<PartRow>,
}

impl Model for PartRows {
    ghost use Rattle.std.specs.Prelude.{List};
    ghost use Rattle.gic_case_reader.specs.declared.part_row.PartRow.{PartRow};

    ghost Value = { List PartRow };

    ghost view = { λ parts. parts.list.items };
}

impl PartRows {
    ghost use Rattle.std.specs.Prelude.{◌≡◌};

    /// These parts.
    pub(crate) fn of(list: Vec<PartRow>) -> PartRows
        ensures { result ≡ list.items }
    {
        PartRows { list }
    }

    /// The parts.
    pub(crate) fn as_slice(&self) -> &[PartRow]
        ensures { result.now ≡ self.now }
    {
        self.list.as_slice()
    }
}
