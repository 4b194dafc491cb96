//! Why a case is refused.
ghost use Rattle.std.specs.Prelude.{◌≡◌};
ghost use Rattle.gic_base.specs.declared.read_fault.ReadFault.TheVariants.{Refused};

use crate::field::Field;
use gic_base::{Name, ReadFault};
use gic_case::CaseList;
use thiserror::Error;

/// The first broken rule. Rows count from 1; row 0 is the document or a whole list.
#[derive(Clone, Copy, Debug, PartialEq, Eq, Error)]
pub enum CaseRefusal {
    /// The bytes are no TOML document.
    #[error("the case is not a TOML document")]
    NotToml,
    /// The document, or a row, is not a table, has a key that it may not have, or lacks one that it must have. Row 0 of
    /// a list: it is not an array.
    #[error("{} row {row}: a key is missing or not allowed", .list.word())]
    Key {
        list: CaseList,
        row: u32,
    },
    /// A field is of the wrong type or out of its range.
    #[error("{} row {row}: the value of {} is of the wrong type or out of range", .list.word(), .field.key())]
    Value {
        list: CaseList,
        row: u32,
        field: Field,
    },
    /// A list has more rows than it may have.
    #[error("{}: there are too many rows", .list.word())]
    TooMany {
        list: CaseList,
    },
    /// An earlier row has the row's name.
    #[error("{} row {row}: an earlier row has the same name", .list.word())]
    Duplicate {
        list: CaseList,
        row: u32,
    },
    /// The field's name is not in the list that it refers to.
    #[error("{} row {row}: {} names no row of the case", .list.word(), .field.key())]
    Unknown {
        list: CaseList,
        row: u32,
        field: Field,
    },
    /// Two buses of the row are one.
    #[error("{} row {row}: two of its buses are the same", .list.word())]
    SameEnds {
        list: CaseList,
        row: u32,
    },
    /// Two buses of the transformer are in different substations.
    #[error("transformer row {row}: its buses lie in different substations")]
    Apart {
        row: u32,
    },
    /// The low or the third voltage of the transformer is above its high voltage.
    #[error("transformer row {row}: the low or the third voltage is above the high voltage")]
    VoltageOrder {
        row: u32,
    },
    /// More than 256 elements end at the node.
    #[error("more than 256 elements end at a node")]
    Degree {
        node: Name,
    },
}

impl From<CaseRefusal> for ReadFault<CaseRefusal> {
    ghost from_gives = { λ refusal e. e ≡ Refused refusal };

    fn from(refusal: CaseRefusal) -> ReadFault<CaseRefusal> {
        ReadFault::Refused(refusal)
    }
}
