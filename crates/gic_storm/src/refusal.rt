//! Why a storm is refused.
use thiserror::Error;

/// A number of a row.
#[derive(Clone, Copy, Debug, PartialEq, Eq)]
pub enum StormField {
    Time,
    North,
    East,
}

/// The first broken rule. Rows count from 1; row 0 is the first record.
#[derive(Clone, Copy, Debug, PartialEq, Eq, Error)]
pub enum StormRefusal {
    /// The first record is none of the two that a storm may have, or a row has another number of fields.
    #[error("row {row}: the columns are not those of a storm")]
    Shape { row: u32 },
    /// The field is no decimal number in its range.
    #[error("row {row}: {field:?} is not a whole number within its range")]
    Number { row: u32, field: StormField },
    /// The zone is neither `*` nor the name of a zone of the case.
    #[error("row {row}: the zone is not a zone of the case")]
    Zone { row: u32 },
    /// The time may not follow the one before.
    #[error("row {row}: the time does not follow the time before")]
    Order { row: u32 },
    /// No row follows the first record.
    #[error("the storm has no row")]
    Empty,
    /// There are more than 20000 rows.
    #[error("the storm has more than 20000 rows")]
    TooMany,
}
