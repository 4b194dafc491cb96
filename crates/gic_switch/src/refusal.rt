//! Why switchings are refused.
use thiserror::Error;

/// The first broken rule. Rows count from 1; row 0 is the first record.
#[derive(Clone, Copy, Debug, PartialEq, Eq, Error)]
pub enum SwitchRefusal {
    /// The first record is not `time,item,action`, or a row has another number of fields.
    #[error("row {row}: the columns are not those of switchings")]
    Shape { row: u32 },
    /// The time is no decimal number in its range.
    #[error("row {row}: the time is not a whole number within its range")]
    Number { row: u32 },
    /// The time is below the one before.
    #[error("row {row}: the time is below the time before")]
    Order { row: u32 },
    /// The action is none of `open`, `close`, `block` and `unblock`.
    #[error("row {row}: the action is none of open, close, block and unblock")]
    Action { row: u32 },
    /// The name is not one of those that the action may have.
    #[error("row {row}: the case has no such item for this action")]
    Item { row: u32 },
    /// There are more than 4096 rows.
    #[error("there are more than 4096 switchings")]
    TooMany,
}
