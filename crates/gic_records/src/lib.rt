//! CSV records in memory, one after another.
#![tactic(auto)]

mod column;
pub mod laws;
mod prefix;
mod records;
mod rows;

pub use column::{is_word, text_at, time_in};
pub use prefix::MOST_COLUMNS;
pub use records::Records;
pub use rows::{RowReader, read_rows};
