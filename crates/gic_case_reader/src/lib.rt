//! The parser of cases: from the bytes of a TOML document to validated lists, or to the first rule that is broken.
#![tactic(auto)]

mod degree;
mod document;
mod ends;
mod field;
mod format;
mod keys;
pub mod laws;
mod list;
mod names;
mod part_row;
mod part_rows;
mod parts;
mod reading;
mod reference;
mod refusal;
mod row;
mod side;
mod transformer;
mod unique;
mod value;

pub use field::Field;
pub use reading::read_case;
pub use refusal::CaseRefusal;
