//! The parser of storms: time series of geoelectric fields by zone, or the first rule that is broken.
#![tactic(auto)]

mod column;
mod form;
pub mod laws;
mod pass;
mod refusal;
mod row;
mod step_fields;
mod storm;

pub use refusal::{StormField, StormRefusal};
pub use row::StormRow;
pub use step_fields::fill_fields;
pub use storm::{Storm, read_storm};
