//! Superposition of enclosures: intervals in base fields, combined linearly for any fields.
#![tactic(auto)]

mod compact;
pub mod laws;
mod pairs;
mod rows;
mod superposing;

pub use pairs::ZonePair;
pub use rows::PairRows;
