//! Superposition of base fields: certified intervals in a field of 20000 mV/km in one zone alone, combined for each step
//! of a storm.
#![tactic(auto)]

mod certifying;
mod effective;
mod intervals;
pub mod laws;
mod showing;
mod single;
mod solving;
mod table;
mod workspace;
mod writing;

pub use certifying::prepare_bases;
pub use effective::base_effective;
pub use intervals::{base_current, base_potential};
pub use showing::fill_superposed;
pub use single::superposed_effective;
pub use table::BaseTable;
pub use workspace::{BaseField, BaseWorkspace};
