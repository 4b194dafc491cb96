//! Induced voltages: the geoelectric field of each zone, integrated along the lines.
#![tactic(auto)]

mod element_volts;
mod fields;
pub mod laws;
mod voltage;

pub use element_volts::fill_volts;
pub use fields::Fields;
pub use voltage::{line_volts, part_nanovolts};
