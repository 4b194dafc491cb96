//! The report of a study: its setting, a step in detail, the peaks, and the texts of monitors.
#![tactic(auto)]

pub mod laws;
mod text;

pub use text::{Detail, Setting, write_study};
