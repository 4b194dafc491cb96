//! Monitors, which observe each step of a storm and print a text at its end: dwells, earthings, and two of reactive
//! losses under half-cycle saturation.
#![tactic(auto)]

mod board;
mod dwell;
mod earth;
pub mod laws;
mod loss;
mod monitor;
mod reading;
mod roster;

pub use board::Board;
pub use dwell::DwellMonitor;
pub use earth::EarthMonitor;
pub use loss::{MOST_SCALE, NamedFactor, TableLoss, VoltLoss};
pub use monitor::Monitor;
pub use roster::{Rated, Roster, Seat};
