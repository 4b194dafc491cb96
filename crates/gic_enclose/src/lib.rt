//! Certified enclosures of node potentials: intervals that contain every solution, from residuals and a bound vector;
//! and convergence of the Jacobi iteration, proved.
#![tactic(auto)]

mod case_volts;
mod enclosing;
pub mod laws;
mod phases;
mod potentials;
mod settling;
mod solving;

pub use case_volts::{enclose, settle};
pub use enclosing::enclose_wide;
pub use potentials::Potentials;
pub use settling::settle_wide;
pub use solving::{MOST_TICKS, solve_wide};
