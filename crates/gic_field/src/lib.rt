//! The mode `field`: potentials, GIC and verdicts in one uniform geoelectric field.
#![tactic(auto)]

pub mod laws;
mod mode;
mod text;
mod workspace;

pub use mode::field;
pub use workspace::{Workspace, make_workspace};
