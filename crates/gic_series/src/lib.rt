//! The mode `series`: the signed effective GIC of one transformer at each step of a storm.
#![tactic(auto)]

pub mod laws;
mod mode;
mod rows;
mod steps;
mod text;
mod workspace;

pub use mode::series;
pub use workspace::{Workspace, make_workspace};
