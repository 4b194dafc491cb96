//! The mode `volts`: the induced voltages of the lines of a case in one field.
#![tactic(auto)]

pub mod laws;
mod lines;
mod mode;
mod text;
mod workspace;

pub use mode::volts;
pub use workspace::{Workspace, make_workspace};
